// The converter's entry: from a book of version 1 and a lent buffer to the book as version 2, or to one refusal.
#![tactic(auto)]

ghost use Rattle.std.specs.Prelude.{◌≡◌};
ghost use Rattle.convert.specs.Convert.{book_converts, Converts};

use refusal::Refusal;

// Refusals 5 to 15, 17 and 18, in the converter's order.
#[tactic(auto, using(refusal::specs::Laws::then_err, refusal::specs::Laws::then_ok), unfolding(crate::specs::Convert::book_converts))]
fn check(book: &[u8]) -> Result<(), Refusal>
    ensures { result ≡ book_converts book.now }
{
    conversion::first_check(book)?;
    admit::check(book)?;
    book_values::check_book(book)?;
    conversion::narrow_check(book)
}

// The book as version 2, or the first refusal that applies. A refusal changes no byte of the buffer, a converted book only its own length.
pub fn convert(book: &[u8], converted: &mut [u8]) -> Result<usize, Refusal>
    ensures { Converts book.now converted.old converted.new result }
{
    check(book)?;
    if converted.len() < book.len() {
        return Err(Refusal::BufferShort);
    }
    conversion::put(converted, book);
    Ok(book.len())
}
