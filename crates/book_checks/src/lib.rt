// Refusals 5 to 13, 17, 14 and 15 of a book, in this order.
#![tactic(auto)]

ghost use Rattle.std.specs.Prelude.{◌≡◌};
ghost use Rattle.book_checks.specs.Checks.{book_checks};

use refusal::Refusal;

// The first refusal of a book that is none of its schedule's or its buffer's.
#[tactic(auto, using(refusal::specs::Laws::then_err, refusal::specs::Laws::then_ok), unfolding(crate::specs::Checks::book_checks))]
pub fn check(b: &[u8]) -> Result<(), Refusal>
    ensures { result ≡ book_checks b.now }
{
    admit::check(b)?;
    book_values::check_book(b)
}
