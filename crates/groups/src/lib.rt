// The topmost parent of each counterparty: by recursion, the place falling at each call, and what is found kept in a table.
#![tactic(auto)]

ghost use Rattle.std.specs.Prelude.{◌≡◌, ◌≤◌, ◌<◌};
ghost use Rattle.words.specs.Tables.{filled};
ghost use Rattle.book.specs.Records.{C, counterparty_at};
ghost use Rattle.book.specs.Book.{parent_of, top_of};
ghost use Rattle.book.specs.Accepted.{Accepted};
ghost use Rattle.groups.specs.Tops.{kept, Partial, Blank};

// The parent of a place, 0 for none.
fn parent(book: &[u8], place: usize) -> usize
    requires { (Accepted book.now) × (0 < place) × (place ≤ C book.now) }
    ensures { (result ≡ parent_of (counterparty_at book.now) place) × (result < place) }
{
    let who = book::counterparty_at(book, place);
    usize::from(who.parent)
}

// The topmost parent of a place: itself where it has no parent, or else its parent's, which is looked up in the table or found and kept there.
fn top(book: &[u8], tops: &mut [u16], place: usize) -> u16
    requires { (Accepted book.now) × (Partial book.now tops.old) × (0 < place) × (place ≤ C book.now) }
    ensures { (result ≡ top_of (counterparty_at book.now) place) × (tops.new ≡ kept book.now place tops.old) }
{
    let up = parent(book, place);
    if up == 0 {
        return place as u16;
    }
    let known = tops[up];
    if 0 < known {
        return known;
    }
    let found = top(book, tops, up);
    tops[up] = found;
    found
}

// The topmost parents of all places into a table of zeros. From the last place down: a chain of parents is gone up once, from its lower end.
pub fn find_tops(book: &[u8], c: usize, tops: &mut [u16])
    requires { (Accepted book.now) × (c ≡ C book.now) × (Blank c tops.old) }
    ensures { tops.new ≡ filled (top_of (counterparty_at book.now)) c tops.old }
{
    for place in (1..=c).rev() {
        if tops[place] == 0 {
            let found = top(book, tops, place);
            tops[place] = found;
        }
    }
}
