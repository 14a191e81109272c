// The passes over the counterparties: their topmost parents from the last place down, then all that goes by place from the first up.
#![tactic(auto)]

ghost use Rattle.std.specs.Prelude.{◌≡◌};
ghost use Rattle.book.specs.Records.{C};
ghost use Rattle.book.specs.Accepted.{Accepted};
ghost use Rattle.parties.specs.Rows.{Fillable, Filled};

use rows::COLUMNS;

// Both numbers of each counterparty, its topmost parent and the row of its group, at its place; and the topmost parents in `heads`, by the
// numbers of their groups. Gives how many groups there are; from that number on, what stands in `heads` says nothing.
pub fn fill(
    b: &[u8],
    c: usize,
    words: &mut [u64],
    terms: &mut [u64],
    tops: &mut [u16],
    rows: &mut [u16],
    heads: &mut [u16],
) -> usize
    requires { (Accepted b.now) × (c ≡ C b.now) × (Fillable c words.old terms.old tops.old rows.old heads.old) }
    ensures { Filled b.now c words.old terms.old tops.old rows.old heads.old words.new terms.new tops.new rows.new heads.new result }
{
    groups::find_tops(b, c, tops);
    let mut groups = 0;
    for place in 1..c + 1 {
        let who = book::counterparty_at(b, place);
        let alone = who.parent == 0;
        let top = usize::from(tops[place]);
        let shared = rows[top];
        let fresh = (COLUMNS * groups) as u16;
        words[place] = classes::word_of(who);
        terms[place] = classes::terms_of(who);
        rows[place] = choice::pick(alone, fresh, shared);
        heads[groups] = place as u16;
        groups += usize::from(alone);
    }
    groups
}
