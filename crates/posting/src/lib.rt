// A book's exposures added up in a table of cells, each once, at the row of its group and its own column: what each mitigant covers, and what is left of each asset. Then the
// columns are folded onto their tiers.
#![tactic(auto)]

ghost use Rattle.std.specs.Prelude.{[], ◌≡◌, ℕ, ◌≤◌, ◌<◌};
ghost use Rattle.book.specs.Records.{N, K, mitigants_start};
ghost use Rattle.book.specs.Accepted.{Accepted};
ghost use Rattle.covering.specs.ByPlace.{parts_at, rests_at};
ghost use Rattle.cells.specs.Adding.{Adding};
ghost use Rattle.cells.specs.Cells.{cell_of, part_at, Rowed, Posted};
ghost use Rattle.posting.specs.Postable.{PartsPostable, RestsPostable, Postable};

use cells::Sums;
use header::Sections;

// The cell of what a mitigant covers.
fn cell_at(b: &[u8], sections: Sections, place: usize, words: &[u64], rows: &[u16]) -> usize
    requires { (Accepted b.now) × (sections.mitigants ≡ mitigants_start b.now) × (0 < place) × (place ≤ K b.now) × (Rowed b.now words.now rows.now) }
    ensures { (amount : ℕ) → result ≡ cell_of b.now (part_at b.now place amount) }
{
    let m = book::mitigant_at(b, sections.mitigants, place);
    let from = usize::from(m.counterparty);
    usize::from(rows[from]) + columns::of_form(words[from], u64::from(m.form)) as usize
}

// What the mitigants cover, each added to its cell.
fn post_parts(
    b: &[u8],
    sections: Sections,
    words: &[u64],
    rows: &[u16],
    covered: &[u64],
    cells: &mut [u64],
)
    requires { PartsPostable b.now sections words.now rows.now covered.now cells.old }
    ensures { Adding (cell_of b.now) cells.old (parts_at b.now covered.now 1 (K b.now)) cells.new [] }
{
    for place in 1..sections.mitigant_count + 1 {
        let cell = cell_at(b, sections, place, words, rows);
        cells[cell] += covered[place];
    }
}

// What is left of the assets, each added to its cell. The book is named by the contract alone.
fn post_rests(b: &[u8], sections: Sections, places: &[u16], rests: &[u64], cells: &mut [u64])
    requires { RestsPostable b.now sections places.now rests.now cells.old }
    ensures { Adding (cell_of b.now) cells.old (rests_at b.now rests.now 1 (N b.now)) cells.new [] }
{
    for place in 1..sections.asset_count + 1 {
        let cell = usize::from(places[place]);
        cells[cell] += rests[place];
    }
}

// Every exposure of the book added to its cell, in a table of zeros.
pub fn post(
    b: &[u8],
    sections: Sections,
    groups: usize,
    words: &[u64],
    rows: &[u16],
    covered: &[u64],
    rests: &[u64],
    places: &[u16],
    cells: &mut [u64],
) -> Sums
    requires { Postable b.now sections groups words.now rows.now covered.now rests.now places.now cells.old }
    ensures { Posted b.now groups cells.old cells.new result }
{
    post_parts(b, sections, words, rows, covered, cells);
    post_rests(b, sections, places, rests, cells);
    cells::fold(cells, groups)
}
