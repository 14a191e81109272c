// A book's exposure lines in book order: the cell of each, and the lines of what an asset's mitigants cover, to which what stands is given; what a line is not
// given is its desk's.
#![tactic(auto)]

ghost use Rattle.std.specs.Prelude.{◌≡◌, ℕ, ◌+◌, ◌-◌, ◌≤◌, ◌<◌};
ghost use Rattle.rows.specs.Rows.{columns};
ghost use Rattle.book.specs.Records.{K, mitigants_start, counterparty_at};
ghost use Rattle.book.specs.Accepted.{Accepted};
ghost use Rattle.columns.specs.Column.{tier_in, Tiered};
ghost use Rattle.cells.specs.Cells.{part_at, Rowed};
ghost use Rattle.desks.specs.BookLines.{exposure_line};
ghost use Rattle.desks.specs.Pass.{line_cell, PartsServable, PartsServed};

use header::Sections;

// The cell of the line of what a mitigant covers.
fn part_cell(
    b: &[u8],
    sections: Sections,
    place: usize,
    words: &[u64],
    rows: &[u16],
    tiers: &[u16],
) -> usize
    requires { (Accepted b.now) × (sections.mitigants ≡ mitigants_start b.now) × (0 < place) × (place ≤ K b.now) × (Rowed b.now words.now rows.now) × (Tiered tiers.now) }
    ensures { (desk amount : ℕ) → result ≡ line_cell b.now (exposure_line (counterparty_at b.now) desk (part_at b.now place amount)) }
{
    let m = book::mitigant_at(b, sections.mitigants, place);
    let from = usize::from(m.counterparty);
    let column = columns::of_form(words[from], u64::from(m.form)) as usize;
    usize::from(rows[from]) + usize::from(tiers[column])
}

// The cell of the line of what is left of an asset, by its row and the cell of its column.
pub fn rest_cell(row: u16, cell: u16, tiers: &[u16]) -> usize
    requires { (row ≤ cell) × (cell < row + columns) × (Tiered tiers.now) }
    ensures { result ≡ row + tier_in (cell - row) }
{
    let column = usize::from(cell - row);
    usize::from(row) + usize::from(tiers[column])
}

// The covered parts of an asset of such a desk, whose mitigants stand from place `first` on and before `end`.
pub fn serve_parts(
    b: &[u8],
    sections: Sections,
    first: usize,
    end: usize,
    desk: usize,
    words: &[u64],
    rows: &[u16],
    tiers: &[u16],
    covered: &[u64],
    still: &mut [u64],
    desks: &mut [u64],
)
    requires { PartsServable b.now sections first end desk words.now rows.now tiers.now covered.now still.old desks.old }
    ensures { PartsServed b.now covered.now desk first (end - first) still.old desks.old still.new desks.new }
{
    for place in first..end {
        let cell = part_cell(b, sections, place, words, rows, tiers);
        bills::serve(still, desks, cell, covered[place], desk);
    }
}
