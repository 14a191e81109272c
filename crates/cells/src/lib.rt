// A table of exposures by group and column: the columns that count for W and for A3 folded onto their tiers'. `posting` fills it.
#![tactic(auto)]

ghost use Rattle.std.specs.Prelude.{◌≡◌, ℕ, ◌+◌, ◌≤◌, ◌<◌, ◌^◌, length, get_or, set};
ghost use Rattle.cascade.specs.Cascade.{tiers};
ghost use Rattle.rows.specs.Rows.{columns};
ghost use Rattle.cells.specs.Cells.{folded, cells_from, FoldedRow, FoldFits, Folded};

use cascade::TIERS;
use rows::COLUMNS;

// The column of what has no limit.
const NO_LIMIT: usize = TIERS;

// The column of tier c of kind 3.
const BILLS: usize = TIERS + 1;

// The first of the five columns that count for A3.
pub const A3: usize = TIERS + 2;

// W, and the exposures that have no limit.
#[derive(Clone, Copy)]
pub struct Sums {
    pub w: u64,
    pub free: u64,
}

// One cell added to another.
fn add(cells: &mut [u64], to: usize, from: usize)
    requires { (to < length cells.old) × (from < length cells.old) × (get_or cells.old to 0 + get_or cells.old from 0 < 2 ^ 64) }
    ensures { cells.new ≡ set cells.old to (get_or cells.old to 0 + get_or cells.old from 0) }
{
    cells[to] += cells[from];
}

// The row that starts at `at`: each column that counts for W or A3 added to its tier's own.
fn fold_row(cells: &mut [u64], at: usize)
    requires { (at + columns ≤ length cells.old) × ((t : ℕ) → t < tiers → folded (cells_from cells.old at) t < 2 ^ 64) }
    ensures { FoldedRow at cells.old cells.new }
{
    add(cells, at + 11, at + BILLS);
    add(cells, at + 1, at + A3);
    add(cells, at + 3, at + A3 + 1);
    add(cells, at + 4, at + A3 + 2);
    add(cells, at + 5, at + A3 + 3);
    add(cells, at + 6, at + A3 + 4);
}

// All rows folded; gives the sums of the two columns that the whole fund's figures need.
pub fn fold(cells: &mut [u64], groups: usize) -> Sums
    requires { FoldFits groups cells.old }
    ensures { Folded groups cells.old cells.new result }
{
    let mut w = 0;
    let mut free = 0;
    for k in 0..groups {
        let at = COLUMNS * k;
        w += cells[at + BILLS];
        free += cells[at + NO_LIMIT];
        fold_row(cells, at);
    }
    Sums { w, free }
}
