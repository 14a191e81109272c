// A table of cells: a row of columns to each group; a group's amounts by tier, and by rank.
#![tactic(auto)]

ghost use Rattle.std.specs.Prelude.{◌≡◌, map, ◌+◌, ◌*◌, ◌≤◌, length};
ghost use Rattle.cascade.specs.Cascade.{tiers, by_tier};
ghost use Rattle.cascade.specs.Promise.{Once};
ghost use Rattle.rows.specs.Rows.{columns, row};

use cascade::TIERS;

// How many columns a row has: a tier each, and seven beside the tiers.
pub const COLUMNS: usize = TIERS + 7;

// The exposures of group number k by tier.
#[tactic(auto, unfolding(crate::specs::Rows::row))]
pub fn row_of(cells: &[u64], k: usize) -> [u64; TIERS]
    requires { columns * (k + 1) ≤ length cells.now }
    ensures { result ≡ row cells.now k }
{
    let start = COLUMNS * k;
    let mut out = [0u64; TIERS];
    out.copy_from_slice(&cells[start..start + TIERS]);
    out
}

// Amounts by tier, ranked into a new array.
pub fn by_rank(amounts: [u64; TIERS], ranking: [usize; TIERS]) -> [u64; TIERS]
    requires { Once tiers ranking }
    ensures { result ≡ map (by_tier amounts) ranking }
{
    let mut out = [0u64; TIERS];
    for (rank, t) in ranking.iter().enumerate() {
        out[rank] = amounts[*t];
    }
    out
}
