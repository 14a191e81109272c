// The A3 sum of a fund, out of the cells of exposures by group and column.
#![tactic(auto)]

ghost use Rattle.std.specs.Prelude.{◌≡◌, ℕ, ◌+◌, ◌*◌, ◌≤◌, ◌<◌, min, length, get_or};
ghost use Rattle.words.specs.Words.{sum as sum_below};
ghost use Rattle.wire.specs.Bytes.{M};
ghost use Rattle.limit.specs.Bounds.{most_limit};
ghost use Rattle.cascade.specs.Cascade.{by_tier};
ghost use Rattle.rows.specs.Rows.{most_groups, columns};
ghost use Rattle.a3.specs.A3.{a3_part, a3_at};

use cascade::TIERS;
use cells::A3;
use rows::COLUMNS;

// What of an exposure counts: no more than its tier's limit.
fn capped(exposure: u64, limit: u64) -> u64
    ensures { result ≡ min exposure limit }
{
    exposure.min(limit)
}

// What of group number k counts: tiers 1 and 3 to 6, each up to its limit.
fn part(cells: &[u64], limits: [u64; TIERS], k: usize) -> u64
    requires { (k < most_groups) × (columns * k + columns ≤ length cells.now) × ((t : ℕ) → get_or limits t 0 ≤ most_limit) }
    ensures { result ≡ a3_part (a3_at cells.now k) (by_tier limits) }
{
    let at = COLUMNS * k + A3;
    let first = capped(cells[at], limits[1]);
    let third = capped(cells[at + 1], limits[3]);
    let fourth = capped(cells[at + 2], limits[4]);
    let fifth = capped(cells[at + 3], limits[5]);
    let sixth = capped(cells[at + 4], limits[6]);
    first + third + fourth + fifth + sixth
}

// The A3 sum of the groups of numbers 0 to `groups` - 1.
pub fn sum(cells: &[u64], limits: [u64; TIERS], groups: usize) -> u64
    requires { (groups ≤ most_groups) × (columns * groups ≤ length cells.now) × ((t : ℕ) → get_or limits t 0 ≤ most_limit) }
    ensures { (result ≡ sum_below (λ k. a3_part (a3_at cells.now k) (by_tier limits)) groups) × (result ≤ 3750 * M) }
{
    let mut total: u64 = 0;
    for k in 0..groups {
        total += part(cells, limits, k);
    }
    total
}
