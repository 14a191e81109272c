// What stands in each tier of each group, put in the place of its exposure.
#![tactic(auto)]

ghost use Rattle.standing.specs.Standing.{Standable, GroupStood, Groups, Stood};

use cascade::TIERS;
use rows::COLUMNS;

// The tiers of group number k, along the ranking.
fn stand_group(
    cells: &mut [u64],
    k: usize,
    exposures: [u64; TIERS],
    limits: [u64; TIERS],
    ranking: [usize; TIERS],
)
    requires { Standable cells.old k exposures ranking }
    ensures { GroupStood k exposures limits ranking cells.old cells.new }
{
    let at = COLUMNS * k;
    let mut standing: u64 = 0;
    for t in ranking {
        let cut = cascade::cut(limits[t], exposures[t], standing);
        cells[at + t] = exposures[t] - cut.excess;
        standing = cut.standing;
    }
}

// The groups of numbers 0 to `groups` - 1. No other column of a row changes, and nothing behind the rows.
pub fn stand(cells: &mut [u64], groups: usize, limits: [u64; TIERS], ranking: [usize; TIERS])
    requires { Groups cells.old groups ranking }
    ensures { Stood groups limits ranking cells.old cells.new }
{
    for k in 0..groups {
        let exposures = rows::row_of(cells, k);
        stand_group(cells, k, exposures, limits, ranking);
    }
}
