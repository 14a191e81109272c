// How much more a tier of a group may take without raising the charge.
#![tactic(auto)]

ghost use Rattle.std.specs.Prelude.{◌≡◌, ◌+◌, ◌*◌, ◌≤◌, length};
ghost use Rattle.words.specs.Words.{sum};
ghost use Rattle.wire.specs.Bytes.{M};
ghost use Rattle.cascade.specs.Cascade.{tiers, by_tier};
ghost use Rattle.headroom.specs.Headroom.{room_in, row_from, RankedBy};

use cascade::TIERS;

// Of the group whose exposures by tier stand from `at` on, once along the ranking: from the tier on, the least that any tier's limit has left over,
// and at most `most`. A number past the tiers has no limit. Whatever order of the tiers gives the ranking, it is the answer by that order.
pub fn room(
    limits: [u64; TIERS],
    cells: &[u64],
    at: usize,
    ranking: [usize; TIERS],
    tier: usize,
    most: u64,
) -> u64
    requires { (RankedBy limits ranking) × (at + tiers ≤ length cells.now) × (sum (row_from cells.now at) tiers ≤ 900 * M) }
    ensures { (q : RankedBy limits ranking) → result ≡ room_in tiers q.order (by_tier limits) (row_from cells.now at) tier most }
{
    if TIERS <= tier {
        return most;
    }
    let mut standing: u64 = 0;
    let mut room = most;
    let mut met = false;
    for t in ranking {
        let limit = limits[t];
        standing = (standing + cells[at + t]).min(limit);
        met |= t == tier;
        room = choice::pick(met, room.min(limit - standing), room);
    }
    room
}
