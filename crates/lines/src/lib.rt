// The list of a report's lines: the ranks that have one, group by group; the sets of the groups' tiers, read off the list; and how many lines there are.
#![tactic(auto)]

ghost use Rattle.std.specs.Prelude.{◌≡◌, map, ◌+◌, ◌*◌, ◌≤◌, ◌<◌, length, get_or};
ghost use Rattle.std.specs.Int.Count.{ones};
ghost use Rattle.words.specs.Words.{sum, those};
ghost use Rattle.cascade.specs.Cascade.{tiers};
ghost use Rattle.cascade.specs.Promise.{Once};
ghost use Rattle.rows.specs.Rows.{most_groups, columns};
ghost use Rattle.lines.specs.Listing.{entry, all_entries, all_ranks, shown_by, tried};
ghost use Rattle.lines.specs.Promise.{ListRoom, Addable, Added, Listable, Listed};

use cascade::TIERS;
use rows::COLUMNS;

// A table that is listed: limits by tier, the tiers by rank, the cells, the sets of the groups' tiers, their top places, and an entry to each line.
#[derive(Clone, Copy)]
pub struct ListedTable<'a> {
    pub limits: &'a [u64; TIERS],
    pub ranking: &'a [usize; TIERS],
    pub cells: &'a [u64],
    pub sets: &'a [u16],
    pub heads: &'a [u16],
    pub list: &'a [u16],
}

// The entries of group number k's lines (TIERS * k and the rank), put into list from `at` on; the place behind them.
// Every rank is put at the place reached, which moves on where the exposure is above 0: no branch on an exposure.
fn list_group(
    list: &mut [u16],
    at: usize,
    k: usize,
    cells: &[u64],
    ranking: [usize; TIERS],
) -> usize
    requires { (k < most_groups) × (columns * (k + 1) ≤ length cells.now) × (at + tiers ≤ length list.old) × Once tiers ranking }
    ensures { (result ≡ at + length (those (shown_by cells.now ranking) (map (entry k) all_ranks))) × (list.new ≡ tried (shown_by cells.now ranking) at (map (entry k) all_ranks) list.old) }
{
    let start = COLUMNS * k;
    let mut place = at;
    for (i, &t) in ranking.iter().enumerate() {
        list[place] = (TIERS * k + i) as u16;
        place += usize::from(0 < cells[start + t]);
    }
    place
}

// The entries of all groups' lines, one group after the other; the place behind them.
fn list_groups(cells: &[u64], groups: usize, ranking: [usize; TIERS], list: &mut [u16]) -> usize
    requires { ListRoom cells.now groups ranking list.old }
    ensures { (result ≡ length (those (shown_by cells.now ranking) (all_entries groups all_ranks))) × (list.new ≡ tried (shown_by cells.now ranking) 0 (all_entries groups all_ranks) list.old) }
{
    let mut place = 0;
    for k in 0..groups {
        place = list_group(list, place, k, cells, ranking);
    }
    place
}

// The bit of each entry's tier added to the set of its group.
fn add_bits(list: &[u16], lines: usize, ranking: [usize; TIERS], sets: &mut [u16])
    requires { Addable list.now lines ranking sets.old }
    ensures { Added list.now lines ranking sets.old sets.new }
{
    for &entry in &list[..lines] {
        let entry = usize::from(entry);
        let t = ranking[entry % TIERS];
        sets[entry / TIERS] += 1 << t;
    }
}

// The ones of the groups' sets.
fn ones_in(sets: &[u16], groups: usize) -> usize
    requires { (groups ≤ most_groups) × (groups ≤ length sets.now) }
    ensures { result ≡ sum (λ k. ones (get_or sets.now k 0)) groups }
{
    let mut count = 0;
    for set in &sets[..groups] {
        count += set.count_ones() as usize;
    }
    count
}

// How many lines the groups have: the ones of their sets of tiers, which go to sets by the groups' numbers. The lines' entries go to list.
pub fn list_lines(
    cells: &[u64],
    groups: usize,
    ranking: [usize; TIERS],
    sets: &mut [u16],
    list: &mut [u16],
) -> usize
    requires { Listable cells.now groups ranking sets.old list.old }
    ensures { Listed cells.now groups ranking sets.old sets.new list.old list.new result }
{
    let end = list_groups(cells, groups, ranking, list);
    add_bits(list, end, ranking, sets);
    ones_in(sets, groups)
}
