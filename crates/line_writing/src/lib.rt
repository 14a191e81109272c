// The lines of a report: each line of a list put straight into the lent bytes.
#![tactic(auto)]

ghost use Rattle.std.specs.Prelude.{◌≡◌, length};
ghost use Rattle.words.specs.Words.{sum_of};
ghost use Rattle.wire.specs.Bytes.{placed};
ghost use Rattle.figures.specs.Report.{head_size, joined};
ghost use Rattle.lines.specs.Listing.{source, listed_lines};
ghost use Rattle.lines.specs.Promise.{Entries};

use cascade::TIERS;
use figures::Line;
use lines::ListedTable;

// The lines along a table's list, behind the header; their excesses summed. Limits and the group's exposures are arrays by rank, the exposures ranked
// anew where the group changes; there nothing stands.
pub fn put_list(d: &mut [u8], table: ListedTable<'_>) -> u64
    requires { Entries (source table.limits.now table.ranking.now table.cells.now table.sets.now table.heads.now) table.list.now (length table.list.now) (length d.old) }
    ensures { (result ≡ sum_of (λ x. x.excess) (listed_lines (source table.entry.limits.now table.entry.ranking.now table.entry.cells.now table.entry.sets.now table.entry.heads.now) table.entry.list.now (length table.entry.list.now))) × (d.new ≡ placed d.old head_size (joined (listed_lines (source table.entry.limits.now table.entry.ranking.now table.entry.cells.now table.entry.sets.now table.entry.heads.now) table.entry.list.now (length table.entry.list.now)))) }
{
    let ListedTable {
        limits,
        ranking,
        cells,
        sets,
        heads,
        list,
    } = table;
    let ranked = rows::by_rank(*limits, *ranking);
    let mut exposures = [0u64; TIERS];
    let mut excesses: u64 = 0;
    let mut standing: u64 = 0;
    let mut last = None;
    let mut place = layout::HEAD;
    for &entry in list {
        let entry = usize::from(entry);
        let k = entry / TIERS;
        let rank = entry % TIERS;
        if last != Some(k) {
            exposures = rows::by_rank(rows::row_of(cells, k), *ranking);
            standing = 0;
        }
        let cut = cascade::cut(ranked[rank], exposures[rank], standing);
        let line = Line {
            top: heads[k],
            tier: ranking[rank] as u8,
            tiers: sets[k],
            exposure: exposures[rank],
            limit: ranked[rank],
            left: cut.left,
            excess: cut.excess,
        };
        place = layout::put_line(d, place, line);
        standing = cut.standing;
        excesses += cut.excess;
        last = Some(k);
    }
    excesses
}
