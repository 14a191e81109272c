// The report of a fund, or refusal 16.
#![tactic(auto)]

ghost use Rattle.std.specs.Prelude.{◌≡◌};
ghost use Rattle.fund.specs.Fund.{Rateable, RatedAs};
ghost use Rattle.report.specs.Answer.{Answered};
ghost use Rattle.report.specs.Tables.{Headed, Room, Lists};

use fund::Fund;
use lines::ListedTable;
use refusal::Refusal;

// Refusal 16, or the report, of a fund whose tables are made.
pub fn finish(
    schedule: &[u8],
    book: &[u8],
    groups: usize,
    f: Fund,
    heads: &[u16],
    cells: &[u64],
    sets: &mut [u16],
    list: &mut [u16],
    report: &mut [u8],
) -> Result<usize, Refusal>
    requires { (Rateable schedule.now book.now groups cells.now) × (RatedAs schedule.now book.now f) × (Headed book.now heads.now) × (Room groups sets.old list.old) }
    ensures tables { Lists cells.now groups f.ranking sets.old sets.new list.old list.new }
    ensures answered { Answered schedule.now book.now report.old report.new result }
{
    let n = lines::list_lines(cells, groups, f.ranking, sets, list);
    let size = layout::HEAD + layout::LINE * n;
    if report.len() < size {
        return Err(Refusal::BufferShort);
    }
    let table = ListedTable {
        limits: &f.limits,
        ranking: &f.ranking,
        cells,
        sets,
        heads,
        list: &list[..n],
    };
    writing::put_report(report, table, f.figures);
    Ok(size)
}
