// The writer of a report: the lines of a list put into the lent bytes, then the header.
#![tactic(auto)]

ghost use Rattle.std.specs.Prelude.{length};
ghost use Rattle.lines.specs.Listing.{source};
ghost use Rattle.lines.specs.Promise.{Writable, ReportPut};

use figures::{Figures, Head};
use lines::ListedTable;

// The report of a table that is listed: its lines, then the header, which has their excesses. No byte behind the report changes.
pub fn put_report(buffer: &mut [u8], table: ListedTable<'_>, figures: Figures)
    requires { Writable (source table.limits.now table.ranking.now table.cells.now table.sets.now table.heads.now) table.list.now (length table.list.now) figures (length buffer.old) }
    ensures { ReportPut (source table.entry.limits.now table.entry.ranking.now table.entry.cells.now table.entry.sets.now table.entry.heads.now) table.entry.list.now (length table.entry.list.now) figures buffer.old buffer.new }
{
    let group_excess = line_writing::put_list(buffer, table);
    let over = figures.a3_sum.saturating_sub(figures.a3_limit);
    let head = Head {
        lines: table.list.len() as u16,
        vaf: figures.vaf,
        stressed_vaf: figures.stressed_vaf,
        all_net: figures.all_net,
        unlimited: figures.unlimited,
        group_excess,
        a3_sum: figures.a3_sum,
        a3_limit: figures.a3_limit,
        charge: group_excess + over,
    };
    layout::put_head(buffer, head);
}
