// The text of a report, read off its bytes and written into a lent buffer.
#![tactic(auto)]

ghost use Rattle.std.specs.Prelude.{◌≡◌, ◌+◌, ◌*◌, ◌≤◌, length};
ghost use Rattle.figures.specs.Report.{head_size, line_size};
ghost use Rattle.figures.specs.Read.{line_from, lines_in, charge_in};
ghost use Rattle.digits.specs.Written.{Written};
ghost use Rattle.text.specs.Text.{report_text, lines_read, line_room};

use figures::Line;

// Where a report's header has the number of its lines, and the charge.
const LINES_AT: usize = 6;

const CHARGE_AT: usize = 64;

// The line of a report that stands from `from` on.
#[tactic(auto, unfolding(figures::specs::Read::line_from))]
fn line_from(report: &[u8], from: usize) -> Line
    requires { from + line_size ≤ length report.now }
    ensures { result ≡ line_from report.now from }
{
    Line {
        top: wire::u16_at(report, from),
        tier: report[from + 2],
        tiers: wire::u16_at(report, from + 4),
        exposure: wire::u64_at(report, from + 8),
        limit: wire::u64_at(report, from + 16),
        left: wire::u64_at(report, from + 24),
        excess: wire::u64_at(report, from + 32),
    }
}

// A report's lines and its charge, from the buffer's start. The report may have any bytes behind it.
pub fn put_report(out: &mut [u8], report: &[u8]) -> usize
    requires report_in_bounds { head_size + line_size * lines_in report.now ≤ length report.now }
    requires line_room_in_bounds { line_room * lines_in report.now + line_room ≤ length out.old }
    ensures written { Written out.old 0 (report_text (lines_read report.now (lines_in report.now)) (charge_in report.now)) out.new result }
    ensures upper_bound { result ≤ length out.new }
{
    let lines = usize::from(wire::u16_at(report, LINES_AT));
    let mut at = 0;
    for i in 0..lines {
        at = text::put_line(out, at, line_from(report, layout::HEAD + layout::LINE * i));
    }
    text::put_charge(out, at, wire::u64_at(report, CHARGE_AT))
}
