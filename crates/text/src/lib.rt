// What the desk prints, written into a lent buffer: a printed line of each sort. Each function answers the place behind what it put.
#![tactic(auto)]

ghost use Rattle.std.specs.Prelude.{◌+◌, ◌≤◌, length};
ghost use Rattle.refusal.specs.Refusals.{number_of, place_of};
ghost use Rattle.digits.specs.Written.{Written};
ghost use Rattle.text.specs.Text.{line_text, charge_text, refused_text, line_room};

use figures::Line;
use refusal::Refusal;

// A printed line: top, tier and the four amounts.
pub fn put_line(out: &mut [u8], at: usize, line: Line) -> usize
    requires { at + line_room ≤ length out.old }
    ensures written { Written out.old at (line_text line) out.new result }
    ensures upper_bound { result ≤ at + line_room }
{
    let a = digits::put_number(out, at, u64::from(line.top), b' ');
    let b = digits::put_number(out, a, u64::from(line.tier), b' ');
    let c = digits::put_number(out, b, line.exposure, b' ');
    let d = digits::put_number(out, c, line.limit, b' ');
    let e = digits::put_number(out, d, line.left, b' ');
    digits::put_number(out, e, line.excess, b'\n')
}

// The last line of a report.
pub fn put_charge(out: &mut [u8], at: usize, charge: u64) -> usize
    requires { at + line_room ≤ length out.old }
    ensures written { Written out.old at (charge_text charge) out.new result }
    ensures upper_bound { result ≤ at + line_room }
{
    let a = digits::put(out, at, b"charge ");
    digits::put_number(out, a, charge, b'\n')
}

// A refusal's number and place, from the buffer's start.
pub fn put_refusal(out: &mut [u8], why: Refusal) -> usize
    requires { line_room ≤ length out.old }
    ensures written { Written out.old 0 (refused_text (number_of why) (place_of why)) out.new result }
    ensures upper_bound { result ≤ length out.new }
{
    let number = refusal::number(why);
    let place = refusal::place(why);
    let a = digits::put(out, 0, b"refused ");
    let b = digits::put_number(out, a, number, b' ');
    digits::put_number(out, b, place, b'\n')
}
