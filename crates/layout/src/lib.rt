// A report's bytes: a line and the header, each put at its place and nothing beside it.
#![tactic(auto)]

ghost use Rattle.std.specs.Prelude.{◌≡◌, ◌++◌, ◌∷◌, [], ◌+◌, ◌≤◌, length};
ghost use Rattle.wire.specs.Bytes.{bytes64, placed};
ghost use Rattle.figures.specs.Report.{head_size, line_size, head_bytes};
ghost use Rattle.layout.specs.Put.{LinePut};

use figures::{Head, Line};

// How many bytes the header and a line have.
pub const HEAD: usize = 72;

pub const LINE: usize = 40;

// Four amounts.
fn put_four(d: &mut [u8], at: usize, a: u64, b: u64, c: u64, e: u64)
    requires { at + 32 ≤ length d.old }
    ensures { d.new ≡ placed d.old at (bytes64 a ++ bytes64 b ++ bytes64 c ++ bytes64 e) }
{
    placing::put_u64(d, at, a);
    placing::put_u64(d, at + 8, b);
    placing::put_u64(d, at + 16, c);
    placing::put_u64(d, at + 24, e);
}

// A line, straight into the report: its 40 bytes, and no byte beside them. The place behind it.
pub fn put_line(d: &mut [u8], at: usize, line: Line) -> usize
    requires { at + line_size ≤ length d.old }
    ensures { LinePut line at d.old d.new result }
{
    placing::put_u16(d, at, line.top);
    placing::put_u8(d, at + 2, line.tier);
    placing::put_u8(d, at + 3, 0);
    placing::put_u16(d, at + 4, line.tiers);
    placing::put_u16(d, at + 6, 0);
    put_four(d, at + 8, line.exposure, line.limit, line.left, line.excess);
    at + LINE
}

// "ACR", zero, version 1.
fn put_mark(d: &mut [u8])
    requires { 6 ≤ length d.old }
    ensures { d.new ≡ placed d.old 0 (65 ∷ 67 ∷ 82 ∷ 0 ∷ 1 ∷ 0 ∷ []) }
{
    d[..6].copy_from_slice(b"ACR\0\x01\0");
}

// The header. No byte beside its 72 changes.
pub fn put_head(d: &mut [u8], head: Head)
    requires { head_size ≤ length d.old }
    ensures { d.new ≡ placed d.old 0 (head_bytes head) }
{
    put_mark(d);
    placing::put_u16(d, 6, head.lines);
    put_four(
        d,
        8,
        head.vaf,
        head.stressed_vaf,
        head.all_net,
        head.unlimited,
    );
    put_four(
        d,
        40,
        head.group_excess,
        head.a3_sum,
        head.a3_limit,
        head.charge,
    );
}
