// The published schedule's bytes.
#![tactic(auto)]

ghost use Rattle.std.specs.Prelude.{◌≡◌, ◌+◌, ◌≤◌, length};
ghost use Rattle.words.specs.Words.{each_of};
ghost use Rattle.wire.specs.Bytes.{placed};
ghost use Rattle.limit.specs.Bounds.{RowFits};
ghost use Rattle.schedule.specs.Schedule.{schedule_size, head_size, row_size, rows_of, published, mark, row_bytes, head_bytes, schedule_bytes};

use limit::Row;
use schedule::{HEAD_SIZE, PER_MILLE, ROW_SIZE};

// How many rows there are.
const ROW_COUNT: usize = 8;

// The published schedule (A1 to A3), of version 1: percents kept, and rows c, d, e, f, g, h, i, z, their rates per mille.
const FIRST: u16 = 66;

const SECOND: u16 = 34;

const ROWS: [Row; ROW_COUNT] = [
    // c
    Row {
        rate: 250,
        second: 0,
        base_rate: 0,
        fixed: 2000000000,
    },
    // d
    Row {
        rate: 500,
        second: 250,
        base_rate: 0,
        fixed: 2000000000,
    },
    // e
    Row {
        rate: 250,
        second: 0,
        base_rate: 1250,
        fixed: 2000000000,
    },
    // f
    Row {
        rate: 250,
        second: 0,
        base_rate: 1250,
        fixed: 2000000000,
    },
    // g
    Row {
        rate: 125,
        second: 0,
        base_rate: 625,
        fixed: 0,
    },
    // h
    Row {
        rate: 50,
        second: 0,
        base_rate: 250,
        fixed: 0,
    },
    // i
    Row {
        rate: 25,
        second: 0,
        base_rate: 125,
        fixed: 0,
    },
    // z
    Row {
        rate: 125,
        second: 0,
        base_rate: 625,
        fixed: 0,
    },
];

// "ACL", a zero byte.
fn put_mark(d: &mut [u8])
    requires { 4 ≤ length d.old }
    ensures { d.new ≡ placed d.old 0 mark }
{
    d[..4].copy_from_slice(b"ACL\0");
}

// The published schedule's bytes before its rows.
fn put_head(d: &mut [u8])
    requires { head_size ≤ length d.old }
    ensures { d.new ≡ placed d.old 0 (head_bytes published) }
{
    put_mark(d);
    placing::put_u16(d, 4, PER_MILLE);
    placing::put_u16(d, 6, FIRST);
    placing::put_u16(d, 8, SECOND);
}

// One row's bytes, at a place.
fn put_row(d: &mut [u8], at: usize, row: Row)
    requires row_fits { RowFits row }
    requires row_size_in_bounds { at + row_size ≤ length d.old }
    ensures { d.new ≡ placed d.old at (row_bytes row) }
{
    placing::put_u16(d, at, row.rate as u16);
    placing::put_u16(d, at + 2, row.second as u16);
    placing::put_u16(d, at + 4, row.base_rate as u16);
    placing::put_u64(d, at + 6, row.fixed);
}

// The published schedule's rows.
fn put_rows(d: &mut [u8])
    requires { schedule_size ≤ length d.old }
    ensures { d.new ≡ placed d.old head_size (each_of row_bytes (rows_of published)) }
{
    for (n, row) in ROWS.iter().enumerate() {
        put_row(d, HEAD_SIZE + ROW_SIZE * n, *row);
    }
}

// The published schedule's bytes.
pub fn put_published(d: &mut [u8])
    requires { schedule_size ≤ length d.old }
    ensures { d.new ≡ placed d.old 0 (schedule_bytes published) }
{
    put_head(d);
    put_rows(d);
}
