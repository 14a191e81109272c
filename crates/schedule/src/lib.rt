// A schedule of rates out of its bytes, and refusals 1 to 4.
#![tactic(auto)]

ghost use Rattle.std.specs.Prelude.{◌≡◌, ◌+◌, ◌*◌, ◌≤◌, ◌<◌, length};
ghost use Rattle.wire.specs.Bytes.{u16_at};
ghost use Rattle.limit.specs.Limit.{times_row};
ghost use Rattle.limit.specs.Bounds.{most_rate};
ghost use Rattle.schedule.specs.Schedule.{schedule_size, row_count, version, row_at, counts, schedule_of};
ghost use Rattle.schedule.specs.Check.{schedule_marked, known, row_fits, rates_fit, fields_check, schedule_check};

use limit::Row;
use refusal::Refusal;

// The versions: rates per mille, and rates in ten-thousandths.
pub const PER_MILLE: u16 = 1;

const TEN_THOUSANDTHS: u16 = 2;

// How many ten-thousandths one per mille is.
pub const TENFOLD: u64 = 10;

// How many bytes a schedule has, how many stand before its rows, and how many a row has.
pub const SIZE: usize = 122;

pub const HEAD_SIZE: usize = 10;

pub const ROW_SIZE: usize = 14;

// "percent kept after the first downgrade step, (..) after the second, then rows c, d, e, f, g, h, i, z"
#[derive(Clone, Copy)]
pub struct Schedule {
    pub first: u64,
    pub second: u64,
    pub c: Row,
    pub d: Row,
    pub e: Row,
    pub f: Row,
    pub g: Row,
    pub h: Row,
    pub i: Row,
    pub z: Row,
}

// Which version a schedule states.
fn version(s: &[u8]) -> u16
    requires { schedule_size ≤ length s.now }
    ensures { result ≡ version s.now }
{
    wire::u16_at(s, 4)
}

// What a rate of a version counts in ten-thousandths.
fn times(version: u16) -> u64
    ensures { (result ≡ counts version) × (result ≤ 10) }
{
    if version == PER_MILLE { TENFOLD } else { 1 }
}

// A rate, so many times.
fn rate_at(s: &[u8], at: usize, times: u64) -> u64
    requires { (at + 2 ≤ length s.now) × (times ≤ 10) }
    ensures { result ≡ times * u16_at s.now at }
{
    times * u64::from(wire::u16_at(s, at))
}

// Row n of a schedule, its rates so many times: 0 is c, 7 is z.
fn row_at(s: &[u8], n: usize, times: u64) -> Row
    requires { (n < row_count) × (schedule_size ≤ length s.now) × (times ≤ 10) }
    ensures { result ≡ times_row times (row_at s.now n) }
{
    let at = HEAD_SIZE + ROW_SIZE * n;
    Row {
        rate: rate_at(s, at, times),
        second: rate_at(s, at + 2, times),
        base_rate: rate_at(s, at + 4, times),
        fixed: wire::u64_at(s, at + 6),
    }
}

// The schedule that the bytes hold, with rates in ten-thousandths.
pub fn schedule_at(s: &[u8]) -> Schedule
    requires { schedule_size ≤ length s.now }
    ensures { result ≡ schedule_of s.now }
{
    let n = times(version(s));
    Schedule {
        first: u64::from(wire::u16_at(s, 6)),
        second: u64::from(wire::u16_at(s, 8)),
        c: row_at(s, 0, n),
        d: row_at(s, 1, n),
        e: row_at(s, 2, n),
        f: row_at(s, 3, n),
        g: row_at(s, 4, n),
        h: row_at(s, 5, n),
        i: row_at(s, 6, n),
        z: row_at(s, 7, n),
    }
}

// "ACL", a zero byte.
fn marked(s: &[u8]) -> bool
    requires { schedule_size ≤ length s.now }
    ensures { result ≡ schedule_marked s.now }
{
    (s[0] == b'A') & (s[1] == b'C') & (s[2] == b'L') & (s[3] == 0)
}

// Refusal 4's test of a row, and of a schedule, by what its rates count.
fn row_fits(row: Row) -> bool
    ensures { result ≡ row_fits most_rate row }
{
    (row.rate <= limit::MOST_RATE)
        & (row.second <= limit::MOST_RATE)
        & (row.base_rate <= limit::MOST_RATE)
        & (row.fixed <= wire::M)
}

fn rates_fit(s: Schedule) -> bool
    ensures { result ≡ rates_fit most_rate s }
{
    (s.first <= 100)
        & (s.second <= 100)
        & row_fits(s.c)
        & row_fits(s.d)
        & row_fits(s.e)
        & row_fits(s.f)
        & row_fits(s.g)
        & row_fits(s.h)
        & row_fits(s.i)
        & row_fits(s.z)
}

// Whether a version is one of the two.
fn known(version: u16) -> bool
    ensures { result ≡ known version }
{
    (version == PER_MILLE) | (version == TEN_THOUSANDTHS)
}

// Refusals 2 to 4, of a schedule that has its length.
#[tactic(auto, using(refusal::specs::Laws::then_err, refusal::specs::Laws::then_ok), unfolding(crate::specs::Check::fields_check))]
fn check_fields(s: &[u8]) -> Result<(), Refusal>
    requires { schedule_size ≤ length s.now }
    ensures { result ≡ fields_check s.now }
{
    refusal::unless(Refusal::ScheduleMark, marked(s))?;
    refusal::unless(Refusal::ScheduleVersion, known(version(s)))?;
    refusal::unless(Refusal::ScheduleRates, rates_fit(schedule_at(s)))
}

// Refusals 1 to 4, of any bytes.
pub fn check(s: &[u8]) -> Result<(), Refusal>
    ensures { result ≡ schedule_check s.now }
{
    if s.len() != SIZE {
        return Err(Refusal::ScheduleLength);
    }
    check_fields(s)
}
