// The fund of a schedule and an accepted book, for every entry: limits, ranking and figures, out of the sums of the passes.
#![tactic(auto)]

ghost use Rattle.std.specs.Prelude.{◌≡◌};
ghost use Rattle.book.specs.Book.{book_of};
ghost use Rattle.exposure.specs.Values.{fund_check};
ghost use Rattle.exposure.specs.Sums.{W};
ghost use Rattle.assets.specs.Assets.{FundSums};
ghost use Rattle.fund.specs.Fund.{Passed, Summed, Rateable, LimitsOf, RatedAs};

use assets::Values;
use cascade::TIERS;
use cells::Sums;
use figures::Figures;

// What the schedule gives for the fund's values.
#[derive(Clone, Copy)]
struct Limited {
    vaf: u64,
    stressed_vaf: u64,
    unrounded: [u64; TIERS],
    limits: [u64; TIERS],
    a3_limit: u64,
}

// The limits of a fund that refusals 14 and 15 let pass, its tiers by rank and the header's figures that the groups have no part in.
#[derive(Clone, Copy)]
pub struct Fund {
    pub limits: [u64; TIERS],
    pub ranking: [usize; TIERS],
    pub figures: Figures,
}

// The tables of a fund that 14 and 15 let pass: by counterparty, by group, by asset and by mitigant.
#[derive(Drop)]
pub struct Opened<'a> {
    pub groups: usize,
    pub words: &'a [u64],
    pub rows: &'a [u16],
    pub heads: &'a [u16],
    pub rests: &'a [u64],
    pub places: &'a [u16],
    pub covered: &'a [u64],
    pub cells: &'a mut [u64],
    pub sets: &'a mut [u16],
    pub list: &'a mut [u16],
}

// VAF, VAF' and the limits.
fn limits_of(schedule: &[u8], book: &[u8], values: Values, w: u64) -> Limited
    requires { (Passed schedule.now book.now) × (fund_check (book_of book.now) ≡ Ok tt) × (FundSums book.now values) × (w ≡ W (book_of book.now)) }
    ensures { LimitsOf schedule.now book.now result }
{
    let s = schedule::schedule_at(schedule);
    let vaf = values::vaf(book, values);
    let stressed_vaf = values::stressed_vaf(book, values);
    let h = header::header_at(book);
    let base = h.base;
    let unrounded = tiers::unrounded_limits(s, vaf, stressed_vaf, base, w);
    Limited {
        vaf,
        stressed_vaf,
        unrounded,
        limits: tiers::in_cents(unrounded),
        a3_limit: tiers::a3_limit(s, stressed_vaf, base),
    }
}

// A fund that every check of its schedule and book let pass.
pub fn rate(
    schedule: &[u8],
    book: &[u8],
    groups: usize,
    values: Values,
    sums: Sums,
    cells: &[u64],
) -> Fund
    requires { (Rateable schedule.now book.now groups cells.now) × (Summed book.now values sums) }
    ensures { RatedAs schedule.now book.now result }
{
    let l = limits_of(schedule, book, values, sums.w);
    let limits = l.limits;
    let unrounded = l.unrounded;
    let figures = Figures {
        vaf: l.vaf,
        stressed_vaf: l.stressed_vaf,
        all_net: values.all,
        unlimited: values.linked + sums.free,
        a3_sum: a3::sum(cells, limits, groups),
        a3_limit: l.a3_limit,
    };
    Fund {
        limits,
        ranking: cascade::rank(unrounded),
        figures,
    }
}
