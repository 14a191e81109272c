// The limits that a schedule gives a fund, tier by tier.
#![tactic(auto)]

ghost use Rattle.std.specs.Prelude.{◌≡◌, map, ◌≤◌};
ghost use Rattle.wire.specs.Bytes.{M};
ghost use Rattle.limit.specs.Limit.{ten_thousandths, counted, cents_of};
ghost use Rattle.limit.specs.Bounds.{most_limit};
ghost use Rattle.schedule.specs.Fits.{RatesFit};
ghost use Rattle.schedule.specs.Tiers.{unrounded_limits, a3_limit_of};

use cascade::TIERS;
use limit::Row;
use schedule::{Schedule, TENFOLD};

// The rows of tiers 13, 14 and 15 (P46), of no schedule: 500, 330 and 170 per mille alone.
const RETROCESSION: [Row; 3] = [
    Row {
        rate: 500 * TENFOLD,
        second: 0,
        base_rate: 0,
        fixed: 0,
    },
    Row {
        rate: 330 * TENFOLD,
        second: 0,
        base_rate: 0,
        fixed: 0,
    },
    Row {
        rate: 170 * TENFOLD,
        second: 0,
        base_rate: 0,
        fixed: 0,
    },
];

// The sixteen limits of a fund before they are rounded, by tier number; `stressed` is VAF'.
pub fn unrounded_limits(s: Schedule, vaf: u64, stressed: u64, base: i64, w: u64) -> [u64; TIERS]
    requires rates_fit { RatesFit s }
    requires vaf_bound { (vaf ≤ M) × (stressed ≤ M) × (counted base ≤ M) }
    ensures { result ≡ unrounded_limits s vaf stressed base w }
{
    [
        limit::unrounded(s.i, 100, vaf, base, 0),
        limit::unrounded(s.i, 100, stressed, base, 0),
        limit::unrounded(s.h, 100, vaf, base, 0),
        limit::unrounded(s.h, 100, stressed, base, 0),
        limit::unrounded(s.g, s.second, stressed, base, 0),
        limit::unrounded(s.g, s.first, stressed, base, 0),
        limit::unrounded(s.g, 100, stressed, base, 0),
        limit::unrounded(s.e, s.second, stressed, base, 0),
        limit::unrounded(s.e, s.first, stressed, base, 0),
        limit::unrounded(s.e, 100, stressed, base, 0),
        limit::unrounded(s.f, 100, vaf, base, 0),
        limit::unrounded(s.c, 100, vaf, base, 0),
        limit::unrounded(s.d, 100, vaf, base, w),
        limit::unrounded(RETROCESSION[0], 100, stressed, base, 0),
        limit::unrounded(RETROCESSION[1], 100, stressed, base, 0),
        limit::unrounded(RETROCESSION[2], 100, stressed, base, 0),
    ]
}

// The same in cents.
pub fn in_cents(unrounded: [u64; TIERS]) -> [u64; TIERS]
    ensures { result ≡ map (cents_of ten_thousandths) unrounded }
{
    unrounded.map(limit::cents)
}

// The A3 limit of a fund; `stressed` is VAF'.
pub fn a3_limit(s: Schedule, stressed: u64, base: i64) -> u64
    requires rates_fit { RatesFit s }
    requires stressed_bound { (stressed ≤ M) × (counted base ≤ M) }
    ensures { (result ≡ a3_limit_of s stressed base) × (result ≤ most_limit) }
{
    limit::limit(s.z, 100, stressed, base, 0)
}
