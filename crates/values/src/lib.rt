// A fund's VAF and VAF', and refusals 14 and 15, out of the sums over its assets.
#![tactic(auto)]

ghost use Rattle.std.specs.Prelude.{◌≡◌};
ghost use Rattle.book.specs.Book.{book_of};
ghost use Rattle.book.specs.Accepted.{Accepted};
ghost use Rattle.exposure.specs.Values.{reinsurance_values, stressed_less_netted, VAF, before_excluded, VAF', fund_check};
ghost use Rattle.assets.specs.Assets.{FundSums};

use assets::Values;
use refusal::Refusal;

// VAF' before excluded assets are taken off, out of two sums over reinsurance: its values, and what its stressed values have above what is netted.
fn before_excluded(b: &[u8], values: u64, stressed: u64) -> u64
    requires { (Accepted b.now) × (values ≡ reinsurance_values (book_of b.now)) × (stressed ≡ stressed_less_netted (book_of b.now)) }
    ensures { result ≡ before_excluded (book_of b.now) }
{
    let h = header::header_at(b);
    h.total.saturating_sub(values) + stressed
}

pub fn vaf(b: &[u8], v: Values) -> u64
    requires { (Accepted b.now) × (FundSums b.now v) }
    ensures { result ≡ VAF (book_of b.now) }
{
    let h = header::header_at(b);
    h.total.saturating_sub(v.netted)
}

pub fn stressed_vaf(b: &[u8], v: Values) -> u64
    requires { (Accepted b.now) × (FundSums b.now v) }
    ensures { result ≡ VAF' (book_of b.now) }
{
    let h = header::header_at(b);
    before_excluded(b, v.reinsurance, v.stressed).saturating_sub(h.excluded)
}

// Refusals 14 and 15, out of the two sums.
pub fn check_sums(b: &[u8], values: u64, stressed: u64) -> Result<(), Refusal>
    requires { (Accepted b.now) × (values ≡ reinsurance_values (book_of b.now)) × (stressed ≡ stressed_less_netted (book_of b.now)) }
    ensures { result ≡ fund_check (book_of b.now) }
{
    let h = header::header_at(b);
    let before = before_excluded(b, values, stressed);
    let within = (h.excluded <= before) & (before.saturating_sub(h.excluded) <= wire::M);
    refusal::unless(Refusal::ReinsuranceValues, values <= h.total)?;
    refusal::unless(Refusal::StressedAssets, within)
}

// The same where a pass over the assets has taken the sums.
pub fn check(b: &[u8], v: Values) -> Result<(), Refusal>
    requires { (Accepted b.now) × (FundSums b.now v) }
    ensures { result ≡ fund_check (book_of b.now) }
{
    check_sums(b, v.reinsurance, v.stressed)
}
