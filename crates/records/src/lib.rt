// The records of a book whose header fits, 10 to 13 and 17: the first bad one of each type, in book order.
#![tactic(auto)]

ghost use Rattle.std.specs.Prelude.{◌≡◌};
ghost use Rattle.book.specs.Records.{C, N, K, specialist, assets_of, mitigants_start};
ghost use Rattle.book.specs.Check.{counts_add, counterparties_check, assets_check, mitigants_check, specialist_check};
ghost use Rattle.book.specs.Accepted.{HeaderFits};

use book::Assets;
use refusal::Refusal;

// Refusal 10.
pub fn counterparties_check(b: &[u8], c: usize) -> Result<(), Refusal>
    requires { HeaderFits b.now × (c ≡ C b.now) }
    ensures { result ≡ counterparties_check b.now }
{
    match (1..c + 1).find(|&place| !fields::good_counterparty(b, place)) {
        Some(place) => Err(Refusal::Counterparty(place as u16)),
        None => Ok(()),
    }
}

// Refusal 11.
pub fn assets_check(b: &[u8], c: u16, n: usize, assets: Assets) -> Result<(), Refusal>
    requires { HeaderFits b.now × (c ≡ C b.now) × (n ≡ N b.now) × (assets ≡ assets_of b.now) }
    ensures { result ≡ assets_check b.now }
{
    match (1..n + 1).find(|&place| !fields::good_asset(c, book::asset_at(b, assets, place))) {
        Some(place) => Err(Refusal::Asset(place as u16)),
        None => Ok(()),
    }
}

// Refusal 12.
pub fn mitigants_check(b: &[u8], c: u16, k: usize, start: usize) -> Result<(), Refusal>
    requires { HeaderFits b.now × (c ≡ C b.now) × (k ≡ K b.now) × (start ≡ mitigants_start b.now) }
    ensures { result ≡ mitigants_check b.now }
{
    match (1..k + 1).find(|&place| !fields::good_mitigant(c, book::mitigant_at(b, start, place))) {
        Some(place) => Err(Refusal::Mitigant(place as u16)),
        None => Ok(()),
    }
}

// The counts of mitigants added up, for 13: 16 bits each, so they fit.
pub fn counts_add(b: &[u8], n: usize, assets: Assets) -> usize
    requires { HeaderFits b.now × (n ≡ N b.now) × (assets ≡ assets_of b.now) }
    ensures { result ≡ counts_add b.now }
{
    let mut sum = 0;
    for place in 1..n + 1 {
        sum += usize::from(book::asset_at(b, assets, place).count);
    }
    sum
}

// Refusal 17: the first asset with an entry that a specialist fund alone may have.
pub fn specialist_check(b: &[u8], marked: bool, n: usize, assets: Assets) -> Result<(), Refusal>
    requires { HeaderFits b.now × (marked ≡ specialist b.now) × (n ≡ N b.now) × (assets ≡ assets_of b.now) }
    ensures { result ≡ specialist_check b.now }
{
    match (1..n + 1).find(|&place| !fields::entry_allowed(
        marked,
        book::asset_at(b, assets, place),
    )) {
        Some(place) => Err(Refusal::SpecialistEntry(place as u16)),
        None => Ok(()),
    }
}
