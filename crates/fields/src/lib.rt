// Refusals 10 to 12 and 17: the tests of one record's fields.
#![tactic(auto)]

ghost use Rattle.std.specs.Prelude.{◌≡◌, ◌+◌, ◌*◌, ◌<◌, ◌≤◌, length};
ghost use Rattle.book.specs.Records.{header_size, counterparty_size};
ghost use Rattle.book.specs.Check.{good_counterparty, in_book, no_reinsurance_fields, reinsurance_fields_fit, amounts_within, codes_fit, good_asset, good_mitigant, entry_allowed};

use book::{Asset, Mitigant};

// The counterparty of a place: parent, grade, kind and flags. From the bytes, since a kind over 4 has no name in `Kind`.
#[tactic(auto, unfolding(book::specs::Check::good_counterparty))]
pub fn good_counterparty(b: &[u8], place: usize) -> bool
    requires { (0 < place) × (place < 65536) × (header_size + counterparty_size * place ≤ length b.now) }
    ensures { result ≡ good_counterparty b.now place }
{
    let at = book::counterparty_start(place);
    let packed = b[at + 2];
    (usize::from(wire::u16_at(b, at)) < place)
        & (book::low_four(packed) <= 7)
        & (book::high_four(packed) <= 4)
        & (b[at + 3] < 8)
}

// A counterparty of the book, which has c.
fn in_book(c: u16, place: u16) -> bool
    ensures { result ≡ in_book c place }
{
    (1..=c).contains(&place)
}

// No amount is above the bits of all together, so that one test is enough where those are within M.
fn amounts_within(a: Asset) -> bool
    ensures { result ≡ amounts_within a }
{
    let all = a.value | a.offsets | a.deductions | a.insurance | a.combination;
    if all <= wire::M {
        return true;
    }
    (a.value <= wire::M)
        & (a.offsets <= wire::M)
        & (a.deductions <= wire::M)
        & (a.insurance <= wire::M)
        & (a.combination <= wire::M)
}

// What reinsurance alone is held to.
fn reinsurance_fields_fit(a: Asset) -> bool
    ensures { result ≡ reinsurance_fields_fit a }
{
    ((a.months == 0) | (0 < a.entry)) & (a.offsets <= a.value)
}

// What only reinsurance may have is absent.
fn no_reinsurance_fields(a: Asset) -> bool
    ensures { result ≡ no_reinsurance_fields a }
{
    !book::does_rise(a)
        & (a.entry == 0)
        & (a.months == 0)
        & (a.insurance == 0)
        & (a.combination == 0)
}

// Kind, flags and entry.
fn codes_fit(a: Asset) -> bool
    ensures { result ≡ codes_fit a }
{
    (1..=11).contains(&a.kind) & (a.flags < 4) & (a.entry <= 3)
}

// An asset of a book with c counterparties. What only reinsurance is held to is not tested of any other asset, nor the other way round.
#[tactic(auto, unfolding(book::specs::Check::good_asset))]
pub fn good_asset(c: u16, a: Asset) -> bool
    ensures { result ≡ good_asset c a }
{
    codes_fit(a)
        && in_book(c, a.counterparty)
        && amounts_within(a)
        && if book::is_reinsurance(a) {
            reinsurance_fields_fit(a)
        } else {
            no_reinsurance_fields(a)
        }
}

// A mitigant of a book with c counterparties.
#[tactic(auto, unfolding(book::specs::Check::good_mitigant))]
pub fn good_mitigant(c: u16, m: Mitigant) -> bool
    ensures { result ≡ good_mitigant c m }
{
    (1..=5).contains(&m.form) & (m.flags < 32) & in_book(c, m.counterparty) & (m.value <= wire::M)
}

// Whether an asset's entry may stand in a specialist fund's book, or in another.
pub fn entry_allowed(specialist: bool, a: Asset) -> bool
    ensures { result ≡ entry_allowed specialist a }
{
    specialist | (a.entry != 3)
}
