// A counterparty's class, and what is read off the two numbers that `classes` looks up by it: the column of an exposure, whether half of reinsurance may be covered, how far
// promises count; and the tier of each column.
#![tactic(auto)]

ghost use Rattle.std.specs.Prelude.{◌≡◌, ◌-◌, ◌/◌, ◌%◌, ◌^◌, ◌≤◌, ◌<◌};
ghost use Rattle.columns.specs.Column.{class_of, digit, digit_of, age_of, Tiered};

use book::Counterparty;
use rows::COLUMNS;

// The last six bits of byte n are five times the digit of form n (`digit_of`).
const FORMS: u64 = 0x0A28_1E00_0F00;

// The four bits from 4 n on are the digit of entry n / 4 at stage n % 4 of its months (`age_of`).
const AGES: u64 = 0xA987_0654_0321_0000;

// All of a counterparty that its columns and terms depend on: its kind, whether it is graded, and its flags, each by its bit.
pub fn class_of(who: Counterparty) -> u64
    requires { who.flags < 8 }
    ensures { (result ≡ class_of who) × (result < 80) }
{
    let kind = u64::from(u8::from(who.kind));
    let graded = u64::from(book::is_graded(who));
    let approved = u64::from(book::is_approved(who));
    let affiliate = u64::from(book::is_affiliate(who));
    let related = u64::from(book::is_related(who));
    16 * kind + 8 * graded + 4 * approved + 2 * affiliate + related
}

// The tier that each column is part of.
pub fn tiers() -> [u16; COLUMNS]
    ensures { Tiered result }
{
    [
        0, 1, 2, 3, 4, 5, 6, 7, 8, 9, 10, 11, 12, 13, 14, 15, 16, 11, 1, 3, 4, 5, 6,
    ]
}

// The column of a kind of exposure but 9.
pub fn of_kind(word: u64, kind: u64) -> u64
    requires { (0 < kind) × (kind < 12) }
    ensures { (result ≡ digit (kind - 1) word) × (result < 32) }
{
    word >> (5 * (kind - 1)) & 31
}

// The column of what a form of mitigant covers.
pub fn of_form(word: u64, form: u64) -> u64
    requires { (0 < form) × (form < 6) }
    ensures { (result ≡ digit (digit_of form) word) × (result < 32) }
{
    let from = FORMS >> (8 * form) & 63;
    word >> from & 31
}

// The digit of reinsurance in its counterparty's terms.
fn age_of(entry: u64, months: u64) -> u64
    requires { entry ≤ 3 }
    ensures { (result ≡ age_of entry months) × (result < 11) }
{
    let third = u64::from(2 < months);
    let twelfth = u64::from(11 < months);
    let last = u64::from(23 < months);
    AGES >> (4 * (4 * entry + third + twelfth + last)) & 15
}

// The column of reinsurance.
pub fn of_age(terms: u64, entry: u64, months: u64) -> u64
    requires { entry ≤ 3 }
    ensures { (result ≡ digit (age_of entry months) terms) × (result < 32) }
{
    terms >> (5 * age_of(entry, months)) & 31
}

// Whether half of reinsurance may be covered: 1, or 0.
pub fn half_of(terms: u64) -> u64
    ensures { (result ≡ terms / 2 ^ 60 % 2) × (result ≤ 1) }
{
    terms >> 60 & 1
}

// How far promises count.
pub fn trust_in(terms: u64) -> u64
    ensures { result ≡ terms / 2 ^ 61 }
{
    terms >> 61
}
