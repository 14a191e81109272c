// A refusal, by name, its number and place; and one check. What a check or an entry answers is a `Result` with it.
#![tactic(auto)]

ghost use Rattle.std.specs.Prelude.{◌≡◌, ◌<◌, ◌≤◌};
ghost use Rattle.refusal.specs.Refusals.{number_of, place_of};
ghost use Rattle.refusal.specs.Chain.{refuse◌unless◌};

// The refusals in the order of their numbers, 1 to 22. Those of a record carry its place, from 1.
#[derive(Clone, Copy)]
pub enum Refusal {
    ScheduleLength,
    ScheduleMark,
    ScheduleVersion,
    ScheduleRates,
    BookLength,
    BookMark,
    BookVersion,
    BookCounts,
    BookAmounts,
    Counterparty(u16),
    Asset(u16),
    Mitigant(u16),
    MitigantCounts,
    ReinsuranceValues,
    StressedAssets,
    BufferShort,
    SpecialistEntry(u16),
    ManyMitigants(u16),
    CostRate,
    Questions,
    AnswersShort,
    Movement,
}

// The refusal's number.
pub fn number(why: Refusal) -> u64
    ensures { (result ≡ number_of why) × (result ≤ 22) }
{
    match why {
        Refusal::ScheduleLength => 1,
        Refusal::ScheduleMark => 2,
        Refusal::ScheduleVersion => 3,
        Refusal::ScheduleRates => 4,
        Refusal::BookLength => 5,
        Refusal::BookMark => 6,
        Refusal::BookVersion => 7,
        Refusal::BookCounts => 8,
        Refusal::BookAmounts => 9,
        Refusal::Counterparty(_) => 10,
        Refusal::Asset(_) => 11,
        Refusal::Mitigant(_) => 12,
        Refusal::MitigantCounts => 13,
        Refusal::ReinsuranceValues => 14,
        Refusal::StressedAssets => 15,
        Refusal::BufferShort => 16,
        Refusal::SpecialistEntry(_) => 17,
        Refusal::ManyMitigants(_) => 18,
        Refusal::CostRate => 19,
        Refusal::Questions => 20,
        Refusal::AnswersShort => 21,
        Refusal::Movement => 22,
    }
}

// The place of the record that is refused, 0 for a refusal of none.
pub fn place(why: Refusal) -> u64
    ensures { (result ≡ place_of why) × (result < 65536) }
{
    match why {
        Refusal::Counterparty(p) => p as u64,
        Refusal::Asset(p) => p as u64,
        Refusal::Mitigant(p) => p as u64,
        Refusal::SpecialistEntry(p) => p as u64,
        Refusal::ManyMitigants(p) => p as u64,
        _ => 0,
    }
}

// One check: a refusal where the test fails.
pub fn unless(why: Refusal, ok: bool) -> Result<(), Refusal>
    ensures { result ≡ (refuse why unless ok) }
{
    if ok { Ok(()) } else { Err(why) }
}
