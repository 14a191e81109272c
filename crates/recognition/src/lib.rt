// Whether a mitigant counts: its flags give a number, and form, asset and counterparty a bit of that.
#![tactic(auto)]

ghost use Rattle.std.specs.Prelude.{◌≡◌, ◌+◌, ◌*◌, ◌≤◌, ◌<◌};
ghost use Rattle.wire.specs.Bytes.{bit};
ghost use Rattle.recognition.specs.Needs.{needs_at};

// The key of the numbers, flag by flag: secured and held, P35 or P36 terms, P40 terms, P42b to m terms, same currency.
fn key_of(flags: u8) -> u8
    requires { flags < 32 }
    ensures { result ≡ flags }
{
    choice::pick(book::has_bit(flags, 0), 1, 0)
        + choice::pick(book::has_bit(flags, 1), 2, 0)
        + choice::pick(book::has_bit(flags, 2), 4, 0)
        + choice::pick(book::has_bit(flags, 3), 8, 0)
        + choice::pick(book::has_bit(flags, 4), 16, 0)
}

// The number of some flags.
#[tactic(auto, unfolding(crate::specs::Needs::needs_at))]
fn needs_at(flags: u8) -> u64
    requires { flags < 32 }
    ensures { result ≡ needs_at flags }
{
    match flags {
        // No collateral counts; of promises none.
        0 => 0,
        1 => 0,
        2 => 0,
        3 => 0,
        // No collateral; promises with P40 terms.
        4 => 51539607552,
        5 => 51539607552,
        6 => 51539607552,
        7 => 51539607552,
        // No collateral; promises with P42 terms.
        8 => 141287244169216,
        9 => 141287244169216,
        10 => 141287244169216,
        11 => 141287244169216,
        // No collateral; promises with either.
        12 => 141338783776768,
        13 => 141338783776768,
        14 => 141338783776768,
        15 => 141338783776768,
        // In the same currency: not held; secured and held; P35 or P36 terms; both. No promises.
        16 => 0,
        17 => 4009754368,
        18 => 3773886464,
        19 => 4009754368,
        // The same with P40 terms.
        20 => 51539607552,
        21 => 55549361920,
        22 => 55313494016,
        23 => 55549361920,
        // With P42 terms.
        24 => 141287244169216,
        25 => 141291253923584,
        26 => 141291018055680,
        27 => 141291253923584,
        // With either.
        28 => 141338783776768,
        29 => 141342793531136,
        30 => 141342557663232,
        31 => 141342793531136,
        _ => 0,
    }
}

// Whether a mitigant of a form counts (`recognised-is`): `reinsured` is 1 for reinsurance and 0 for any other asset, `trust` its counterparty's.
pub fn counts(form: u64, flags: u8, reinsured: u64, trust: u64) -> bool
    requires { (form < 6) × (flags < 32) × (reinsured ≤ 1) × (trust ≤ 3) }
    ensures { result ≡ bit (8 * form + 4 * reinsured + trust) (needs_at flags) }
{
    needs_at(key_of(flags)) >> (8 * form + 4 * reinsured + trust) & 1 == 1
}
