// What C gets as one number: an answer, and the library's version beside the versions of schedules and books that it takes.
#![tactic(auto)]

ghost use Rattle.std.specs.Prelude.{◌≡◌};
ghost use Rattle.packing.specs.Packed.{packed};
ghost use Rattle.packing.specs.Version.{library_version};

use refusal::Refusal;

// The library's version, MAJOR.MINOR.PATCH.
const MAJOR: u64 = 0;

const MINOR: u64 = 11;

const PATCH: u64 = 0;

// It as one number.
const NUMBER: u64 = MAJOR * 65536 + MINOR * 256 + PATCH;

// The versions of schedules that are taken, 1 and 2: bit v for version v.
const SCHEDULES: u64 = 2 + 4;

// Those of books.
const BOOKS: u64 = 2 + 4;

// An answer as one number: a refusal's number above its place, or the length written.
pub fn pack(answer: Result<usize, Refusal>) -> u64
    ensures { result ≡ packed answer }
{
    match answer {
        Ok(length) => length as u64,
        Err(why) => {
            let number = refusal::number(why);
            let place = refusal::place(why);
            number * 4294967296 + place
        }
    }
}

// The library's version, and the versions of schedules and books that it takes, as one number.
pub fn version() -> u64
    ensures { result ≡ library_version }
{
    NUMBER + SCHEDULES * 4294967296 + BOOKS * 281474976710656
}
