// A choice as a call: one of two values by a test.
#![tactic(auto)]

ghost use Rattle.std.specs.Prelude.{◌≡◌, if◌then◌else◌};

// The first value where the test holds, else the second.
pub fn pick<T: Drop>(t: bool, a: T, b: T) -> T
    ensures { result ≡ (if t then a else b) }
{
    if t { a } else { b }
}
