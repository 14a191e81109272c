// Numbers in decimal digits, and other text, written into a lent buffer.
#![tactic(auto)]

ghost use Rattle.std.specs.Prelude.{◌∷◌, [], ◌++◌, ◌+◌, ◌≤◌, length};
ghost use Rattle.digits.specs.Decimal.{decimal};
ghost use Rattle.digits.specs.Written.{Written};

// All of s, put at a place. Each function here answers the place behind what it put.
pub fn put(out: &mut [u8], at: usize, s: &[u8]) -> usize
    requires { at + length s.now ≤ length out.old }
    ensures { Written out.old at s.now out.new result }
{
    out[at..at + s.len()].copy_from_slice(s);
    at + s.len()
}

// A number's decimal digits, at most 20.
fn put_decimal(out: &mut [u8], at: usize, n: u64) -> usize
    requires { at + 20 ≤ length out.old }
    ensures written { Written out.old at (decimal n) out.new result }
    ensures upper_bound { result ≤ at + 20 }
{
    let mut digits = [0u8; 20];
    let many = io::decimal(n, &mut digits);
    put(out, at, &digits[..many])
}

// A number and the byte that ends it.
pub fn put_number(out: &mut [u8], at: usize, n: u64, end: u8) -> usize
    requires { at + 21 ≤ length out.old }
    ensures written { Written out.old at (decimal n ++ (end ∷ [])) out.new result }
    ensures upper_bound { result ≤ at + 21 }
{
    let next = put_decimal(out, at, n);
    placing::put_u8(out, next, end);
    next + 1
}
