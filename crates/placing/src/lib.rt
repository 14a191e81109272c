// Little-endian numbers put into byte slices, each at its place; what `wire` reads.
#![tactic(auto)]

ghost use Rattle.std.specs.Prelude.{◌≡◌, ◌∷◌, [], ◌++◌, ◌+◌, ◌≤◌, length, drop};
ghost use Rattle.wire.specs.Bytes.{bytes16, bytes64, placed};

// All bytes of s, put from the start on; every byte behind them stays. A loop, since the library's copy of so many bytes is a call of C's memmove, which
// the archive for C would need from outside.
pub fn put_all(d: &mut [u8], s: &[u8])
    requires { length s.now ≤ length d.old }
    ensures { d.new ≡ s.now ++ drop (length s.now) d.old }
{
    for i in 0..s.len() {
        d[i] = s[i];
    }
}

// A byte put at a place; every other byte stays.
pub fn put_u8(d: &mut [u8], at: usize, v: u8)
    requires { at + 1 ≤ length d.old }
    ensures { d.new ≡ placed d.old at (v ∷ []) }
{
    d[at] = v;
}

// A u16 put at a place; every other byte stays.
pub fn put_u16(d: &mut [u8], at: usize, v: u16)
    requires { at + 2 ≤ length d.old }
    ensures { d.new ≡ placed d.old at (bytes16 v) }
{
    d[at..at + 2].copy_from_slice(&v.to_le_bytes());
}

// A u64 put at a place; every other byte stays. The compiler makes one 8-byte store of this.
pub fn put_u64(d: &mut [u8], at: usize, v: u64)
    requires { at + 8 ≤ length d.old }
    ensures { d.new ≡ placed d.old at (bytes64 v) }
{
    d[at..at + 8].copy_from_slice(&v.to_le_bytes());
}
