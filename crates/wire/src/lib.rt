// Little-endian numbers read from byte slices, each at its place; and the most that an amount may be. `placing` writes them.
#![tactic(auto)]

ghost use Rattle.std.specs.Prelude.{◌≡◌, ◌+◌, ◌≤◌, length, if◌then◌else◌};
ghost use Rattle.words.specs.Words.{◌=?◌};
ghost use Rattle.wire.specs.Bytes.{byte_at, u16_at, u64_at, i64_at};

// "Amounts are whole cents, each one read at most M".
pub const M: u64 = 10_000_000_000_000;

// The u16 at a place.
#[tactic(auto, unfolding(crate::specs::Bytes::u16_at))]
pub fn u16_at(s: &[u8], at: usize) -> u16
    requires { at + 2 ≤ length s.now }
    ensures { result ≡ u16_at s.now at }
{
    u16::from_le_bytes([s[at], s[at + 1]])
}

// What a mask leaves of the u16 at a place: its first byte alone, or all of it.
pub fn masked_at(s: &[u8], at: usize, mask: u16) -> u16
    requires { (at + 2 ≤ length s.now) × (mask ≡ (if mask =? 255 then 255 else 65535)) }
    ensures { result ≡ (if mask =? 255 then byte_at s.now at else u16_at s.now at) }
{
    u16_at(s, at) & mask
}

// The u64 at a place. The compiler makes one 8-byte load of these.
#[tactic(auto, unfolding(crate::specs::Bytes::u64_at))]
pub fn u64_at(s: &[u8], at: usize) -> u64
    requires { at + 8 ≤ length s.now }
    ensures { result ≡ u64_at s.now at }
{
    u64::from_le_bytes([
        s[at],
        s[at + 1],
        s[at + 2],
        s[at + 3],
        s[at + 4],
        s[at + 5],
        s[at + 6],
        s[at + 7],
    ])
}

// The i64 at a place.
#[tactic(auto, unfolding(crate::specs::Bytes::i64_at))]
pub fn i64_at(s: &[u8], at: usize) -> i64
    requires { at + 8 ≤ length s.now }
    ensures { result ≡ i64_at s.now at }
{
    u64_at(s, at).cast_signed()
}
