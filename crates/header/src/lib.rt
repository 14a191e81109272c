// A book's header out of its bytes: its mark, its version, its fields, and where the records stand.
#![tactic(auto)]

ghost use Rattle.std.specs.Prelude.{◌≡◌, ◌+◌, ◌*◌, ◌≤◌, length};
ghost use Rattle.words.specs.Words.{◌=?◌};
ghost use Rattle.book.specs.Records.{header_size, version, counterparty_size, asset_size, mitigant_size, header_at, assets_of};
ghost use Rattle.book.specs.Check.{book_marked, version_known};
ghost use Rattle.header.specs.Sections.{sections_of};

use book::{Assets, Header};

// The versions: in the second a count of mitigants has one byte, and the byte behind it is the desk.
const FIRST: u16 = 1;

pub const WITH_DESKS: u16 = 2;

// What the passes go by: how many records of each type there are, where the assets stand and where the mitigants start.
#[derive(Clone, Copy)]
pub struct Sections {
    pub counterparties: usize,
    pub assets: Assets,
    pub asset_count: usize,
    pub mitigants: usize,
    pub mitigant_count: usize,
}

// "ACB" and a zero, 0 or 1, and the three zeros.
pub fn marked(b: &[u8]) -> bool
    requires { header_size ≤ length b.now }
    ensures { result ≡ book_marked b.now }
{
    b.starts_with(b"ACB\0") & (b[12] <= 1) & (b[13..16] == [0; 3])
}

// Whether a book is of the first version.
pub fn is_first(b: &[u8]) -> bool
    requires { header_size ≤ length b.now }
    ensures { result ≡ (version b.now =? 1) }
{
    wire::u16_at(b, 4) == FIRST
}

// Whether a book is of the second version.
fn has_desks(b: &[u8]) -> bool
    requires { header_size ≤ length b.now }
    ensures { result ≡ (version b.now =? 2) }
{
    wire::u16_at(b, 4) == WITH_DESKS
}

// Whether a book is of either version.
pub fn version_known(b: &[u8]) -> bool
    requires { header_size ≤ length b.now }
    ensures { result ≡ version_known b.now }
{
    is_first(b) | has_desks(b)
}

// What the header says.
#[tactic(auto, unfolding(book::specs::Records::header_at))]
pub fn header_at(b: &[u8]) -> Header
    requires { header_size ≤ length b.now }
    ensures { result ≡ header_at b.now }
{
    Header {
        counterparties: wire::u16_at(b, 6),
        assets: wire::u16_at(b, 8),
        mitigants: wire::u16_at(b, 10),
        total: wire::u64_at(b, 16),
        base: wire::i64_at(b, 24),
        excluded: wire::u64_at(b, 32),
        specialist: b[12] == 1,
    }
}

// Where the assets start.
fn assets_start(h: Header) -> usize
    ensures { result ≡ header_size + counterparty_size * h.counterparties }
{
    book::HEADER_SIZE + book::COUNTERPARTY_SIZE * usize::from(h.counterparties)
}

// Where the mitigants start.
pub fn mitigants_start(h: Header) -> usize
    ensures { result ≡ header_size + counterparty_size * h.counterparties + asset_size * h.assets }
{
    assets_start(h) + book::ASSET_SIZE * usize::from(h.assets)
}

// How many bytes there are to the last mitigant.
pub fn size(h: Header) -> usize
    ensures { result ≡ header_size + counterparty_size * h.counterparties + asset_size * h.assets + mitigant_size * h.mitigants }
{
    mitigants_start(h) + book::MITIGANT_SIZE * usize::from(h.mitigants)
}

// Where the assets stand, from which alone `asset_at` knows of versions. The caller keeps it: a loop then reads it once.
pub fn assets_of(b: &[u8]) -> Assets
    requires { header_size ≤ length b.now }
    ensures { result ≡ assets_of b.now }
{
    let h = header_at(b);
    Assets {
        start: assets_start(h),
        counts: choice::pick(has_desks(b), book::ONE_BYTE, book::BOTH_BYTES),
    }
}

// The sections of a book. The caller keeps them, and the passes read no header.
pub fn sections_of(b: &[u8]) -> Sections
    requires { header_size ≤ length b.now }
    ensures { result ≡ sections_of b.now }
{
    let h = header_at(b);
    Sections {
        counterparties: usize::from(h.counterparties),
        assets: assets_of(b),
        asset_count: usize::from(h.assets),
        mitigants: mitigants_start(h),
        mitigant_count: usize::from(h.mitigants),
    }
}
