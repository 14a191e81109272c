// A book's records: their types, the records out of the bytes, and the questions that document 01 has words for. The header's bytes are `header`'s.
#![tactic(auto)]

ghost use Rattle.std.specs.Prelude.{◌≡◌, ◌+◌, ◌*◌, ◌/◌, ◌%◌, ◌<◌, ◌≤◌, length};
ghost use Rattle.wire.specs.Bytes.{bit};
ghost use Rattle.book.specs.Records.{header_size, counterparty_size, asset_size, mitigant_size, assets_start, mitigants_start, counterparty_start, kind_of, count_mask, assets_of, counterparty_at, asset_from, asset_at, mitigant_at};
ghost use Rattle.book.specs.Fields.{kind_number, graded, related, affiliate, second_limb, linked, rises, reinsurance};

// What of an asset's bytes 6 and 7 is its count of mitigants in the first version, and in the second.
pub const BOTH_BYTES: u16 = 65535;

pub const ONE_BYTE: u16 = 255;

// How many bytes the header and a record of each type have.
pub const HEADER_SIZE: usize = 40;

pub const COUNTERPARTY_SIZE: usize = 4;

pub const ASSET_SIZE: usize = 48;

pub const MITIGANT_SIZE: usize = 12;

// The most records of each type.
pub const MOST_COUNTERPARTIES: usize = 500;

pub const MOST_ASSETS: usize = 900;

pub const MOST_MITIGANTS: usize = 1500;

// The kind of a counterparty.
#[derive(Clone, Copy, Debug, PartialEq, Eq)]
pub enum Kind {
    Other,
    Bank,
    HomeGovernment,
    ProvincialGovernment,
    LifeCompany,
}

// The kind of a number; of one that no kind has, other.
impl From<u8> for Kind {
    ghost from_gives = { λ n kind. kind ≡ kind_of n };

    fn from(n: u8) -> Kind {
        match n {
            1 => Kind::Bank,
            2 => Kind::HomeGovernment,
            3 => Kind::ProvincialGovernment,
            4 => Kind::LifeCompany,
            _ => Kind::Other,
        }
    }
}

// The number of a kind.
impl From<Kind> for u8 {
    ghost from_gives = { λ kind n. n ≡ kind_number kind };

    fn from(kind: Kind) -> u8 {
        match kind {
            Kind::Other => 0,
            Kind::Bank => 1,
            Kind::HomeGovernment => 2,
            Kind::ProvincialGovernment => 3,
            Kind::LifeCompany => 4,
        }
    }
}

// What a header says after its mark and version.
#[derive(Clone, Copy)]
pub struct Header {
    pub counterparties: u16,
    pub assets: u16,
    pub mitigants: u16,
    pub total: u64,
    pub base: i64,
    pub excluded: u64,
    pub specialist: bool,
}

#[derive(Clone, Copy)]
pub struct Counterparty {
    pub parent: u16,
    pub kind: Kind,
    pub grade: u8,
    pub flags: u8,
}

#[derive(Clone, Copy)]
pub struct Asset {
    pub kind: u8,
    pub flags: u8,
    pub entry: u8,
    pub months: u8,
    pub counterparty: u16,
    pub count: u16,
    pub desk: u8,
    pub value: u64,
    pub offsets: u64,
    pub deductions: u64,
    pub insurance: u64,
    pub combination: u64,
}

// Where the assets stand: the first one's start, and the mask of an asset's bytes 6 and 7 that leaves its count of mitigants.
#[derive(Clone, Copy)]
pub struct Assets {
    pub start: usize,
    pub counts: u16,
}

#[derive(Clone, Copy)]
pub struct Mitigant {
    pub form: u8,
    pub flags: u8,
    pub counterparty: u16,
    pub value: u64,
}

// The high four bits of a byte.
pub fn high_four(b: u8) -> u8
    ensures { result ≡ b / 16 }
{
    b >> 4
}

// The low four bits of a byte.
pub fn low_four(b: u8) -> u8
    ensures { result ≡ b % 16 }
{
    b & 15
}

// Where the counterparty of a place starts.
pub fn counterparty_start(place: usize) -> usize
    requires { (0 < place) × (place < 65536) }
    ensures { result ≡ counterparty_start place }
{
    HEADER_SIZE + COUNTERPARTY_SIZE * (place - 1)
}

// The counterparty of a place.
#[tactic(auto, unfolding(crate::specs::Records::counterparty_at))]
pub fn counterparty_at(b: &[u8], place: usize) -> Counterparty
    requires { (0 < place) × (place < 65536) × (header_size + counterparty_size * place ≤ length b.now) }
    ensures { result ≡ counterparty_at b.now place }
{
    let at = counterparty_start(place);
    Counterparty {
        parent: wire::u16_at(b, at),
        kind: Kind::from(high_four(b[at + 2])),
        grade: low_four(b[at + 2]),
        flags: b[at + 3],
    }
}

// The asset whose record starts at a byte.
fn asset_from(b: &[u8], at: usize, counts: u16) -> Asset
    requires { (at + asset_size ≤ length b.now) × (counts ≡ count_mask b.now) }
    ensures { result ≡ asset_from b.now at }
{
    Asset {
        kind: b[at],
        flags: b[at + 1],
        entry: b[at + 2],
        months: b[at + 3],
        counterparty: wire::u16_at(b, at + 4),
        count: wire::masked_at(b, at + 6, counts),
        desk: choice::pick(counts == ONE_BYTE, b[at + 7], 0),
        value: wire::u64_at(b, at + 8),
        offsets: wire::u64_at(b, at + 16),
        deductions: wire::u64_at(b, at + 24),
        insurance: wire::u64_at(b, at + 32),
        combination: wire::u64_at(b, at + 40),
    }
}

// The asset of a place.
pub fn asset_at(b: &[u8], assets: Assets, place: usize) -> Asset
    requires { (assets ≡ assets_of b.now) × (0 < place) × (place < 65536) × (assets_start b.now + asset_size * place ≤ length b.now) }
    ensures { result ≡ asset_at b.now place }
{
    asset_from(b, assets.start + ASSET_SIZE * (place - 1), assets.counts)
}

// The mitigant of a place, where the mitigants start at `start`.
#[tactic(auto, unfolding(crate::specs::Records::mitigant_at))]
pub fn mitigant_at(b: &[u8], start: usize, place: usize) -> Mitigant
    requires { (start ≡ mitigants_start b.now) × (0 < place) × (place < 65536) × (start + mitigant_size * place ≤ length b.now) }
    ensures { result ≡ mitigant_at b.now place }
{
    let at = start + MITIGANT_SIZE * (place - 1);
    Mitigant {
        form: b[at],
        flags: b[at + 1],
        counterparty: wire::u16_at(b, at + 2),
        value: wire::u64_at(b, at + 4),
    }
}

// Bit n of a byte.
pub fn has_bit(b: u8, n: u8) -> bool
    requires { n < 8 }
    ensures { result ≡ bit n b }
{
    (b >> n) & 1 == 1
}

pub fn is_graded(who: Counterparty) -> bool
    ensures { result ≡ graded who }
{
    (1..=3).contains(&who.grade)
}

pub fn is_related(who: Counterparty) -> bool
    ensures { result ≡ related who }
{
    has_bit(who.flags, 0)
}

pub fn is_affiliate(who: Counterparty) -> bool
    ensures { result ≡ affiliate who }
{
    has_bit(who.flags, 1)
}

// Approved under A1(e) second limb.
pub fn is_approved(who: Counterparty) -> bool
    ensures { result ≡ second_limb who }
{
    has_bit(who.flags, 2)
}

pub fn is_linked(a: Asset) -> bool
    ensures { result ≡ linked a }
{
    has_bit(a.flags, 0)
}

pub fn does_rise(a: Asset) -> bool
    ensures { result ≡ rises a }
{
    has_bit(a.flags, 1)
}

pub fn is_reinsurance(a: Asset) -> bool
    ensures { result ≡ reinsurance a }
{
    a.kind == 9
}
