// A book of version 1 as one of version 2: the converter's own checks, and the bytes.
#![tactic(auto)]

ghost use Rattle.std.specs.Prelude.{◌≡◌, ◌++◌, ◌≤◌, length, drop};
ghost use Rattle.words.specs.Words.{◌≤?◌};
ghost use Rattle.book.specs.Accepted.{Accepted};
ghost use Rattle.conversion.specs.Conversion.{converted, first_check, narrow_check, Narrow};

use book::Asset;
use refusal::Refusal;

// The version of a converted book; its high byte is 0, as that of the first version is.
const VERSION: u8 = header::WITH_DESKS as u8;

// The most that a count of one byte can be.
const MOST_COUNT: u16 = 255;

// Refusals 5 to 7 of a converter, which takes version 1 alone.
#[tactic(auto, using(refusal::specs::Laws::then_err, refusal::specs::Laws::then_ok))]
pub fn first_check(b: &[u8]) -> Result<(), Refusal>
    ensures { result ≡ first_check b.now }
{
    if b.len() < book::HEADER_SIZE {
        return Err(Refusal::BookLength);
    }
    refusal::unless(Refusal::BookMark, header::marked(b))?;
    refusal::unless(Refusal::BookVersion, header::is_first(b))
}

// Whether one byte holds an asset's count of mitigants.
fn is_narrow(a: Asset) -> bool
    ensures { result ≡ (a.count ≤? 255) }
{
    a.count <= MOST_COUNT
}

// Refusal 18: the first asset, in book order, whose count of mitigants one byte cannot hold.
pub fn narrow_check(b: &[u8]) -> Result<(), Refusal>
    requires { Accepted b.now }
    ensures { result ≡ narrow_check b.now }
{
    let h = header::header_at(b);
    let n = h.assets as usize;
    let assets = header::assets_of(b);
    match (1..n + 1).find(|&place| !is_narrow(book::asset_at(b, assets, place))) {
        Some(place) => Err(Refusal::ManyMitigants(place as u16)),
        None => Ok(()),
    }
}

// The converted book, into the lent bytes: every count's low byte stands in byte 6 already and 0 in byte 7, so that only the version is another.
pub fn put(d: &mut [u8], b: &[u8])
    requires { Narrow b.now × (length b.now ≤ length d.old) }
    ensures { d.new ≡ converted b.now ++ drop (length b.now) d.old }
{
    placing::put_all(d, b);
    d[4] = VERSION;
}
