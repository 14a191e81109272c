// A movement of the book in a lent buffer: how many bytes are the book's, whether the movement can be made, and where the asset that goes stands.
#![tactic(auto)]

ghost use Rattle.std.specs.Prelude.{◌&&◌, ◌≡◌, ◌<◌, ◌≤◌};
ghost use Rattle.words.specs.Words.{◌≤?◌};
ghost use Rattle.book.specs.Records.{N};
ghost use Rattle.book.specs.Accepted.{Accepted};
ghost use Rattle.movement.specs.Movement.{counts_before, movement_of, possible};
ghost use Rattle.movement.specs.Promise.{SizeIn, Found};

// What an entry was asked: an asset more, by its record, or the asset at a place less.
#[derive(Clone, Copy)]
pub enum Change<'a> {
    Add(&'a [u8]),
    Remove(u64),
}

// Where an asset starts, where its mitigants start and what is behind these, and how many they are.
#[derive(Clone, Copy)]
pub struct Spot {
    pub asset: usize,
    pub first: usize,
    pub behind: usize,
    pub count: u16,
}

// How many bytes of a buffer are its book's: as many as its counts give, or all of a shorter one.
pub fn size_in(buffer: &[u8]) -> usize
    ensures { SizeIn buffer.now result }
{
    if buffer.len() < book::HEADER_SIZE {
        return buffer.len();
    }
    let size = header::size(header::header_at(buffer));
    size.min(buffer.len())
}

// Whether a place is one of so many assets'.
fn is_there(place: u64, assets: u16) -> bool
    ensures { result ≡ (1 ≤? place && place ≤? assets) }
{
    (1..=u64::from(assets)).contains(&place)
}

// Whether a movement can be made of a book: what refusal 22 lets pass.
pub fn is_possible(b: &[u8], change: Change<'_>) -> bool
    requires { Accepted b.now }
    ensures { result ≡ possible b.now (movement_of change.entry) }
{
    match change {
        Change::Add(asset) => asset.len() == book::ASSET_SIZE,
        Change::Remove(place) => {
            let h = header::header_at(b);
            is_there(place, h.assets)
        }
    }
}

// How many mitigants the assets before a place have.
fn counts_before(b: &[u8], place: usize) -> usize
    requires { (Accepted b.now) × (0 < place) × (place ≤ N b.now) }
    ensures { result ≡ counts_before b.now place }
{
    let assets = header::assets_of(b);
    let mut sum = 0;
    for before in 1..place {
        sum += usize::from(book::asset_at(b, assets, before).count);
    }
    sum
}

// Where the asset at a place and its mitigants stand.
pub fn find(b: &[u8], place: usize) -> Spot
    requires { (Accepted b.now) × (0 < place) × (place ≤ N b.now) }
    ensures { Found b.now place result }
{
    let h = header::header_at(b);
    let a = book::asset_at(b, header::assets_of(b), place);
    let assets = book::counterparty_start(usize::from(h.counterparties) + 1);
    let first = header::mitigants_start(h) + book::MITIGANT_SIZE * counts_before(b, place);
    Spot {
        asset: assets + book::ASSET_SIZE * (place - 1),
        first,
        behind: first + book::MITIGANT_SIZE * usize::from(a.count),
        count: a.count,
    }
}
