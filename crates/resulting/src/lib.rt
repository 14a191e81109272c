// The book after a movement, put into lent bytes.
#![tactic(auto)]

ghost use Rattle.std.specs.Prelude.{true, ◌≡◌, ◌++◌, ◌+◌, ◌-◌, ◌<◌, ◌≤◌, length};
ghost use Rattle.wire.specs.Bytes.{bytes16, placed};
ghost use Rattle.book.specs.Records.{N, asset_size};
ghost use Rattle.book.specs.Accepted.{Accepted};
ghost use Rattle.movement.specs.Raw.{slice};
ghost use Rattle.movement.specs.Movement.{with_asset, without_asset, movement_of, resulting, possible};
ghost use Rattle.resulting.specs.Promise.{BookPut};

use movement::Change;

// A part of s, put at a place of d; every other byte stays.
fn put_slice(d: &mut [u8], at: usize, s: &[u8], from: usize, end: usize)
    requires { (from ≤ end) × (end ≤ length s.now) × (at + (end - from) ≤ length d.old) }
    ensures { d.new ≡ placed d.old at (slice s.now from (end - from)) }
{
    placing::put_all(&mut d[at..], &s[from..end]);
}

// Other counts of assets and mitigants in a header; every other byte stays.
fn put_counts(d: &mut [u8], n: u16, k: u16)
    requires { 12 ≤ length d.old }
    ensures { d.new ≡ placed d.old 8 (bytes16 n ++ bytes16 k) }
{
    placing::put_u16(d, 8, n);
    placing::put_u16(d, 10, k);
}

// The book with a record behind its assets: what stands before the mitigants, the record, the mitigants; then the counts.
fn put_added(d: &mut [u8], b: &[u8], asset: &[u8]) -> usize
    requires { (Accepted b.now) × (length asset.now ≡ asset_size) × (length b.now + asset_size ≤ length d.old) }
    ensures { BookPut (with_asset b.now asset.now) d.old d.new result }
{
    let h = header::header_at(b);
    let m = header::mitigants_start(h);
    let end = b.len();
    put_slice(d, 0, b, 0, m);
    put_slice(d, m, asset, 0, book::ASSET_SIZE);
    put_slice(d, m + book::ASSET_SIZE, b, m, end);
    put_counts(d, h.assets + 1, h.mitigants);
    end + book::ASSET_SIZE
}

// The book without the asset at a place and its mitigants: what stands before the asset, from behind it to its mitigants, and what is behind these; then the counts.
fn put_removed(d: &mut [u8], b: &[u8], place: usize) -> usize
    requires { (Accepted b.now) × (0 < place) × (place ≤ N b.now) × (length b.now ≤ length d.old) }
    ensures { BookPut (without_asset b.now place) d.old d.new result }
{
    let h = header::header_at(b);
    let s = movement::find(b, place);
    let at = s.asset;
    let first = s.first;
    let behind = s.behind;
    let end = b.len();
    put_slice(d, 0, b, 0, at);
    put_slice(d, at, b, at + book::ASSET_SIZE, first);
    put_slice(d, first - book::ASSET_SIZE, b, behind, end);
    put_counts(d, h.assets - 1, h.mitigants - s.count);
    first - book::ASSET_SIZE + (end - behind)
}

// The book after a movement that can be made, into the lent bytes, and how many it has; every byte behind it stays.
pub fn put(d: &mut [u8], b: &[u8], change: Change<'_>) -> usize
    requires { (Accepted b.now) × (possible b.now (movement_of change) ≡ true) × (length b.now + asset_size ≤ length d.old) }
    ensures { BookPut (resulting b.now (movement_of change.entry)) d.old d.new result }
{
    match change {
        Change::Add(asset) => put_added(d, b, asset),
        Change::Remove(place) => put_removed(d, b, place as usize),
    }
}
