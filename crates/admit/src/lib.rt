// Refusals 5 to 13 and 17, in their order: which byte strings are books.
#![tactic(auto)]

ghost use Rattle.std.specs.Prelude.{◌≡◌, ◌≤◌, length};
ghost use Rattle.book.specs.Records.{header_size};
ghost use Rattle.book.specs.Check.{counts_fit, amounts_fit, header_check, records_check, book_check};
ghost use Rattle.book.specs.Accepted.{HeaderFits};

use refusal::Refusal;

// The base's bounds: -M and M.
const MOST_BASE: i64 = wire::M as i64;

const LEAST_BASE: i64 = -MOST_BASE;

// ---- the header, 6 to 9

fn counts_fit(b: &[u8]) -> bool
    requires { header_size ≤ length b.now }
    ensures { result ≡ counts_fit b.now }
{
    let h = header::header_at(b);
    (h.counterparties as usize <= book::MOST_COUNTERPARTIES)
        & (h.assets as usize <= book::MOST_ASSETS)
        & (h.mitigants as usize <= book::MOST_MITIGANTS)
        & (b.len() == header::size(h))
}

fn amounts_fit(b: &[u8]) -> bool
    requires { header_size ≤ length b.now }
    ensures { result ≡ amounts_fit b.now }
{
    let h = header::header_at(b);
    (h.total <= wire::M) & (h.excluded <= wire::M) & (LEAST_BASE <= h.base) & (h.base <= MOST_BASE)
}

#[tactic(auto, using(refusal::specs::Laws::then_err, refusal::specs::Laws::then_ok), unfolding(book::specs::Check::header_check))]
fn header_check(b: &[u8]) -> Result<(), Refusal>
    requires { header_size ≤ length b.now }
    ensures { result ≡ header_check b.now }
{
    refusal::unless(Refusal::BookMark, header::marked(b))?;
    refusal::unless(Refusal::BookVersion, header::version_known(b))?;
    refusal::unless(Refusal::BookCounts, counts_fit(b))?;
    refusal::unless(Refusal::BookAmounts, amounts_fit(b))
}

// ---- the records, 10 to 13

#[tactic(auto, using(refusal::specs::Laws::then_err, refusal::specs::Laws::then_ok), unfolding(book::specs::Check::records_check, book::specs::Check::counts_check))]
fn records_check(b: &[u8]) -> Result<(), Refusal>
    requires { HeaderFits b.now }
    ensures { result ≡ records_check b.now }
{
    let h = header::header_at(b);
    let c = h.counterparties;
    let n = h.assets as usize;
    let k = h.mitigants as usize;
    let assets = header::assets_of(b);
    records::counterparties_check(b, c as usize)?;
    records::assets_check(b, c, n, assets)?;
    records::mitigants_check(b, c, k, header::mitigants_start(h))?;
    refusal::unless(
        Refusal::MitigantCounts,
        records::counts_add(b, n, assets) == k,
    )
}

// ---- the whole book, 5 to 13 and 17

// The first refusal of a byte string, or none: then it is a book that `Accepted` describes.
pub fn check(b: &[u8]) -> Result<(), Refusal>
    ensures { result ≡ book_check b.now }
{
    if b.len() < book::HEADER_SIZE {
        return Err(Refusal::BookLength);
    }
    header_check(b)?;
    records_check(b)?;
    let h = header::header_at(b);
    records::specialist_check(b, h.specialist, h.assets as usize, header::assets_of(b))
}
