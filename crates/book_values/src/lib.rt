// Refusals 14 and 15 of a book by itself.
#![tactic(auto)]

ghost use Rattle.std.specs.Prelude.{◌≡◌};
ghost use Rattle.book.specs.Book.{book_of};
ghost use Rattle.book.specs.Accepted.{Accepted};
ghost use Rattle.exposure.specs.Values.{fund_check};

use assets::Values;
use refusal::Refusal;

// Both sums of reinsurance in one pass over the assets, and what `values` finds of them.
pub fn check_book(b: &[u8]) -> Result<(), Refusal>
    requires { Accepted b.now }
    ensures { result ≡ fund_check (book_of b.now) }
{
    let h = header::header_at(b);
    let n = h.assets as usize;
    let assets = header::assets_of(b);
    let mut values = 0;
    let mut stressed = 0;
    for place in 1..n + 1 {
        let a = book::asset_at(b, assets, place);
        let treaty = book::is_reinsurance(a);
        let above = exposure::stressed_of(a).saturating_sub(a.offsets);
        values += choice::pick(treaty, a.value, 0);
        stressed += choice::pick(treaty, above, 0);
    }
    values::check_sums(b, values, stressed)
}
