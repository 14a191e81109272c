// The pass over the assets, by place: what there is of each to be covered or left, whose half it draws on, where its remainder is posted and where its mitigants
// start; by counterparty: the sum of its reinsurance, not halved yet (C-18); and the sums of the fund's values.
#![tactic(auto)]

ghost use Rattle.std.specs.Prelude.{◌≡◌, ◌+◌, ◌*◌, ◌≤◌, if◌then◌else◌};
ghost use Rattle.book.specs.Records.{most_assets, N, assets_of};
ghost use Rattle.book.specs.Fields.{reinsurance};
ghost use Rattle.book.specs.Accepted.{Accepted};
ghost use Rattle.parties.specs.Rows.{Parties};
ghost use Rattle.assets.specs.Assets.{AssetRoom, Valued};

use assets::Values;
use book::Asset;
use header::Sections;

// An asset's mark among the mitigants: twice its place, and one more for reinsurance.
fn mark_of(a: Asset, place: usize) -> u16
    requires { place ≤ most_assets }
    ensures { result ≡ 2 * place + (if reinsurance a then 1 else 0) }
{
    2 * place as u16 + u16::from(book::is_reinsurance(a))
}

// Every asset in book order. What is left in `halves` are sums, not halved yet.
pub fn fill(
    b: &[u8],
    sections: Sections,
    words: &[u64],
    terms: &[u64],
    rows: &[u16],
    starts: &mut [u16],
    draws: &mut [u16],
    halves: &mut [u64],
    rests: &mut [u64],
    places: &mut [u16],
) -> Values
    requires { (Accepted b.now) × (sections.assets ≡ assets_of b.now) × (sections.asset_count ≡ N b.now) × (Parties b.now words.now terms.now rows.now) × (AssetRoom b.now starts.old draws.old halves.old rests.old places.old) }
    ensures { Valued b.now starts.old draws.old halves.old rests.old places.old starts.new draws.new halves.new rests.new places.new result }
{
    let mut v = Values {
        all: 0,
        linked: 0,
        reinsurance: 0,
        netted: 0,
        stressed: 0,
    };
    let mut first = 1;
    for place in 1..sections.asset_count + 1 {
        let a = book::asset_at(b, sections.assets, place);
        let who = usize::from(a.counterparty);
        v = entering::enter(
            a, place, rows[who], words[who], terms[who], v, draws, halves, rests, places,
        );
        starts[first] = mark_of(a, place);
        first += usize::from(a.count);
    }
    v
}
