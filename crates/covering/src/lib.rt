// What mitigants cover: one loop over all mitigants of a book, with each one's asset known from a table of marks.
#![tactic(auto)]

ghost use Rattle.std.specs.Prelude.{◌≡◌, ◌≤◌, ◌<◌, max, length, get_or};
ghost use Rattle.book.specs.Records.{K, mitigants_start};
ghost use Rattle.book.specs.Accepted.{Accepted};
ghost use Rattle.covering.specs.Pass.{Known, Offers, Coverable, Covers};

use header::Sections;

// What the mitigant at a place could cover: its value where it counts, else 0; `reinsured` is 1 for reinsurance and 0 for any other asset.
fn offer_at(b: &[u8], sections: Sections, place: usize, reinsured: u64, terms: &[u64]) -> u64
    requires { (Accepted b.now) × (sections.mitigants ≡ mitigants_start b.now) × (0 < place) × (place ≤ K b.now) × (reinsured ≤ 1) × (Known b.now terms.now) }
    ensures { Offers b.now place reinsured result }
{
    let m = book::mitigant_at(b, sections.mitigants, place);
    let from = usize::from(m.counterparty);
    let trust = columns::trust_in(terms[from]);
    let counts = recognition::counts(u64::from(m.form), m.flags, reinsured, trust);
    choice::pick(counts, m.value, 0)
}

// The mark of a mitigant's asset, where that of the mitigant before is `own`.
fn owner_at(starts: &[u16], place: usize, own: u64) -> u64
    requires { place < length starts.now }
    ensures { result ≡ max own (get_or starts.now place 0) }
{
    own.max(u64::from(starts[place]))
}

// Every mitigant in book order: what it covers, taken off what is left of its asset and off the half that its asset draws on.
pub fn cover(
    b: &[u8],
    sections: Sections,
    terms: &[u64],
    starts: &[u16],
    draws: &[u16],
    halves: &mut [u64],
    rests: &mut [u64],
    covered: &mut [u64],
)
    requires { (Accepted b.now) × (sections.mitigants ≡ mitigants_start b.now) × (sections.mitigant_count ≡ K b.now) × (Known b.now terms.now) × (Coverable b.now starts.now draws.now halves.old rests.old) × (K b.now < length covered.old) }
    ensures { Covers b.now covered.old halves.old rests.old covered.new halves.new rests.new }
{
    let mut own = 0;
    for place in 1..sections.mitigant_count + 1 {
        own = owner_at(starts, place, own);
        let from = (own / 2) as usize;
        let on = usize::from(draws[from]);
        let rest = rests[from];
        let half = halves[on];
        let offer = offer_at(b, sections, place, own % 2, terms);
        let still = rest.min(half);
        let part = offer.min(still);
        halves[on] = half - part;
        rests[from] = rest - part;
        covered[place] = part;
    }
}
