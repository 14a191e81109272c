// The pass over a book's exposure lines in book order, each asset's covered parts before its remainder: what stands is given to the lines, and
// what a line is not given is its desk's.
#![tactic(auto)]

ghost use Rattle.desks.specs.Pass.{Servable, Served};

use header::Sections;

// Every asset in book order.
pub fn serve(
    b: &[u8],
    sections: Sections,
    words: &[u64],
    rows: &[u16],
    places: &[u16],
    covered: &[u64],
    rests: &[u64],
    still: &mut [u64],
    desks: &mut [u64],
)
    requires { Servable b.now sections words.now rows.now places.now covered.now rests.now still.old desks.old }
    ensures { Served b.now covered.now rests.now still.old desks.old still.new desks.new }
{
    let tiers = columns::tiers();
    let mut first = 1;
    for place in 1..sections.asset_count + 1 {
        let a = book::asset_at(b, sections.assets, place);
        let desk = usize::from(a.desk);
        let end = first + usize::from(a.count);
        let who = usize::from(a.counterparty);
        desks::serve_parts(
            b, sections, first, end, desk, words, rows, &tiers, covered, still, desks,
        );
        let cell = desks::rest_cell(rows[who], places[place], &tiers);
        bills::serve(still, desks, cell, rests[place], desk);
        first = end;
    }
}
