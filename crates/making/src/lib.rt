// The passes over an accepted book, all of them into lent tables, refusals 14 and 15, and the fund of it and a schedule.
#![tactic(auto)]

ghost use Rattle.book.specs.Accepted.{Accepted};
ghost use Rattle.cells.specs.Cells.{Zeros};
ghost use Rattle.fund.specs.Fund.{Passed, Provided, Drew, Summed, Made};

use assets::Values;
use cells::Sums;
use fund::Fund;
use refusal::Refusal;

// The sums over the assets, and those over the exposures that no table holds.
#[derive(Clone, Copy)]
struct Drawn {
    values: Values,
    sums: Sums,
}

// The passes over assets and mitigants, and the posting of what is covered and what remains.
fn draw(
    book: &[u8],
    groups: usize,
    words: &[u64],
    terms: &[u64],
    rows: &[u16],
    starts: &mut [u16],
    draws: &mut [u16],
    halves: &mut [u64],
    rests: &mut [u64],
    places: &mut [u16],
    covered: &mut [u64],
    cells: &mut [u64],
) -> Drawn
    requires { (Accepted book.now) × (Provided book.now groups words.now terms.now rows.now starts.old draws.old halves.old rests.old places.old covered.old) × (Zeros groups cells.old) }
    ensures tables { Drew book.now groups starts.old draws.old halves.old rests.old places.old covered.old cells.old starts.new draws.new halves.new rests.new places.new covered.new cells.new }
    ensures sums { Summed book.now result.values result.sums }
{
    let sections = header::sections_of(book);
    let values = inventory::fill(
        book, sections, words, terms, rows, starts, draws, halves, rests, places,
    );
    assets::halve(halves);
    covering::cover(book, sections, terms, starts, draws, halves, rests, covered);
    let sums = posting::post(
        book, sections, groups, words, rows, covered, rests, places, cells,
    );
    Drawn { values, sums }
}

// The fund of a schedule and a book that refusals 1 to 13 and 17 let pass, whose counterparties' tables are made; or refusal 14 or 15.
pub fn make(
    schedule: &[u8],
    book: &[u8],
    groups: usize,
    words: &[u64],
    terms: &[u64],
    rows: &[u16],
    starts: &mut [u16],
    draws: &mut [u16],
    halves: &mut [u64],
    rests: &mut [u64],
    places: &mut [u16],
    covered: &mut [u64],
    cells: &mut [u64],
) -> Result<Fund, Refusal>
    requires { (Passed schedule.now book.now) × (Provided book.now groups words.now terms.now rows.now starts.old draws.old halves.old rests.old places.old covered.old) × (Zeros groups cells.old) }
    ensures tables { Drew book.now groups starts.old draws.old halves.old rests.old places.old covered.old cells.old starts.new draws.new halves.new rests.new places.new covered.new cells.new }
    ensures made { Made schedule.now book.now result }
{
    let drawn = draw(
        book, groups, words, terms, rows, starts, draws, halves, rests, places, covered, cells,
    );
    let values = drawn.values;
    let sums = drawn.sums;
    values::check(book, values)?;
    Ok(fund::rate(schedule, book, groups, values, sums, cells))
}
