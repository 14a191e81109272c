// The bills of a fund, or refusals 19 and 16.
#![tactic(auto)]

ghost use Rattle.std.specs.Prelude.{◌≡◌, replicate};
ghost use Rattle.bills.specs.Bills.{desk_count};
ghost use Rattle.fund.specs.Tables.{FundTables};
ghost use Rattle.billing.specs.Billed.{Billed};
ghost use Rattle.billing.specs.Tables.{CellsBy, Excesses};

use fund::Fund;
use refusal::Refusal;

// The desks' excesses, in a table of zeros: the A3 excess is desk 0's, and what of each line does not stand is its desk's.
fn excesses(
    schedule: &[u8],
    book: &[u8],
    groups: usize,
    f: Fund,
    words: &[u64],
    rows: &[u16],
    places: &[u16],
    covered: &[u64],
    rests: &[u64],
    cells: &mut [u64],
    desks: &mut [u64],
)
    requires { (FundTables schedule.now book.now groups f words.now rows.now places.now covered.now rests.now cells.old) × (desks.old ≡ replicate desk_count 0) }
    ensures { Excesses schedule.now book.now groups f covered.now rests.now cells.old cells.new desks.new }
{
    let limits = f.limits;
    let ranking = f.ranking;
    let figures = f.figures;
    let sections = header::sections_of(book);
    desks[0] = figures.a3_sum.saturating_sub(figures.a3_limit);
    standing::stand(cells, groups, limits, ranking);
    serving::serve(
        book, sections, words, rows, places, covered, rests, cells, desks,
    );
}

// Refusals 19 and 16, or the bills at a rate, of a fund whose tables are made.
pub fn finish(
    schedule: &[u8],
    book: &[u8],
    groups: usize,
    f: Fund,
    rate: u64,
    words: &[u64],
    rows: &[u16],
    places: &[u16],
    covered: &[u64],
    rests: &[u64],
    cells: &mut [u64],
    bills: &mut [u8],
) -> Result<usize, Refusal>
    requires { FundTables schedule.now book.now groups f words.now rows.now places.now covered.now rests.now cells.old }
    ensures tables { CellsBy result book.now groups f covered.now rests.now cells.old cells.new }
    ensures billed { Billed schedule.now book.now rate bills.old bills.new result }
{
    if bills::MOST_RATE < rate {
        return Err(Refusal::CostRate);
    }
    if bills.len() < bills::SIZE {
        return Err(Refusal::BufferShort);
    }
    let mut desks = [0u64; bills::DESKS];
    excesses(
        schedule, book, groups, f, words, rows, places, covered, rests, cells, &mut desks,
    );
    bills::put(&desks, rate, bills);
    Ok(bills::SIZE)
}
