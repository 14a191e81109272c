// Opening a schedule and a book for an entry, whatever it wants: refusals 1 to 13 and 17, tables in the size of the book, and the fund.
#![tactic(auto)]

ghost use Rattle.std.specs.Prelude.{◌≡◌};
ghost use Rattle.book.specs.Records.{C};
ghost use Rattle.refusal.specs.Chain.{◌and_then◌};
ghost use Rattle.schedule.specs.Check.{schedule_check};
ghost use Rattle.book.specs.Check.{book_check};
ghost use Rattle.fund.specs.Fund.{Passed};
ghost use Rattle.opening.specs.Tables.{RoomFor, RowsFor, Prepared};

use cascade::TIERS;
use fund::{Fund, Opened};
use refusal::Refusal;
use rows::COLUMNS;
use wanted::Wanted;

// Tables for books of three sizes, since zeroing the largest takes longer than a small book: for so many counterparties, and for SMALL and MEDIUM for
// four times as many assets and mitigants. By groups there are as many rows as there may be counterparties, but for FEW groups of a large book.
const SMALL: usize = 16;

const SMALL_PARTIES: usize = SMALL + 1;

const SMALL_ASSETS: usize = 4 * SMALL + 1;

const SMALL_MITIGANTS: usize = 4 * SMALL + 1;

const SMALL_STARTS: usize = 4 * SMALL + 2;

const SMALL_CELLS: usize = COLUMNS * SMALL;

const SMALL_LINES: usize = TIERS * SMALL;

const MEDIUM: usize = 128;

const MEDIUM_PARTIES: usize = MEDIUM + 1;

const MEDIUM_ASSETS: usize = 4 * MEDIUM + 1;

const MEDIUM_MITIGANTS: usize = 4 * MEDIUM + 1;

const MEDIUM_STARTS: usize = 4 * MEDIUM + 2;

const MEDIUM_CELLS: usize = COLUMNS * MEDIUM;

const MEDIUM_LINES: usize = TIERS * MEDIUM;

const LARGE: usize = book::MOST_COUNTERPARTIES;

const LARGE_PARTIES: usize = LARGE + 1;

const LARGE_ASSETS: usize = book::MOST_ASSETS + 1;

const LARGE_MITIGANTS: usize = book::MOST_MITIGANTS + 1;

const LARGE_STARTS: usize = book::MOST_MITIGANTS + 2;

const LARGE_CELLS: usize = COLUMNS * LARGE;

const LARGE_LINES: usize = TIERS * LARGE;

const FEW: usize = 64;

const FEW_CELLS: usize = COLUMNS * FEW;

const FEW_LINES: usize = TIERS * FEW;

// The tables by counterparty, by asset and by mitigant.
#[derive(Drop)]
struct Tables<
    const PARTIES: usize,
    const ASSETS: usize,
    const MITIGANTS: usize,
    const STARTS: usize,
> {
    words: [u64; PARTIES],
    terms: [u64; PARTIES],
    halves: [u64; PARTIES],
    rests: [u64; ASSETS],
    covered: [u64; MITIGANTS],
    tops: [u16; PARTIES],
    rows: [u16; PARTIES],
    heads: [u16; PARTIES],
    draws: [u16; ASSETS],
    places: [u16; ASSETS],
    starts: [u16; STARTS],
}

// Refusals 14 and 15, or what is wanted, with a row of cells for each of up to GROUPS groups. The fund is put together field by field, each of at most 128
// bytes: by `?` its 304 would be moved whole, by a call of C's memcpy, which the archive for C would need from outside.
fn answer<
    W: Wanted,
    const PARTIES: usize,
    const ASSETS: usize,
    const MITIGANTS: usize,
    const STARTS: usize,
    const CELLS: usize,
    const GROUPS: usize,
    const LINES: usize,
>(
    schedule: &[u8],
    book: &[u8],
    groups: usize,
    t: &mut Tables<PARTIES, ASSETS, MITIGANTS, STARTS>,
    wanted: W,
    lent: &mut [u8],
) -> Result<usize, Refusal>
    requires { (Prepared schedule.now book.now groups t.old) × (RoomFor book.now PARTIES ASSETS MITIGANTS STARTS) × (RowsFor groups CELLS GROUPS LINES) }
    ensures { W.promise wanted schedule.now book.now lent.old lent.new result }
{
    let mut cells = [0u64; CELLS];
    let mut sets = [0u16; GROUPS];
    let mut list = [0u16; LINES];
    let found = making::make(
        schedule,
        book,
        groups,
        &t.words,
        &t.terms,
        &t.rows,
        &mut t.starts,
        &mut t.draws,
        &mut t.halves,
        &mut t.rests,
        &mut t.places,
        &mut t.covered,
        &mut cells,
    );
    match &found {
        Err(why) => Err(*why),
        Ok(rated) => {
            let limits = rated.limits;
            let ranking = rated.ranking;
            let figures = rated.figures;
            let fund = Fund {
                limits,
                ranking,
                figures,
            };
            let made = Opened {
                groups,
                words: &t.words,
                rows: &t.rows,
                heads: &t.heads,
                rests: &t.rests,
                places: &t.places,
                covered: &t.covered,
                cells: &mut cells,
                sets: &mut sets,
                list: &mut list,
            };
            wanted.finish(schedule, book, fund, made, lent)
        }
    }
}

// In tables of these sizes. Not put into its caller by the compiler: every call would then touch the stack of the largest tables first.
#[inline(never)]
fn sized<
    W: Wanted,
    const PARTIES: usize,
    const ASSETS: usize,
    const MITIGANTS: usize,
    const STARTS: usize,
    const CELLS: usize,
    const GROUPS: usize,
    const LINES: usize,
>(schedule: &[u8], book: &[u8], c: usize, wanted: W, lent: &mut [u8]) -> Result<usize, Refusal>
    requires { (Passed schedule.now book.now) × (c ≡ C book.now) × (RoomFor book.now PARTIES ASSETS MITIGANTS STARTS) × (RowsFor (C book.now) CELLS GROUPS LINES) }
    ensures { W.promise wanted schedule.now book.now lent.old lent.new result }
{
    let mut t: Tables<PARTIES, ASSETS, MITIGANTS, STARTS> = Tables {
        words: [0; PARTIES],
        terms: [0; PARTIES],
        halves: [0; PARTIES],
        rests: [0; ASSETS],
        covered: [0; MITIGANTS],
        tops: [0; PARTIES],
        rows: [0; PARTIES],
        heads: [0; PARTIES],
        draws: [0; ASSETS],
        places: [0; ASSETS],
        starts: [0; STARTS],
    };
    let groups = parties::fill(
        book,
        c,
        &mut t.words,
        &mut t.terms,
        &mut t.tops,
        &mut t.rows,
        &mut t.heads,
    );
    if (MEDIUM < GROUPS) && (groups <= FEW) {
        return answer::<W, PARTIES, ASSETS, MITIGANTS, STARTS, FEW_CELLS, FEW, FEW_LINES>(
            schedule, book, groups, &mut t, wanted, lent,
        );
    }
    answer::<W, PARTIES, ASSETS, MITIGANTS, STARTS, CELLS, GROUPS, LINES>(
        schedule, book, groups, &mut t, wanted, lent,
    )
}

// What is wanted of a book that refusals 1 to 13 and 17 let pass, in tables of the least size that has room for it.
fn accepted<W: Wanted>(
    schedule: &[u8],
    book: &[u8],
    wanted: W,
    lent: &mut [u8],
) -> Result<usize, Refusal>
    requires { Passed schedule.now book.now }
    ensures { W.promise wanted schedule.now book.now lent.old lent.new result }
{
    let h = header::header_at(book);
    let c = h.counterparties as usize;
    let n = h.assets as usize;
    let k = h.mitigants as usize;
    if (c <= SMALL) && (n <= 4 * SMALL) && (k <= 4 * SMALL) {
        return sized::<
            W,
            SMALL_PARTIES,
            SMALL_ASSETS,
            SMALL_MITIGANTS,
            SMALL_STARTS,
            SMALL_CELLS,
            SMALL,
            SMALL_LINES,
        >(schedule, book, c, wanted, lent);
    }
    if (c <= MEDIUM) && (n <= 4 * MEDIUM) && (k <= 4 * MEDIUM) {
        return sized::<
            W,
            MEDIUM_PARTIES,
            MEDIUM_ASSETS,
            MEDIUM_MITIGANTS,
            MEDIUM_STARTS,
            MEDIUM_CELLS,
            MEDIUM,
            MEDIUM_LINES,
        >(schedule, book, c, wanted, lent);
    }
    sized::<
        W,
        LARGE_PARTIES,
        LARGE_ASSETS,
        LARGE_MITIGANTS,
        LARGE_STARTS,
        LARGE_CELLS,
        LARGE,
        LARGE_LINES,
    >(schedule, book, c, wanted, lent)
}

// Refusals 1 to 13 and 17.
fn check(schedule: &[u8], book: &[u8]) -> Result<(), Refusal>
    ensures { result ≡ (schedule_check schedule.now and_then book_check book.now) }
{
    schedule::check(schedule)?;
    admit::check(book)
}

// All that entries of a schedule and a book have in common: refusals 1 to 15 and 17, the tables in the book's size, and the fund; then what is wanted of it.
pub fn open<W: Wanted>(
    schedule: &[u8],
    book: &[u8],
    wanted: W,
    lent: &mut [u8],
) -> Result<usize, Refusal>
    ensures { W.promise wanted schedule.now book.now lent.old lent.new result }
{
    check(schedule, book)?;
    accepted(schedule, book, wanted, lent)
}
