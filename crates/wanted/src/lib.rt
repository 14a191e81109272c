// What an entry wants of a fund: the report, the bills or the answers, and what each of them promises. How one is added: docs/ENTRIES.md.
#![tactic(auto)]

ghost use Rattle.std.specs.Prelude.{List, ℕ};
ghost use Rattle.refusal.specs.Chain.{Checked, Answer};
ghost use Rattle.fund.specs.Tables.{FundTables};
ghost use Rattle.report.specs.Answer.{Answered};
ghost use Rattle.report.specs.Tables.{Headed, Room};
ghost use Rattle.billing.specs.Billed.{Billed};
ghost use Rattle.questions.specs.Headroom.{Asked};
ghost use Rattle.wanted.specs.Wanted.{Unchanged, AllUnchanged};
ghost use Rattle.wanted.specs.Refusing.{report_last, bills_last, answers_last, all_reported, all_billed, all_asked, reported, billed, asked};

use fund::{Fund, Opened};
use refusal::Refusal;

// What an entry makes of a fund.
pub trait Wanted: Drop {
    // What is promised of a schedule's and a book's bytes, the lent ones before and after, and the answer.
    ghost promise: { Self → List ℕ → List ℕ → List ℕ → List ℕ → Answer → Type 0 };

    fn finish(
        self,
        schedule: &[u8],
        book: &[u8],
        fund: Fund,
        made: Opened<'_>,
        lent: &mut [u8],
    ) -> Result<usize, Refusal>
        requires { (FundTables schedule.now book.now made.groups fund made.words.now made.rows.now made.places.now made.covered.now made.rests.now made.cells.now) × (Headed book.now made.heads.now) × (Room made.groups made.sets.now made.list.now) }
        ensures { promise self schedule.now book.now lent.old lent.new result };

    // What 1 to 15 and 17 refuse changes no byte.
    ghost refused: { (w : Self) → Unchanged (promise w) };
}

// What the checks behind 15 refuse changes no byte either.
pub trait Refuses: Wanted {
    // These checks, of a schedule's and a book's bytes and the lent ones.
    ghost last: { Self → List ℕ → List ℕ → List ℕ → Checked };

    ghost all_refused: { (w : Self) → AllUnchanged (Self.promise w) (last w) };
}

// The report.
#[derive(Clone, Copy)]
pub struct Report;

impl Wanted for Report {
    ghost promise = { λ w schedule book before after r. Answered schedule book before after r };

    ghost refused = { λ w. reported };

    fn finish(
        self,
        schedule: &[u8],
        book: &[u8],
        fund: Fund,
        made: Opened<'_>,
        lent: &mut [u8],
    ) -> Result<usize, Refusal> {
        let Opened {
            groups,
            heads,
            cells,
            sets,
            list,
            ..
        } = made;
        // Field by field, as in `opening`: the fund copied whole would be a call of C's memcpy.
        let Fund {
            limits,
            ranking,
            figures,
        } = fund;
        let fund = Fund {
            limits,
            ranking,
            figures,
        };
        report::finish(schedule, book, groups, fund, heads, cells, sets, list, lent)
    }
}

impl Refuses for Report {
    ghost last = { λ w. report_last };

    ghost all_refused = { λ w. all_reported };
}

// The desks' bills, at a rate in ten-thousandths.
#[derive(Clone, Copy)]
pub struct Bills {
    pub rate: u64,
}

impl Wanted for Bills {
    ghost promise = { λ w schedule book before after r. Billed schedule book w.rate before after r };

    ghost refused = { λ w. billed w.rate };

    fn finish(
        self,
        schedule: &[u8],
        book: &[u8],
        fund: Fund,
        made: Opened<'_>,
        lent: &mut [u8],
    ) -> Result<usize, Refusal> {
        let Opened {
            groups,
            words,
            rows,
            rests,
            places,
            covered,
            cells,
            ..
        } = made;
        billing::finish(
            schedule, book, groups, fund, self.rate, words, rows, places, covered, rests, cells,
            lent,
        )
    }
}

impl Refuses for Bills {
    ghost last = { λ w. bills_last w.rate };

    ghost all_refused = { λ w. all_billed w.rate };
}

// The answers to a list of questions.
#[derive(Clone, Copy)]
pub struct Headroom<'a> {
    pub questions: &'a [u8],
}

impl<'a> Wanted for Headroom<'a> {
    ghost promise = { λ w schedule book before after r. Asked schedule book w.questions.now before after r };

    ghost refused = { λ w. asked w.questions.now };

    fn finish(
        self,
        schedule: &[u8],
        book: &[u8],
        fund: Fund,
        made: Opened<'_>,
        lent: &mut [u8],
    ) -> Result<usize, Refusal> {
        let Opened {
            groups,
            words,
            rows,
            cells,
            ..
        } = made;
        questions::finish(
            schedule,
            book,
            groups,
            fund,
            self.questions,
            words,
            rows,
            cells,
            lent,
        )
    }
}

impl<'a> Refuses for Headroom<'a> {
    ghost last = { λ w. answers_last w.questions.now };

    ghost all_refused = { λ w. all_asked w.questions.now };
}
