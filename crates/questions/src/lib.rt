// The answers to a list of questions of a fund, or refusals 20 and 21.
#![tactic(auto)]

ghost use Rattle.std.specs.Prelude.{◌≡◌};
ghost use Rattle.wire.specs.Bytes.{placed};
ghost use Rattle.wire.specs.Amounts.{amounts_bytes};
ghost use Rattle.headroom.specs.Headroom.{RankedBy};
ghost use Rattle.columns.specs.Column.{Tiered};
ghost use Rattle.cells.specs.Cells.{Rowed};
ghost use Rattle.fund.specs.Fund.{Rateable, RatedAs};
ghost use Rattle.questions.specs.Tables.{answer_at, answers_at, Answerable, AllAnswerable};
ghost use Rattle.questions.specs.Headroom.{Asked};

use cascade::TIERS;
use fund::Fund;
use refusal::Refusal;

// The bytes of an answer.
const ANSWER: usize = 8;

// The answer for a place and a kind, out of the tables by counterparty, the columns' tiers and the cells.
fn answer(
    place: u16,
    kind: u8,
    limits: [u64; TIERS],
    ranking: [usize; TIERS],
    words: &[u64],
    rows: &[u16],
    tiers: &[u16],
    cells: &[u64],
) -> u64
    requires { (Answerable limits ranking words.now rows.now cells.now place kind) × (Tiered tiers.now) }
    ensures { (q : RankedBy limits ranking) → result ≡ answer_at q.order limits words.now rows.now cells.now place kind }
{
    let who = usize::from(place);
    let wanted = u64::from(kind);
    let column = columns::of_kind(words[who], wanted) as usize;
    let tier = usize::from(tiers[column]);
    let row = usize::from(rows[who]);
    headroom::room(limits, cells, row, ranking, tier, wire::M)
}

// The answers to n questions, eight bytes each. No byte behind them changes.
fn put_answers(
    questions: &[u8],
    n: usize,
    limits: [u64; TIERS],
    ranking: [usize; TIERS],
    words: &[u64],
    rows: &[u16],
    cells: &[u64],
    answers: &mut [u8],
)
    requires { AllAnswerable questions.now n limits ranking words.now rows.now cells.now answers.old }
    ensures { (q : RankedBy limits ranking) → answers.new ≡ placed answers.old 0 (amounts_bytes (answers_at q.order limits words.now rows.now cells.now questions.now n)) }
{
    let tiers = columns::tiers();
    for k in 0..n {
        let place = wire::u16_at(questions, asking::QUESTION * k);
        let kind = questions[asking::QUESTION * k + 2];
        let amount = answer(place, kind, limits, ranking, words, rows, &tiers, cells);
        placing::put_u64(answers, ANSWER * k, amount);
    }
}

// Refusals 20 and 21, or the answers, of a fund whose tables are made.
pub fn finish(
    schedule: &[u8],
    book: &[u8],
    groups: usize,
    f: Fund,
    questions: &[u8],
    words: &[u64],
    rows: &[u16],
    cells: &[u64],
    answers: &mut [u8],
) -> Result<usize, Refusal>
    requires { (Rateable schedule.now book.now groups cells.now) × (RatedAs schedule.now book.now f) × (Rowed book.now words.now rows.now) }
    ensures { Asked schedule.now book.now questions.now answers.old answers.new result }
{
    let limits = f.limits;
    let ranking = f.ranking;
    let h = header::header_at(book);
    if !asking::good_list(questions, h.counterparties) {
        return Err(Refusal::Questions);
    }
    let n = questions.len() / asking::QUESTION;
    let size = ANSWER * n;
    if answers.len() < size {
        return Err(Refusal::AnswersShort);
    }
    put_answers(questions, n, limits, ranking, words, rows, cells, answers);
    Ok(size)
}
