// The entries that read a schedule and a book.
#![tactic(auto)]

ghost use Rattle.report.specs.Answer.{Answered};
ghost use Rattle.billing.specs.Billed.{Billed};
ghost use Rattle.questions.specs.Headroom.{Asked};

use refusal::Refusal;
use wanted::{Bills, Headroom, Report};

// A report, or the first refusal that applies. A refusal changes no byte of the buffer, a report only its own length.
pub fn report(schedule: &[u8], book: &[u8], report: &mut [u8]) -> Result<usize, Refusal>
    ensures { Answered schedule.now book.now report.old report.new result }
{
    opening::open(schedule, book, Report, report)
}

// The desks' bills at a rate, or the first refusal that applies. A refusal changes no byte of the buffer, bills only their own length.
pub fn bills(schedule: &[u8], book: &[u8], rate: u64, bills: &mut [u8]) -> Result<usize, Refusal>
    ensures { Billed schedule.now book.now rate bills.old bills.new result }
{
    opening::open(schedule, book, Bills { rate }, bills)
}

// How much more may be bought, question by question, or the first refusal that applies. A refusal changes no byte of the buffer, answers only their own length.
pub fn headroom(
    schedule: &[u8],
    book: &[u8],
    questions: &[u8],
    answers: &mut [u8],
) -> Result<usize, Refusal>
    ensures { Asked schedule.now book.now questions.now answers.old answers.new result }
{
    opening::open(schedule, book, Headroom { questions }, answers)
}
