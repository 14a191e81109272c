// The entries that move an asset: the book in a lent buffer with an asset more or less, and its report, or one refusal.
#![tactic(auto)]

ghost use Rattle.std.specs.Prelude.{◌≡◌};
ghost use Rattle.schedule.specs.Check.{schedule_check};
ghost use Rattle.movement.specs.Movement.{Add, Remove, movement_of};
ghost use Rattle.day.specs.Moving.{Moved, refused_behind};

use movement::Change;
use refusal::Refusal;

// A refusal behind 1 to 4: the schedule's own is the one that a report of no bytes gets, unless that is 5.
fn refused(schedule: &[u8], why: Refusal) -> Result<usize, Refusal>
    ensures { result ≡ refused_behind (schedule_check schedule.now) why }
{
    let nothing = [0u8; 0];
    let mut none = [0u8; 0];
    match entries::report(schedule, &nothing, &mut none) {
        Ok(_) => Err(why),
        Err(own) => {
            if refusal::number(own) < 5 {
                return Err(own);
            }
            Err(why)
        }
    }
}

// A movement of the book in the buffer: 5 to 15 and 17 of the book as it stands, 22, both behind 1 to 4, then the book that it makes.
fn moved(
    schedule: &[u8],
    change: Change<'_>,
    book: &mut [u8],
    report: &mut [u8],
) -> Result<usize, Refusal>
    ensures { Moved schedule.now (movement_of change.entry) book.old book.new report.old report.new result }
{
    let size = movement::size_in(book);
    match book_checks::check(&book[..size]) {
        Err(why) => refused(schedule, why),
        Ok(()) => {
            if !movement::is_possible(&book[..size], change) {
                return refused(schedule, Refusal::Movement);
            }
            replacing::make(schedule, change, size, book, report)
        }
    }
}

// An asset more, or the first refusal that applies. A refusal changes no byte of either buffer.
pub fn add(
    schedule: &[u8],
    asset: &[u8],
    book: &mut [u8],
    report: &mut [u8],
) -> Result<usize, Refusal>
    ensures { Moved schedule.now (Add asset.now) book.old book.new report.old report.new result }
{
    moved(schedule, Change::Add(asset), book, report)
}

// An asset less, or the first refusal that applies. A refusal changes no byte of either buffer.
pub fn remove(
    schedule: &[u8],
    place: u64,
    book: &mut [u8],
    report: &mut [u8],
) -> Result<usize, Refusal>
    ensures { Moved schedule.now (Remove place) book.old book.new report.old report.new result }
{
    moved(schedule, Change::Remove(place), book, report)
}
