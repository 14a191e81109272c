// The book that a movement makes, in the place of the one in the buffer, and its report.
#![tactic(auto)]

ghost use Rattle.std.specs.Prelude.{◌+◌, ◌≤◌, length};
ghost use Rattle.book.specs.Records.{asset_size};
ghost use Rattle.day.specs.Moving.{Replaced};
ghost use Rattle.replacing.specs.Movable.{Movable, MadeBy, most_room};

use movement::Change;
use refusal::Refusal;

// The longest book that a movement makes: one asset more than there may be, which refusal 8 turns back.
const MOST_BYTES: usize = 63_288;

// Books of up to so many bytes are made in a smaller array: zeroing the largest takes longer than the report of a small book.
const SMALL_BYTES: usize = 4_096;

// The new book in the place of the one in the buffer, and its report, or the first refusal that applies to it. Where the buffer is too short, the report has no byte to go to: that is refusal 16.
fn replace(
    schedule: &[u8],
    new: &[u8],
    book: &mut [u8],
    report: &mut [u8],
) -> Result<usize, Refusal>
    ensures { Replaced schedule.now new.now book.old book.new report.old report.new result }
{
    if book.len() < new.len() {
        return entries::report(schedule, new, &mut report[..0]);
    }
    let size = entries::report(schedule, new, report)?;
    placing::put_all(book, new);
    Ok(size)
}

// The book after a movement, made in the lent bytes `new`.
fn make_in(
    schedule: &[u8],
    change: Change<'_>,
    size: usize,
    new: &mut [u8],
    book: &mut [u8],
    report: &mut [u8],
) -> Result<usize, Refusal>
    requires { (Movable change book.old size) × (size + asset_size ≤ length new.old) }
    ensures { MadeBy schedule.now change.entry book.old book.new report.old report.new result }
{
    let end = resulting::put(new, &book[..size], change);
    replace(schedule, &new[..end], book, report)
}

// In an array of ROOM bytes. Not put into its caller by the compiler: every movement would then touch the stack of the largest array.
#[inline(never)]
fn sized<const ROOM: usize>(
    schedule: &[u8],
    change: Change<'_>,
    size: usize,
    book: &mut [u8],
    report: &mut [u8],
) -> Result<usize, Refusal>
    requires { (Movable change book.old size) × (size + asset_size ≤ ROOM) × (ROOM ≤ most_room) }
    ensures { MadeBy schedule.now change.entry book.old book.new report.old report.new result }
{
    let mut new = [0u8; ROOM];
    make_in(schedule, change, size, &mut new, book, report)
}

// A movement that can be made, of the accepted book in the first `size` bytes of its buffer: the book that it makes and its report, or the first refusal that applies to it.
pub fn make(
    schedule: &[u8],
    change: Change<'_>,
    size: usize,
    book: &mut [u8],
    report: &mut [u8],
) -> Result<usize, Refusal>
    requires { Movable change book.old size }
    ensures { MadeBy schedule.now change.entry book.old book.new report.old report.new result }
{
    if size <= SMALL_BYTES - book::ASSET_SIZE {
        return sized::<SMALL_BYTES>(schedule, change, size, book, report);
    }
    sized::<MOST_BYTES>(schedule, change, size, book, report)
}
