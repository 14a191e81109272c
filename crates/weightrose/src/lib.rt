// The library's exported entries, on numbers and byte slices.
#![tactic(auto)]

ghost use Rattle.movement.specs.Movement.{Add, Remove};
ghost use Rattle.promises.specs.Exported.{Reported, Converted, BillsWritten, Answers, MovementMade, Published, Versioned};

// The report of a book under a schedule, into the lent bytes.
#[unsafe(no_mangle)]
pub extern "C" fn weightrose_report(schedule: &[u8], book: &[u8], report: &mut [u8]) -> u64
    ensures { Reported schedule.now book.now report.old report.new result }
{
    packing::pack(entries::report(schedule, book, report))
}

// A book of version 1 as one of version 2, into the lent bytes.
#[unsafe(no_mangle)]
pub extern "C" fn weightrose_convert(book: &[u8], converted: &mut [u8]) -> u64
    ensures { Converted book.now converted.old converted.new result }
{
    packing::pack(convert::convert(book, converted))
}

// The desks' bills for the excesses of a book under a schedule, at a rate in ten-thousandths, into the lent bytes.
#[unsafe(no_mangle)]
pub extern "C" fn weightrose_bills(schedule: &[u8], book: &[u8], rate: u64, bills: &mut [u8]) -> u64
    ensures { BillsWritten schedule.now book.now rate bills.old bills.new result }
{
    packing::pack(entries::bills(schedule, book, rate, bills))
}

// How much more may be bought, question by question, into the lent bytes.
#[unsafe(no_mangle)]
pub extern "C" fn weightrose_headroom(
    schedule: &[u8],
    book: &[u8],
    questions: &[u8],
    answers: &mut [u8],
) -> u64
    ensures { Answers schedule.now book.now questions.now answers.old answers.new result }
{
    packing::pack(entries::headroom(schedule, book, questions, answers))
}

// The book in a lent buffer with an asset more, and its report, into the lent bytes.
#[unsafe(no_mangle)]
pub extern "C" fn weightrose_add(
    schedule: &[u8],
    asset: &[u8],
    book: &mut [u8],
    report: &mut [u8],
) -> u64
    ensures { MovementMade schedule.now (Add asset.now) book.old book.new report.old report.new result }
{
    packing::pack(moving::add(schedule, asset, book, report))
}

// The book in a lent buffer without the asset at a place, and its report, into the lent bytes.
#[unsafe(no_mangle)]
pub extern "C" fn weightrose_remove(
    schedule: &[u8],
    place: u64,
    book: &mut [u8],
    report: &mut [u8],
) -> u64
    ensures { MovementMade schedule.now (Remove place) book.old book.new report.old report.new result }
{
    packing::pack(moving::remove(schedule, place, book, report))
}

// The published schedule's bytes, into the lent bytes, and how many they are; 0 and no byte changed where fewer are lent.
#[unsafe(no_mangle)]
pub extern "C" fn weightrose_published(schedule: &mut [u8]) -> u64
    ensures { Published schedule.old schedule.new result }
{
    if schedule.len() < schedule::SIZE {
        return 0;
    }
    published::put_published(schedule);
    schedule::SIZE as u64
}

// The library's version, and the versions of schedules and books that it takes, as one number.
#[unsafe(no_mangle)]
pub extern "C" fn weightrose_version() -> u64
    ensures { Versioned result }
{
    packing::version()
}
