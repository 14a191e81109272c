// The whole way of the program but for reading and writing: from the bytes that it reads to the text that it prints.
#![tactic(auto)]

ghost use Rattle.std.specs.Prelude.{◌≡◌, ◌≤◌, min, length, take, drop};
ghost use Rattle.io.specs.Counts.{IsPrefixLen};
ghost use Rattle.schedule.specs.Schedule.{schedule_size};
ghost use Rattle.report.specs.Answer.{Answered};
ghost use Rattle.printing.specs.Printed.{text_room, Printed};

use refusal::Refusal;

// Where the schedule ends: after 122 bytes, or at the end of a shorter input.
fn schedule_end(input: &[u8]) -> usize
    ensures prefix_len { IsPrefixLen result input.now }
    ensures value { result ≡ min (length input.now) schedule_size }
{
    if input.len() < schedule::SIZE {
        input.len()
    } else {
        schedule::SIZE
    }
}

// The answer to the input: its first 122 bytes are the schedule, the rest is the book.
fn answer(input: &[u8], report: &mut [u8]) -> Result<usize, Refusal>
    ensures { Answered (take schedule_size input.now) (drop schedule_size input.now) report.old report.new result }
{
    let end = schedule_end(input);
    entries::report(&input[..end], &input[end..], report)
}

// What is printed for the input, put at the start of the lent text, and its length.
pub fn print(input: &[u8], text: &mut [u8]) -> usize
    requires { text_room ≤ length text.old }
    ensures printed { Printed input.now text.old text.new result }
    ensures prefix_len { IsPrefixLen result text.new }
{
    let mut report = io::large_buffer();
    match answer(input, &mut report) {
        Ok(_) => report_text::put_report(text, &report),
        Err(why) => text::put_refusal(text, why),
    }
}
