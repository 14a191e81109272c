// The program: a schedule, then a book on standard input; the report's lines and its charge, or the refusal, on standard output.
// No contract can speak of what is read or written: `printing::print` promises the text for the bytes, and `main` reads these and writes that.
#![tactic(auto)]

ghost use Rattle.std.specs.Prelude.{◌≡◌, length, IfOk};
ghost use Rattle.io.specs.Counts.{IsPrefixLen};
ghost use Rattle.printing.specs.Printed.{text_room};
ghost use Rattle.printing.specs.Cut.{input_room};

use std::io;
use std::io::{Read, Write};

// Room for a schedule, the longest book (63,240 bytes) and one byte more: an input cut there gets the text of the whole (`printing` `Cut.cut`).
fn input_room() -> [u8; 63363]
    ensures { input_room ≡ length result }
{
    [0; 63363]
}

// Room for the text of a report that fills its buffer.
fn text_room() -> [u8; 209664]
    ensures { text_room ≡ length result }
{
    [0; 209664]
}

// Reads until the room is full or the input ends, and says how many bytes stand at its start.
fn read_full(from: &mut impl Read, room: &mut [u8]) -> io::Result<usize>
    ensures { IfOk result (λ n. IsPrefixLen n room.new) }
{
    let mut done = 0;
    while done < room.len() {
        let n = from.read(&mut room[done..])?;
        if n == 0 {
            break;
        }
        done += n;
    }
    Ok(done)
}

fn main(rt: HostRuntime) -> io::Result<()> {
    let mut input = input_room();
    let n = read_full(&mut rt.reader(), &mut input)?;
    let mut text = text_room();
    let size = printing::print(&input[..n], &mut text);
    io::writer(&rt).write_all(&text[..size])
}
