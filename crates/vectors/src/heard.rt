// The worked numbers of answers: what the reader says.
ghost use Rattle.std.specs.Prelude.{◌<◌};

use crate::wire::{ask, show_question};
use numbers::number_of;
use questions::question::{HELLOALL, Question, READALL};
use reader::read::read;
use readings::{Refusal, Taken, byte_of, count_of, place_of, values_taken};
use std::io;
use writing::put_line;

// What the reader says of a line: the number with its place and byte, and what it took.
pub(crate) fn answer(rt: &impl Print, q: Question, line: &[u16]) -> io::Result<()> {
    print!(rt; "answer to ")?;
    show_question(rt, q)?;
    let mut out = [0; 32];
    let reading = read(q, line, &mut out);
    said(rt, reading)?;
    taken(rt, reading, &out)
}

fn said(rt: &impl Print, reading: Result<Taken, Refusal>) -> io::Result<()> {
    print!(rt;
        " number {}, place {}, byte {:02x}, count {}",
        number_of(reading),
        place_of(reading),
        byte_of(reading),
        count_of(reading)
    )
}

fn taken(rt: &impl Print, reading: Result<Taken, Refusal>, out: &[u16]) -> io::Result<()> {
    print!(rt; ", values")?;
    for value in out.iter().take(values_taken(reading)) {
        print!(rt; " {value:03x}")?;
    }
    println!(rt)
}

// The same of the line of some bytes, which has two words for each and two more.
fn answer_of<const WORDS: usize>(rt: &impl Print, q: Question, bytes: &[u8]) -> io::Result<()>
    requires { WORDS < 64 }
{
    let mut line = [0; WORDS];
    let _ = put_line(bytes, &mut line);
    answer(rt, q, &line)
}

// Seed FFh and one device give 00h; HELLOALL's reading is the count on the line.
pub(crate) fn answers(rt: &impl Print) -> io::Result<()> {
    answer_of::<14>(rt, ask(READALL, 1, 0, 0), b"\x03\x12\x00\x00\x00\xBC")?;
    answer_of::<16>(
        rt,
        ask(READALL, 1, 1, 0xFF),
        b"\x03\x12\x00\x00\x00\xBC\x00",
    )?;
    answer_of::<16>(
        rt,
        ask(READALL, 1, 1, 0xFF),
        b"\x03\x12\x00\x00\x00\xBC\xFF",
    )?;
    answer_of::<8>(rt, ask(HELLOALL, 33, 0, 0), b"\x57\x00\x20")?;
    answer_of::<8>(rt, ask(HELLOALL, 1, 0, 0), b"\x57\x00\x21")?;
    answer(rt, ask(READALL, 1, 0, 0), &[])
}
