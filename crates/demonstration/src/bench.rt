// A question put to three devices: written out as a command, stepped through the chain, and read back.
use crate::show::{bytes_on, values};
use commands::write_command;
use numbers::TurnedAway;
use questions::question::Question;
use reader::read::read;
use readings::{Refusal, Taken};
use std::io;
use twin::step::run_chain;

// Register 12h of three devices; the alive byte is on and starts at FEh, so that it wraps on the way.
pub(crate) fn ask(kind: u8, device: u8, value: u16) -> Question {
    questions::question::ask(kind, 3, 1, 0x12, value, device, 0xFE)
}

// A READALL of three devices has 24 words, and no command here has more.
const MOST_WORDS: usize = 24;

fn say(rt: &impl Print, reading: Result<Taken, Refusal>, out: &[u16]) -> io::Result<()> {
    match reading {
        Ok(Taken::Counted(count)) => println!(rt; "accepted: {count} devices answer"),
        Ok(Taken::Written) => println!(rt;
            "accepted: the chain has had the write; whether it holds, a read must tell"
        ),
        Ok(Taken::Values(_)) => {
            print!(rt; "accepted: from device 0 up,")?;
            values(rt, out)?;
            println!(rt)
        }
        Err(why) => println!(rt; "turned away, number {}", why.number()),
    }
}

fn read_back(rt: &impl Print, q: Question, answer: &[u16]) -> io::Result<()> {
    print!(rt; "  came back")?;
    bytes_on(rt, answer)?;
    let mut out = [0; 3];
    let reading = read(q, answer, &mut out);
    print!(rt; "  reader    ")?;
    say(rt, reading, &out)
}

// Noise: bits of the sixth character turn over.
fn turn_over(line: &mut [u16], bits: u16) {
    if let Some(word) = line.get_mut(5) {
        *word ^= bits;
    }
}

// The chain's answer to a command.
fn through_the_chain(
    rt: &impl Print,
    q: Question,
    line: &[u16],
    memory: &mut [u16],
) -> io::Result<()> {
    let mut back = [0; MOST_WORDS];
    let Ok(()) = run_chain(3, memory, line, &mut back) else {
        return println!(rt; "  the chain turns the call away");
    };
    let Some(answer) = back.get(..line.len()) else {
        return Ok(());
    };
    read_back(rt, q, answer)
}

// What is sent, what noise makes of it, and what comes of it.
fn send(
    rt: &impl Print,
    q: Question,
    noise: u16,
    line: &mut [u16],
    memory: &mut [u16],
) -> io::Result<()> {
    print!(rt; "  sent     ")?;
    bytes_on(rt, line)?;
    turn_over(line, noise);
    through_the_chain(rt, q, line, memory)
}

pub(crate) fn bench(
    rt: &impl Print,
    title: &str,
    q: Question,
    noise: u16,
    memory: &mut [u16],
) -> io::Result<()> {
    println!(rt; "\n{title}")?;
    let mut line = [0; MOST_WORDS];
    let Ok(words) = write_command(q, &mut line) else {
        return Ok(());
    };
    let Some(command) = line.get_mut(..words) else {
        return Ok(());
    };
    send(rt, q, noise, command, memory)
}
