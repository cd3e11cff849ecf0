// The worked numbers of commands: what the command writer writes.
use crate::show::bytes_on;
use commands::write_command;
use questions::question::{HELLOALL, Question, READALL, READDEVICE, WRITEALL, WRITEDEVICE};
use std::io;

// A question about register 12h.
pub(crate) fn ask(kind: u8, n: u8, alive: u8, seed: u8) -> Question {
    questions::question::ask(kind, n, alive, 0x12, 0x000F, 0, seed)
}

pub(crate) fn show_question(rt: &impl Print, q: Question) -> io::Result<()> {
    print!(rt;
        "kind {}, n {}, alive {}, seed {:02x}:",
        q.kind, q.n, q.alive, q.seed
    )
}

// The words and bytes of the command, or that its question or its room turned it away. There is room for 40 words.
fn command(rt: &impl Print, q: Question) -> io::Result<()> {
    print!(rt; "command of ")?;
    show_question(rt, q)?;
    let mut line = [0; 40];
    match write_command(q, &mut line) {
        Ok(n) => {
            print!(rt; " words {n},")?;
            bytes_on(rt, &line, n)?;
        }
        Err(why) => {
            print!(rt; " turned away, {why}")?;
        }
    }
    println!(rt)
}

// n 32 is good and 33 is not, HELLOALL excepted.
pub(crate) fn commands(rt: &impl Print) -> io::Result<()> {
    command(rt, ask(READALL, 1, 0, 0))?;
    command(rt, ask(READDEVICE, 1, 1, 0xFF))?;
    command(rt, ask(WRITEALL, 32, 1, 0xF0))?;
    command(rt, ask(WRITEDEVICE, 32, 0, 0))?;
    command(rt, ask(READALL, 32, 0, 0))?;
    command(rt, ask(READALL, 33, 0, 0))?;
    command(rt, ask(HELLOALL, 33, 0, 0))
}
