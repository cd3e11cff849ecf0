// The explaining program: a question and a line on standard input, and on standard output whether the reader accepts the line, or why it turns it away.
// The input is one byte, the question's size; the question's numbers; then the line's bytes. What is no such input is told by `R 14` alone.
#![tactic(auto)]

mod show;

use c_reasons::explain_bytes;
use intake::{job_memory, take_in};
use numbers::TurnedAway;
use packing::join;
use questions::question::{Question, ask};
use reasons::{Because, Spot};
use show::{Place, Quantity};
use std::io;

// The memory has one byte more, so that a longer input shows.
const MOST_BYTES: usize = 65536;

fn would_have_passed(rt: &impl Print, spot: Spot, right: Option<usize>) -> io::Result<()> {
    match right {
        Some(n) => println!(rt; "only {} would have passed", Quantity { spot, n }),
        None => Ok(()),
    }
}

fn tell(rt: &impl Print, b: Because) -> io::Result<()> {
    let number = b.number();
    let Because {
        why,
        spot,
        stood,
        right,
    } = b;
    println!(rt; "turned away: {number} {why}")?;
    println!(rt; "at {}", Place(spot))?;
    println!(rt; "stood {}", Quantity { spot, n: stood })?;
    would_have_passed(rt, spot, right)
}

fn say(rt: &impl Print, reason: Result<(), Because>) -> io::Result<()> {
    match reason {
        Ok(()) => println!(rt; "accepted"),
        Err(b) => tell(rt, b),
    }
}

// The question and the line of an input: the question's size, its numbers in the order of the C calls, and behind them the line.
fn question_and_line(input: &[u8]) -> Option<(Question, &[u8])> {
    let [8, kind, n, alive, reg, low, high, device, seed, line @ ..] = input else {
        return None;
    };
    let value = join(*low, *high);
    Some((ask(*kind, *n, *alive, *reg, value, *device, *seed), line))
}

fn answer(rt: &impl Print, input: &[u8]) -> io::Result<()> {
    match question_and_line(input) {
        Some((q, line)) if input.len() <= MOST_BYTES => say(rt, explain_bytes(q, line)),
        _ => println!(rt; "R 14"),
    }
}

fn main(rt: HostRuntime) -> io::Result<()> {
    let mut memory = job_memory();
    let n = take_in(&mut rt.stdin(), &mut memory);
    answer(&rt, &memory[..n])
}
