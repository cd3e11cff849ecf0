// Devices stepped: each takes the line as it stands and hands on a line of equal length.
ghost use Rattle.std.specs.Prelude.{◌≡◌, ◌+◌, ◌*◌, ◌≤◌, ◌<◌, length};
ghost use Rattle.lines.specs.Write.{at_front};
ghost use Rattle.twin.specs.Step.{step_refusal_number, with_change, Hopped, is_span, StepDone, SpanDone, ChainDone};

use numbers::TurnedAway;
use passage::pass::{Store, pass};
use registers::is_chain;

// Why no device was stepped: row 15, TWIN, or row 2, ROOM.
#[derive(Clone, Copy, Debug, PartialEq, Eq)]
pub enum StepRefusal {
    Twin,
    Room,
}

impl TurnedAway for StepRefusal {
    ghost number = { step_refusal_number };

    fn number(self) -> u8 {
        match self {
            StepRefusal::Twin => 15,
            StepRefusal::Room => 2,
        }
    }
}

fn copy(line: &[u16], out: &mut [u16])
    requires { length line.now ≤ length out.old }
    ensures { out.new ≡ at_front line.now out.old }
{
    out[..line.len()].copy_from_slice(line);
}

// A device's register takes a new value, or none does: one word here, two bytes in `c_twin`.
fn keep(memory: &mut [u16], device: u8, change: Option<Store>)
    requires { 256 * device + 256 ≤ length memory.old }
    ensures { memory.new ≡ with_change memory.old device change }
{
    if let Some(Store { reg, value }) = change {
        memory[256 * device as usize + reg as usize] = value;
    }
}

// One device, on the words at the front of the output.
fn hop(n: u8, device: u8, memory: &mut [u16], words: usize, out: &mut [u16])
    requires { (256 * device + 256 ≤ length memory.old) × (words ≤ length out.old) }
    ensures { Hopped n device words memory.old memory.new out.old out.new }
{
    let start = 256 * device as usize;
    let end = start + 256;
    let change = pass(n, device, &memory[start..end], &mut out[..words]);
    keep(memory, device, change);
}

// Whether this is a chain, and devices from .. to - 1 are of it: all of them, some, or none.
fn is_span(n: u8, from: u8, to: u8, words: usize) -> bool
    ensures { result ≡ is_span n from to words }
{
    is_chain::<256>(n, words) && from <= to && to <= n
}

// The devices from one place of the chain to another, to - 1 the last, once each in address order. Turned away, nothing is written.
pub fn run_span(
    n: u8,
    from: u8,
    to: u8,
    memory: &mut [u16],
    line: &[u16],
    out: &mut [u16],
) -> Result<(), StepRefusal>
    ensures { SpanDone n from to memory.old memory.new line.now out.old out.new result }
{
    if !is_span(n, from, to, memory.len()) {
        return Err(StepRefusal::Twin);
    }
    if out.len() < line.len() {
        return Err(StepRefusal::Room);
    }
    copy(line, out);
    for device in from..to {
        hop(n, device, memory, line.len(), out);
    }
    Ok(())
}

// One device of the chain: the line as it hands it on at the front of the output, the rest as it was. Turned away, nothing is written.
pub fn step(
    n: u8,
    device: u8,
    memory: &mut [u16],
    line: &[u16],
    out: &mut [u16],
) -> Result<(), StepRefusal>
    ensures { StepDone n device memory.old memory.new line.now out.old out.new result }
{
    if n <= device {
        return Err(StepRefusal::Twin);
    }
    run_span(n, device, device + 1, memory, line, out)
}

// Every device of the chain once, in address order.
pub fn run_chain(
    n: u8,
    memory: &mut [u16],
    line: &[u16],
    out: &mut [u16],
) -> Result<(), StepRefusal>
    ensures { ChainDone n memory.old memory.new line.now out.old out.new result }
{
    run_span(n, 0, n, memory, line, out)
}
