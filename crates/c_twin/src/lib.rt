// The twin over bytes, for the C side (document 01, "The C side"): the register memory is 512 bytes a device, two bytes a word, low first; so is
// the line. A device needs words of its own registers and of the line alone, so that a call takes little of the stack. The answers are the rows'
// numbers, as C takes them.
#![tactic(auto)]

ghost use Rattle.std.specs.Prelude.{◌≡◌, true, ◌+◌, ◌*◌, ◌%◌, ◌≤◌, length};
ghost use Rattle.std.proofs.lemmas.List.Edits.{sets};
ghost use Rattle.packing.specs.Words.{words_of, as_bytes};
ghost use Rattle.registers.specs.Memory.{power_on_memory};
ghost use Rattle.twin.specs.Step.{with_change, chain_with, hop, hops_from};
ghost use Rattle.c_twin.specs.TwinBytes.{chain_in, chain_on, PowerBytesDone, StepBytesDone, RunBytesDone, BytesDone, InPlace, HoppedBytes};

use packing::{pack, store, take_line, unpack};
use passage::pass::{Store, pass};
use registers::{is_chain, power_on};

// How many bytes a device's registers take.
const DEVICE: u16 = 512;

// Devices from .. to - 1 of a chain of n.
#[derive(Clone, Copy)]
struct Span {
    n: u8,
    from: u8,
    to: u8,
    ghost within: { (from ≤ to) × (to ≤ n) },
}

// Power-on: the whole memory is filled, or, turned away by row 15, TWIN, left as it was.
pub fn power_on_bytes(n: u8, memory: &mut [u8]) -> u32
    ensures { PowerBytesDone n memory.old memory.new result }
{
    if !is_chain::<DEVICE>(n, memory.len()) {
        return 15;
    }
    switch_on(n, memory);
    0
}

// One device alone: TWIN, then ROOM, then LENGTH for a line of an odd number of bytes; else the line as the device hands it on at the front of
// the output, and its registers changed. Turned away, no byte is written.
pub fn step_bytes(n: u8, device: u8, memory: &mut [u8], line: &[u8], out: &mut [u8]) -> u32
    ensures { StepBytesDone n device memory.old memory.new line.now out.old out.new result }
{
    if n <= device {
        return 15;
    }
    let one = Span {
        n,
        from: device,
        to: device + 1,
    };
    span_bytes(one, memory, line, out)
}

// Every device of the chain once, in address order.
pub fn run_bytes(n: u8, memory: &mut [u8], line: &[u8], out: &mut [u8]) -> u32
    ensures { RunBytesDone n memory.old memory.new line.now out.old out.new result }
{
    let all = Span { n, from: 0, to: n };
    span_bytes(all, memory, line, out)
}

// The devices of a span, once each in address order, with the rows in their order.
fn span_bytes(span: Span, memory: &mut [u8], line: &[u8], out: &mut [u8]) -> u32
    ensures { BytesDone (chain_in span.n (length memory.old)) (hops_from span.n span.from span.to (chain_on memory.old line.now)) memory.old memory.new line.now out.old out.new result }
{
    if !is_chain::<DEVICE>(span.n, memory.len()) {
        return 15;
    }
    if out.len() / 2 < line.len() / 2 {
        return 2;
    }
    if line.len() % 2 != 0 {
        return 3;
    }
    // No command has more than 140 words: such a line goes out as it came.
    if 280 < line.len() {
        store(out, 0, line);
        return 0;
    }
    hop_bytes(span, memory, line, out);
    0
}

// The steps themselves, of a line that may be a command.
fn hop_bytes(span: Span, memory: &mut [u8], line: &[u8], out: &mut [u8])
    requires { (chain_in span.n (length memory.old) ≡ true) × (length line.now % 2 ≡ 0) × (length line.now ≤ 280) × (length line.now ≤ length out.old) }
    ensures { HoppedBytes (hops_from span.n span.from span.to (chain_on memory.old line.now)) memory.new out.old out.new }
{
    let mut words = [0u16; 140];
    let count = take_line(line, &mut words);
    hops_in_place(span, memory, &mut words[..count]);
    pack(&words[..count], out);
}

// Device after device, the line's words in place.
fn hops_in_place(span: Span, memory: &mut [u8], line: &mut [u16])
    requires { 512 * span.to ≤ length memory.old }
    ensures { InPlace (hops_from span.n span.from span.to (chain_with (words_of memory.old) line.old)) memory.new line.new }
{
    for device in span.from..span.to {
        hop_in_place(span.n, device, memory, line);
    }
}

// One device, on words of its own registers.
fn hop_in_place(n: u8, device: u8, memory: &mut [u8], line: &mut [u16])
    requires { 512 * device + 512 ≤ length memory.old }
    ensures { InPlace (hop n device (chain_with (words_of memory.old) line.old)) memory.new line.new }
{
    let start = 512 * device as usize;
    let end = start + 512;
    let mut registers = [0u16; 256];
    unpack(&memory[start..end], &mut registers);
    let change = pass(n, device, &registers, line);
    keep(memory, device, change);
}

// A device's register takes a new value, or none does: two bytes here, one word in `twin`. One function for both would need a trait for one store.
fn keep(memory: &mut [u8], device: u8, change: Option<Store>)
    requires { 512 * device + 512 ≤ length memory.old }
    ensures { words_of memory.new ≡ with_change (words_of memory.old) device change }
{
    if let Some(Store { reg, value }) = change {
        put_words(memory, 256 * device as usize + reg as usize, &[value]);
    }
}

// Every device's registers as one device's are after power-on.
fn switch_on(n: u8, memory: &mut [u8])
    requires { chain_in n (length memory.old) ≡ true }
    ensures { memory.new ≡ as_bytes (power_on_memory n) }
{
    let mut words = [0u16; 256];
    // 256 words are a chain of one device, which is not turned away.
    let _ = power_on(1, &mut words);
    for device in 0..n {
        put_words(memory, 256 * device as usize, &words);
    }
}

// Words in their places in memory, from one on.
fn put_words(memory: &mut [u8], at: usize, words: &[u16])
    requires { 2 * (at + length words.now) ≤ length memory.old }
    ensures { memory.new ≡ sets memory.old (2 * at) (as_bytes words.now) }
{
    let start = 2 * at;
    pack(words, &mut memory[start..]);
}
