// What a line asks of a device, as far as its bytes and its length tell (document 01, "The twin").
#![tactic(auto)]

ghost use Rattle.std.specs.Prelude.{◌≡◌};
ghost use Rattle.hearing.specs.Hear.{is_place, kind_heard, carried, alive_place, alive_told, plainly, heard};

use lines::read::byte_at;
use questions::question::{
    HELLOALL, Question, READALL, READDEVICE, WRITEALL, WRITEDEVICE, ask, shape_of,
};

// Whether this is a device of a chain of 1 to 32.
pub fn is_place(n: u8, device: u8) -> bool
    ensures { result ≡ is_place n device }
{
    (1..=32).contains(&n) && device < n
}

// The kind that the first byte names to this device: its number, since a question is made of numbers.
#[tactic(auto, unfolding(crate::specs::Hear::kind_heard))]
fn kind_heard(device: u8, first: u8) -> u8
    ensures { result ≡ kind_heard device first }
{
    match first {
        0x57 => HELLOALL,
        0x02 => WRITEALL,
        _ if first as u16 == device as u16 * 8 + 4 => WRITEDEVICE,
        0x03 => READALL,
        _ => READDEVICE,
    }
}

// How many values the devices before this one have put in.
pub fn carried_by(kind: u8, device: u8) -> usize
    ensures { result ≡ carried kind device }
{
    if kind == READALL { device as usize } else { 0 }
}

// Where the alive byte stands: directly after the PEC.
fn alive_place(kind: u8, device: u8) -> usize
    ensures { result ≡ alive_place kind device }
{
    if kind <= WRITEDEVICE {
        5
    } else {
        4 + 2 * carried_by(kind, device)
    }
}

// The length tells whether alive is on.
#[tactic(auto, unfolding(crate::specs::Hear::alive_told))]
fn with_alive(q: Question, words: usize) -> Question
    ensures { result ≡ alive_told q words }
{
    if words == shape_of(q).words {
        q
    } else {
        Question { alive: 1, ..q }
    }
}

#[tactic(auto, unfolding(crate::specs::Hear::plainly))]
fn without_alive(n: u8, device: u8, line: &[u16]) -> Question
    ensures { result ≡ plainly n device line.now }
{
    let kind = kind_heard(device, byte_at(line, 0));
    let reg = byte_at(line, 1);
    let value = u16::from_le_bytes([byte_at(line, 2), byte_at(line, 3)]);
    let seed = byte_at(line, alive_place(kind, device));
    ask(kind, n, 0, reg, value, device, seed)
}

// The question that the line puts to this device. Its seed is the alive byte as it stands.
pub fn hear(n: u8, device: u8, line: &[u16]) -> Question
    ensures { result ≡ heard n device line.now }
{
    with_alive(without_alive(n, device, line), line.len())
}
