// The letters of a certificate (document 01, "Job file and certificate"; document 02, M-100): for each device that the last good write covers,
// whether an accepted read after it showed the value written, in the bits of the write's mask. One step an entry, on a small standing state
// that goes in and comes back by value.
#![tactic(auto)]

ghost use Rattle.std.specs.Prelude.{◌≡◌};
ghost use Rattle.letters.specs.Letters.{is_good_write, value_for, verdict, unheard, decided, hear_of, begun};
ghost use Rattle.letters.specs.Span.{span_of};

use masks::is_write;
use questions::question::{HELLOALL, Kind, Question, ask, is_good};
use readings::{Refusal, Taken};
use slices::element_or;
use std::ops::Range;

// The letters, as the certificate prints them.
pub const SAME: u8 = b'S';

pub const OTHER: u8 = b'O';

pub const UNHEARD: u8 = b'U';

// The last good write with its mask, or where there was none yet a question that covers no device; and a letter for each of 32 devices. A letter
// is the byte that is printed: `hear` takes any standing, and an enum of the three would ask more of whoever makes one.
#[derive(Clone, Copy)]
pub struct Standing {
    pub write: Question,
    pub mask: u16,
    pub letters: [u8; 32],
}

// Before the first entry.
pub fn begin() -> Standing
    ensures { result ≡ begun }
{
    all_unheard(ask(HELLOALL, 0, 0, 0, 0, 0, 0), 0)
}

// One entry: its question and mask, what the reader said of its answer, and the values handed out. A good write starts all its devices anew,
// and its mask is the one that counts; an accepted read decides; anything else leaves the letters as they stand.
pub fn hear(
    standing: Standing,
    q: Question,
    mask: u16,
    reading: Result<Taken, Refusal>,
    values: &[u16],
) -> Standing
    ensures { result ≡ hear_of standing q mask reading values.now }
{
    if is_good_write(q) {
        return all_unheard(q, mask);
    }
    let Ok(taken) = reading else {
        return standing;
    };
    let Taken::Values(_) = taken else {
        return standing;
    };
    decide(standing, q, values)
}

fn all_unheard(write: Question, mask: u16) -> Standing
    ensures { result ≡ unheard write mask }
{
    Standing {
        write,
        mask,
        letters: [UNHEARD; 32],
    }
}

#[tactic(auto, unfolding(crate::specs::Letters::is_good_write))]
fn is_good_write(q: Question) -> bool
    ensures { result ≡ is_good_write q }
{
    is_write(q.kind) && is_good(q)
}

// Of the values that a read handed out, a device's own: READALL's come in address order, READDEVICE has one; 0 where none was handed out.
#[tactic(auto, unfolding(crate::specs::Letters::value_for))]
fn value_for(q: Question, device: usize, values: &[u16]) -> u16
    ensures { result ≡ value_for q device values.now }
{
    match q.asks() {
        Kind::ReadAll => element_or(values, device, 0),
        _ => element_or(values, 0, 0),
    }
}

// S where the value is the one written in the bits of the mask, else O.
fn verdict_of(mask: u16, value: u16, written: u16) -> u8
    ensures { result ≡ verdict mask value written }
{
    if value & mask == written & mask {
        SAME
    } else {
        OTHER
    }
}

// An accepted read of the written register decides the devices that both it and the write cover, and looks at no other.
fn decide(standing: Standing, q: Question, values: &[u16]) -> Standing
    ensures { result ≡ decided standing q values.now }
{
    let write = standing.write;
    if q.reg != write.reg {
        return standing;
    }
    let mut letters = standing.letters;
    let asked = span_of(q);
    let written = span_of(write);
    let from = asked.start.max(written.start);
    let end = asked.end.min(written.end).min(32);
    for at in from..end {
        letters[at] = verdict_of(standing.mask, value_for(q, at, values), write.value);
    }
    Standing {
        letters,
        ..standing
    }
}

// The devices that a question covers, which stand together.
#[tactic(auto, using(questions::proofs::ByKind::asked), unfolding(crate::specs::Span::span_of))]
fn span_of(q: Question) -> Range<usize>
    ensures { result ≡ span_of q }
{
    let device = q.device as usize;
    match q.asks() {
        Kind::HelloAll => 0..0,
        Kind::WriteAll | Kind::ReadAll => 0..q.n as usize,
        Kind::WriteDevice | Kind::ReadDevice => device..device + 1,
    }
}
