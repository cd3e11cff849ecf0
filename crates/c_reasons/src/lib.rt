// Why an answer is turned away, over bytes (document 02, M-101; document 01, "The C side"): an odd number of bytes is as no line at all, LENGTH
// counts bytes, and for the C side the reason is packed into one number.
#![tactic(auto)]

ghost use Rattle.std.specs.Prelude.{◌≡◌};
ghost use Rattle.reasons.specs.declared.Spot.TheVariants.{Whole};
ghost use Rattle.c_reasons.specs.Explain.{counted_in, in_bytes, reason_on, how_placed, argument_of, place_of, is_one, right_of, sixteen, packed_because, packed_reason, packed_on};

use numbers::TurnedAway;
use packing::take_line;
use questions::question::{Question, shape_of};
use reasons::{Because, Field, Spot, explain};

// Why the reader takes a line of bytes or turns it away.
pub fn explain_bytes(q: Question, line: &[u8]) -> Result<(), Because>
    ensures { result ≡ reason_on q line.now }
{
    let mut words: [u16; 140] = [0; 140];
    let count = take_line(line, &mut words);
    let reason = explain(q, &words[..count]);
    in_bytes(q, line.len(), reason)
}

// The same as one number.
pub fn explain_packed(q: Question, line: &[u8]) -> u64
    ensures { result ≡ packed_on q line.now }
{
    let reason = explain_bytes(q, line);
    packed_reason(reason)
}

fn packed_reason(reason: Result<(), Because>) -> u64
    ensures { result ≡ packed_reason reason }
{
    match reason {
        Ok(()) => 0,
        Err(b) => packed_because(b),
    }
}

fn in_bytes(q: Question, bytes: usize, reason: Result<(), Because>) -> Result<(), Because>
    ensures { result ≡ in_bytes q bytes reason }
{
    match reason {
        Ok(()) => Ok(()),
        Err(b) => Err(counted_in(q, bytes, b)),
    }
}

// Of the line as a whole the bytes are told, not the words.
fn counted_in(q: Question, bytes: usize, b: Because) -> Because
    ensures { result ≡ counted_in q bytes b b.spot }
{
    let spot = b.spot;
    match spot {
        Spot::Whole => whole_in_bytes(q, bytes, b),
        Spot::Asked(_) | Spot::Word(_) | Spot::Byte(_) => b,
    }
}

fn whole_in_bytes(q: Question, bytes: usize, b: Because) -> Because
    ensures { result ≡ counted_in q bytes b Whole }
{
    let s = shape_of(q);
    let why = b.why;
    Because {
        why,
        spot: Spot::Whole,
        stood: bytes,
        right: Some(2 * s.words),
    }
}

// The C interface, as all numbers below: bits 0 to 7 the number, bits 8 to 10 how it is placed, bit 11 whether one thing alone would have passed, and three numbers of sixteen bits: the
// place, what stood, and the one thing.
fn packed_because(b: Because) -> u64
    ensures { result ≡ packed_because b }
{
    let spot = b.spot;
    let stood = b.stood;
    let right = b.right;
    let number = b.number();
    let how = how_placed(spot);
    let one = is_one(right);
    let place = sixteen(place_of(spot));
    let thing = sixteen(stood);
    let other = sixteen(right_of(right));
    number as u64
        + 256 * how
        + 2048 * one
        + 65536 * place
        + 4294967296 * thing
        + 281474976710656 * other
}

fn how_placed(spot: Spot) -> u64
    ensures { result ≡ how_placed spot }
{
    match spot {
        Spot::Asked(_) => 4,
        Spot::Whole => 3,
        Spot::Word(_) => 1,
        Spot::Byte(_) => 2,
    }
}

fn place_of(spot: Spot) -> usize
    ensures { result ≡ place_of spot }
{
    match spot {
        Spot::Asked(f) => argument_of(f),
        Spot::Whole => 0,
        Spot::Word(i) | Spot::Byte(i) => i,
    }
}

// A field as the argument of the C call, counted from 0.
fn argument_of(field: Field) -> usize
    ensures { result ≡ argument_of field }
{
    match field {
        Field::Kind => 0,
        Field::Alive => 2,
        Field::Devices => 1,
        Field::Device => 5,
    }
}

fn is_one(right: Option<usize>) -> u64
    ensures { result ≡ is_one right }
{
    match right {
        Some(_) => 1,
        None => 0,
    }
}

fn right_of(right: Option<usize>) -> usize
    ensures { result ≡ right_of right }
{
    match right {
        Some(thing) => thing,
        None => 0,
    }
}

// A number in sixteen bits: 65,535 for more.
fn sixteen(x: usize) -> u64
    ensures { result ≡ sixteen x }
{
    x.min(65535) as u64
}
