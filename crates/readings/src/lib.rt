// What the reader says, in the words of document 01's table "Turned away".
#![tactic(auto)]

ghost use Rattle.std.specs.Prelude.{◌≡◌};
ghost use Rattle.readings.specs.Reading.{refusal_number, refusal_place, refusal_byte, place_of, byte_of, count_of, values_taken};
ghost use Rattle.readings.specs.Packed.{packed_reading};

use numbers::{TurnedAway, number_of};
use std::fmt;

// Why a line is turned away: rows 1 to 11, in their order; a place or a byte where the row has one.
#[derive(Clone, Copy, Debug, PartialEq, Eq)]
pub enum Refusal {
    Question,
    Room,
    Length,
    Character(usize),
    Frame,
    Manchester(usize),
    Echo,
    Pec,
    Alive,
    Check(u8),
    Count(u8),
}

// What is taken of a line: HELLOALL's count; a write's echo; how many values were handed out.
#[derive(Clone, Copy, Debug, PartialEq, Eq)]
pub enum Taken {
    Counted(u8),
    Written,
    Values(usize),
}

impl TurnedAway for Refusal {
    ghost number = { refusal_number };

    fn number(self) -> u8 {
        match self {
            Refusal::Question => 1,
            Refusal::Room => 2,
            Refusal::Length => 3,
            Refusal::Character(_) => 4,
            Refusal::Frame => 5,
            Refusal::Manchester(_) => 6,
            Refusal::Echo => 7,
            Refusal::Pec => 8,
            Refusal::Alive => 9,
            Refusal::Check(_) => 10,
            Refusal::Count(_) => 11,
        }
    }
}

// Document 01's name of the row.
impl fmt::Display for Refusal {
    fn fmt<W: fmt::Write>(&self, f: &mut fmt::Formatter<W>) -> fmt::Result {
        f.write_str(match self {
            Refusal::Question => "QUESTION",
            Refusal::Room => "ROOM",
            Refusal::Length => "LENGTH",
            Refusal::Character(_) => "CHARACTER",
            Refusal::Frame => "FRAME",
            Refusal::Manchester(_) => "MANCHESTER",
            Refusal::Echo => "ECHO",
            Refusal::Pec => "PEC",
            Refusal::Alive => "ALIVE",
            Refusal::Check(_) => "CHECK",
            Refusal::Count(_) => "COUNT",
        })
    }
}

impl Refusal {
    // The place of a row that has one, else 0.
    fn place(self) -> usize
        ensures { result ≡ refusal_place self }
    {
        match self {
            Refusal::Character(i) | Refusal::Manchester(i) => i,
            _ => 0,
        }
    }

    // The byte of a row that has one, else 0.
    fn byte(self) -> u8
        ensures { result ≡ refusal_byte self }
    {
        match self {
            Refusal::Check(b) | Refusal::Count(b) => b,
            _ => 0,
        }
    }
}

// The place of a reading that has one, else 0.
pub fn place_of(reading: Result<Taken, Refusal>) -> usize
    ensures { result ≡ place_of reading }
{
    match reading {
        Err(why) => why.place(),
        Ok(_) => 0,
    }
}

// The byte of a reading that has one, else 0.
pub fn byte_of(reading: Result<Taken, Refusal>) -> u8
    ensures { result ≡ byte_of reading }
{
    match reading {
        Err(why) => why.byte(),
        Ok(_) => 0,
    }
}

// HELLOALL's count, else 0.
pub fn count_of(reading: Result<Taken, Refusal>) -> u8
    ensures { result ≡ count_of reading }
{
    match reading {
        Ok(Taken::Counted(n)) => n,
        _ => 0,
    }
}

// How many values a reading hands out.
pub fn values_taken(reading: Result<Taken, Refusal>) -> usize
    ensures { result ≡ values_taken reading }
{
    match reading {
        Ok(Taken::Values(m)) => m,
        _ => 0,
    }
}

// A reading as one number, for the C interface: bits 0 to 7 the number; bits 8 to 15 the byte, or the count; bits 16 to 31 the place, or how many
// values were written.
pub fn packed_reading(reading: Result<Taken, Refusal>) -> u32
    ensures { result ≡ packed_reading reading }
{
    let byte = byte_of(reading);
    let count = count_of(reading);
    let place = place_of(reading);
    let values = values_taken(reading);
    let upper = (place + values) % 65536;
    number_of(reading) as u32 + 256 * (byte as u32 + count as u32) + 65536 * upper as u32
}
