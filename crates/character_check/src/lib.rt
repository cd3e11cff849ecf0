// Whether a word is a character at all: row 4 of document 01's "Turned away", of one word.
#![tactic(auto)]

ghost use Rattle.std.specs.Prelude.{◌≡◌};
ghost use Rattle.character_check.specs.Check.{is_character};
ghost use Rattle.character_check.specs.Fault.{checked_of};

// The check of one character: high bits, start and stops, parity. Start and stops are an even number of set bits, so that parity is even over
// the whole word where it is even over data and parity bit.
pub fn is_character(w: u16) -> bool
    ensures { result ≡ is_character w }
{
    if w & 0xFC01 != 0xC00 {
        return false;
    }
    w.count_ones() % 2 == 0
}

// What is wrong with a word, in the order in which it is looked for: a bit above the stops is set, the start bit is 1, a stop bit is 0, parity is
// odd.
#[derive(Clone, Copy, Debug, PartialEq, Eq)]
pub enum Fault {
    HighBits,
    Start,
    Stop,
    Parity,
}

// Whether a word is a character, or which fault it has first. Where parity is looked at, start and stops are an even number of set bits.
pub fn check(w: u16) -> Result<(), Fault>
    ensures { result ≡ checked_of w }
{
    if w / 4096 != 0 {
        return Err(Fault::HighBits);
    }
    if w % 2 != 0 {
        return Err(Fault::Start);
    }
    if w / 1024 % 4 != 3 {
        return Err(Fault::Stop);
    }
    if w.count_ones() % 2 != 0 {
        return Err(Fault::Parity);
    }
    Ok(())
}
