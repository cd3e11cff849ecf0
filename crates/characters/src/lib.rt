// One character of the line, a word of 16 bits (document 01, "The line"; data sheet 004, Table 20).
#![tactic(auto)]

ghost use Rattle.std.specs.Prelude.{◌≡◌};
ghost use Rattle.characters.specs.Nibble.{nibble_word, true_bits, is_nibble};

// The preamble carries data 15h, the stop character 54h.
pub const PREAMBLE: u16 = 0xE2A;

pub const STOP: u16 = 0xEA8;

// The word of a nibble, taken from the four lowest bits of n: each of them at a data bit of its own, and its complement in the next. Nibble 0
// has D54h, and each bit that is set moves a one down by one place.
pub fn word_of(n: u8) -> u16
    ensures { result ≡ nibble_word n }
{
    let nibble = (n % 16) as u16;
    let pairs = (nibble | nibble * 4) & 0x33;
    let singles = (pairs | pairs * 2) & 0x55;
    0xD54 - 2 * singles
}

// The four data bits that are not complements, of any word, brought together two by two.
pub fn true_bits(w: u16) -> u8
    ensures { result ≡ true_bits w }
{
    let singles = (w / 2) & 0x55;
    let pairs = (singles | singles / 2) & 0x33;
    ((pairs | pairs / 4) & 0xF) as u8
}

// Whether a word is the word of a nibble: framed, with no parity bit (four of its data bits are set) and no high bits, and each bit followed by
// its complement.
pub fn is_nibble(w: u16) -> bool
    ensures { result ≡ is_nibble w }
{
    if w & 0xFE01 != 0xC00 {
        return false;
    }
    (w ^ (w / 2)) & 0xAA == 0xAA
}
