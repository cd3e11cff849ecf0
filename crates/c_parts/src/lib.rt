// The second call over bytes, for the C side (document 01, "Commands and answers" and "The C side"): where the part of a line stands that
// carries a device's register, packed into one number.
#![tactic(auto)]

ghost use Rattle.std.specs.Prelude.{◌≡◌};
ghost use Rattle.c_parts.specs.PartBytes.{part_in};

use packing::take_line;
use parts::part_start;
use questions::question::Question;

// The part has four words; where there is none, the number is 0.
pub fn part_bytes(q: Question, device: u8, line: &[u8]) -> u32
    ensures { result ≡ part_in q device line.now }
{
    let mut words: [u16; 140] = [0; 140];
    let count = take_line(line, &mut words);
    match part_start(q, &words[..count], device) {
        Some(start) => 4 + 65536 * start as u32,
        None => 0,
    }
}
