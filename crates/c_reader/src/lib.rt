// The reader over bytes, for the C side (document 01, "The C side"): a word is two bytes, low first, in the line and in the output, and the
// answer is packed into one number.
#![tactic(auto)]

ghost use Rattle.std.specs.Prelude.{◌≡◌};
ghost use Rattle.c_reader.specs.ReadBytes.{ReadBytesDone};

use packing::{pack, take_line};
use questions::question::Question;
use reader::read::read;
use readings::{packed_reading, values_taken};

// Takes an answer or turns it away. A read's values go to the front of the lent bytes; turned away, no byte is written.
pub fn read_bytes(q: Question, line: &[u8], out: &mut [u8]) -> u32
    ensures { ReadBytesDone q line.now out.old out.new result }
{
    let mut words: [u16; 140] = [0; 140];
    let count = take_line(line, &mut words);
    let mut values: [u16; 32] = [0; 32];
    // No answer has more than 32 values; an odd last byte counts for no room.
    let room = (out.len() / 2).min(32);
    let reading = read(q, &words[..count], &mut values[..room]);
    let taken = values_taken(reading);
    pack(&values[..taken], out);
    packed_reading(reading)
}
