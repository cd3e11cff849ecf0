// The command writer over bytes, for the C side (document 01, "The C side"): the command's words go out as two bytes each, low first, and the
// answer is packed into one number. The bytes are laid straight into the lent ones, with no line of words in between.
#![tactic(auto)]

ghost use Rattle.std.specs.Prelude.{◌≡◌, ◌∷◌, [], ◌++◌, ◌+◌, ◌*◌, ◌/◌, ◌%◌, ◌≤◌, length};
ghost use Rattle.characters.specs.Nibble.{nibble_word};
ghost use Rattle.lines.specs.Line.{characters_of, line_of};
ghost use Rattle.questions.specs.Bytes.{fill_pairs};
ghost use Rattle.c_commands.specs.CommandBytes.{laid, CommandBytesDone};

use characters::{PREAMBLE, STOP};
use heads::head_of;
use questions::question::{Question, is_good, shape_of};

// The command at the front of the lent bytes, the rest as it was; turned away, no byte is written. An odd last byte counts for no room. The
// answer is one packed number, as C takes it.
pub fn command_bytes(q: Question, out: &mut [u8]) -> u32
    ensures { CommandBytesDone q out.old out.new result }
{
    if !is_good(q) {
        return 1;
    }
    let shape = shape_of(q);
    let words = shape.words;
    if out.len() / 2 < words {
        return 2;
    }
    let head = head_of(q);
    let pairs = shape.values;
    lay_line(head.taken(), pairs, out);
    65536 * words as u32
}

// The line of some bytes with fill pairs behind them.
fn lay_line(head: &[u8], pairs: usize, out: &mut [u8])
    requires { (length head.now ≤ 6) × (pairs ≤ 32) × (4 * length head.now + 8 * pairs + 4 ≤ length out.old) }
    ensures { out.new ≡ laid out.old 0 (line_of (head.now ++ fill_pairs pairs)) }
{
    lay_word(out, 0, PREAMBLE);
    lay_bytes(head, out);
    let start = 4 * head.len() + 2;
    lay_pairs(out, start, pairs);
    lay_word(out, start + 8 * pairs, STOP);
}

// The characters of some bytes, behind the preamble.
fn lay_bytes(bytes: &[u8], out: &mut [u8])
    requires { 4 * length bytes.now + 2 ≤ length out.old }
    ensures { out.new ≡ laid out.old 2 (characters_of bytes.now) }
{
    for (i, &byte) in bytes.iter().enumerate() {
        lay_byte(out, 4 * i + 2, byte);
    }
}

// A byte's two characters, low nibble first.
fn lay_byte(out: &mut [u8], at: usize, byte: u8)
    requires { at + 4 ≤ length out.old }
    ensures { out.new ≡ laid out.old at (characters_of (byte ∷ [])) }
{
    let both = two_words(byte);
    lay_word(out, at, (both % 65536) as u16);
    lay_word(out, at + 2, (both / 65536) as u16);
}

// The characters of both nibbles of a byte, the low nibble's in the lower half: as `word_of` spreads one nibble, with both spread at once.
fn two_words(byte: u8) -> u32
    ensures { result ≡ nibble_word (byte % 16) + 65536 * nibble_word (byte / 16) }
{
    let x = byte as u32;
    let apart = (x | x * 4096) & 0xF000F;
    let pairs = (apart | apart * 4) & 0x330033;
    let singles = (pairs | pairs * 2) & 0x550055;
    0xD540D54 - 2 * singles
}

fn lay_word(out: &mut [u8], at: usize, word: u16)
    requires { at + 2 ≤ length out.old }
    ensures { out.new ≡ laid out.old at (word ∷ []) }
{
    let [low, high] = word.to_le_bytes();
    out[at] = low;
    out[at + 1] = high;
}

// So many fill pairs, from a place on.
fn lay_pairs(out: &mut [u8], start: usize, pairs: usize)
    requires { (pairs ≤ 32) × (start + 8 * pairs ≤ length out.old) }
    ensures { out.new ≡ laid out.old start (characters_of (fill_pairs pairs)) }
{
    for k in 0..pairs {
        lay_pair(out, start + 8 * k);
    }
}

// One fill pair, C2 D3: the words of nibbles 2, C, 3, D, written out so that the eight stores become one.
fn lay_pair(out: &mut [u8], at: usize)
    requires { at + 8 ≤ length out.old }
    ensures { out.new ≡ laid out.old at (characters_of (fill_pairs 1)) }
{
    out[at] = 0x4C;
    out[at + 1] = 0x0D;
    out[at + 2] = 0xB4;
    out[at + 3] = 0x0C;
    out[at + 4] = 0x4A;
    out[at + 5] = 0x0D;
    out[at + 6] = 0xB2;
    out[at + 7] = 0x0C;
}
