// What stands on a line: its bytes.
ghost use Rattle.std.specs.Prelude.{◌≡◌, ℕ, ◌+◌, ◌*◌, ◌≤◌, ◌<◌, length, get_or};
ghost use Rattle.std.proofs.lemmas.List.Edits.{sets};
ghost use Rattle.ground.specs.Sweep.{tabulated};
ghost use Rattle.characters.specs.Nibble.{true_bits};
ghost use Rattle.lines.specs.Line.{byte_at, bytes_of};
ghost use Rattle.lines.specs.Nibbles.{nibble_in, two_of};

use characters::true_bits;
use slices::element_or;

// Byte i of a line; a word past the end reads as 0.
pub fn byte_at(line: &[u16], i: usize) -> u8
    ensures { result ≡ byte_at line.now i }
{
    if line.len() <= i {
        return 0;
    }
    let low = element_or(line, 1 + 2 * i, 0);
    let high = element_or(line, 2 + 2 * i, 0);
    two_nibbles(low, high)
}

// How many bytes a line has between its ends.
fn byte_count(line: &[u16]) -> usize
    ensures { result ≡ length (bytes_of line.now) }
{
    if line.len() < 2 {
        return 0;
    }
    (line.len() - 2) / 2
}

// A line's bytes at the front of the lent bytes, as far as there is room; the rest stays. They are read part by part; the longest answer has 69
// bytes, and is one.
pub fn read_bytes(line: &[u16], out: &mut [u8])
    ensures { out.new ≡ sets out.old 0 (bytes_of line.now) }
{
    let many = byte_count(line).min(out.len());
    // The last part is shorter, and a part's words begin behind the first word: chunks of the line and of the lent bytes would have to be cut to that
    // first.
    let mut k = 0;
    while k < many {
        let part = (many - k).min(72);
        let start = 1 + 2 * k;
        read_part(&line[start..start + 2 * part], &mut out[k..k + part]);
        k += part;
    }
}

// The bytes that some words carry, as many as are lent: first each word's nibble, then the nibbles two by two, low nibble first. In neither loop
// does a place look at another's answer, so a compiler takes many at a time.
fn read_part(words: &[u16], out: &mut [u8])
    requires { (length words.now ≡ 2 * length out.old) × (length out.old ≤ 72) }
    ensures { out.new ≡ tabulated (two_of (nibble_in words.now)) (length out.old) 0 }
{
    let mut nibbles = [0; 144];
    let end = words.len();
    put_nibbles(words, &mut nibbles[..end]);
    join_nibbles(&nibbles[..end], out);
}

// The nibble of each word.
fn put_nibbles(words: &[u16], out: &mut [u8])
    requires { length out.old ≡ length words.now }
    ensures { out.new ≡ tabulated (nibble_in words.now) (length words.now) 0 }
{
    // Tried: `out.iter_mut().zip(words)`. Of what an adapter of `iter_mut` wrote, nothing is known afterwards.
    for (k, &word) in words.iter().enumerate() {
        out[k] = true_bits(word);
    }
}

// The bytes of some nibbles, two by two.
fn join_nibbles(nibbles: &[u8], out: &mut [u8])
    requires { (length nibbles.now ≡ 2 * length out.old) × ((k : ℕ) → get_or nibbles.now k 0 < 16) }
    ensures { out.new ≡ tabulated (two_of (λ i. get_or nibbles.now i 0)) (length out.old) 0 }
{
    for (k, byte) in out.iter_mut().enumerate() {
        *byte = joined(nibbles[2 * k], nibbles[2 * k + 1]);
    }
}

// The byte of two nibbles. Both stand in one number, of which the high one is shifted down: so a loop over pairs of bytes reads them as one.
fn joined(low: u8, high: u8) -> u8
    requires { (low < 16) × (high < 16) }
    ensures { result ≡ low + 16 * high }
{
    let both = low as u16 + 256 * high as u16;
    ((both | both / 16) & 0xFF) as u8
}

// The byte of two characters, low nibble first.
fn two_nibbles(low: u16, high: u16) -> u8
    ensures { result ≡ true_bits low + 16 * true_bits high }
{
    true_bits(low) + 16 * true_bits(high)
}
