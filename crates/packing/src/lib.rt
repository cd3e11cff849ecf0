// Words as bytes, two bytes a word, low first (document 01, "Job file and certificate" and "The C side").
#![tactic(auto)]

ghost use Rattle.std.specs.Prelude.{◌≡◌, ◌+◌, ◌*◌, ◌/◌, ◌<◌, length, set, take};
ghost use Rattle.std.proofs.lemmas.List.Edits.{sets};
ghost use Rattle.packing.specs.Words.{word_at, words_of, as_bytes, with_word, LineTaken};

// The words of some bytes at the front of the lent words, as far as there is room; the rest stays. An odd last byte counts for nothing.
pub fn unpack(bytes: &[u8], out: &mut [u16])
    ensures { out.new ≡ sets out.old 0 (words_of bytes.now) }
{
    let words = (bytes.len() / 2).min(out.len());
    // Tried: `zip` with `bytes.chunks_exact(2)`. Of what an adapter of `iter_mut` wrote, nothing is known afterwards.
    for (k, word) in out[..words].iter_mut().enumerate() {
        *word = word_at(bytes, k);
    }
}

// A line's words at the front of the lent words, and how many there are. A line of an odd number of bytes, or of more words than are lent,
// is none: 0. So is a line of no words, and those that take lines read both alike: an `Option` would tell apart what `LineTaken` does not.
pub fn take_line(bytes: &[u8], words: &mut [u16]) -> usize
    ensures { LineTaken bytes.now words.old words.new result }
{
    if bytes.len() % 2 != 0 {
        return 0;
    }
    let count = bytes.len() / 2;
    if words.len() < count {
        return 0;
    }
    unpack(bytes, words);
    count
}

fn word_at(bytes: &[u8], k: usize) -> u16
    requires { 2 * k + 1 < length bytes.now }
    ensures { result ≡ word_at bytes.now k }
{
    join(bytes[2 * k], bytes[2 * k + 1])
}

pub fn join(low: u8, high: u8) -> u16
    ensures { result ≡ low + 256 * high }
{
    u16::from_le_bytes([low, high])
}

// The bytes of some words at the front of the lent bytes, as many words as there is room for; the rest stays, an odd last byte too.
pub fn pack(words: &[u16], out: &mut [u8])
    ensures { out.new ≡ sets out.old 0 (as_bytes (take (length out.old / 2) words.now)) }
{
    let fitting = words.len().min(out.len() / 2);
    for (k, &word) in words[..fitting].iter().enumerate() {
        put_bytes(out, k, word);
    }
}

fn put_bytes(out: &mut [u8], k: usize, word: u16)
    requires { 2 * k + 1 < length out.old }
    ensures { out.new ≡ with_word out.old k word }
{
    let [low, high] = word.to_le_bytes();
    out[2 * k] = low;
    out[2 * k + 1] = high;
}

// Bytes stored from a place on, as far as there is room; the rest stays.
pub fn store(out: &mut [u8], at: usize, bytes: &[u8])
    ensures { out.new ≡ sets out.old at bytes.now }
{
    if out.len() <= at {
        return;
    }
    let fitting = bytes.len().min(out.len() - at);
    // Tried: `copy_from_slice`. It leaves `memmove` to the linker of a firmware, which is promised that `memcpy` and `memset` are enough.
    for i in 0..fitting {
        out[at + i] = bytes[i];
    }
}
