// How many sets of one, two or three different bits have syndromes that xor to a wanted one. Each set is counted once, as its bits are taken
// in order: behind each bit come those that stand behind it. There are at most 520 bits, so that no sum wraps.
ghost use Rattle.std.specs.Prelude.{◌≤◌, ◌*◌, length};

// Each bit is added as 1 or 0, and not filtered and counted: so a compiler takes many at a time.
fn singles(bits: &[u8], wanted: u8) -> usize
    ensures { result ≤ length bits.now }
{
    bits.iter().map(|bit| usize::from(*bit == wanted)).sum()
}

pub(crate) fn pairs(bits: &[u8], wanted: u8) -> usize
    requires { length bits.now ≤ 520 }
    ensures { result ≤ 520 * length bits.now }
{
    let mut count = 0;
    for (i, bit) in bits.iter().enumerate() {
        count += singles(&bits[i + 1..], wanted ^ *bit);
    }
    count
}

// The triples of bits whose syndromes xor to 0.
pub(crate) fn triples(bits: &[u8]) -> usize
    requires { length bits.now ≤ 520 }
{
    let mut count = 0;
    for (i, bit) in bits.iter().enumerate() {
        count += pairs(&bits[i + 1..], *bit);
    }
    count
}
