// A line's words looked through: the first bad place, and the framing (document 01, rows 4 to 6 of "Turned away").
#![tactic(auto)]

ghost use Rattle.std.specs.Prelude.{◌≡◌, ◌≤◌, ◌-◌, eqb, length, None, ℕ, Bool, ◌<◌, ◌^◌};
ghost use Rattle.characters.specs.Nibble.{is_nibble};
ghost use Rattle.scanning.specs.Place.{first_no_character, first_no_nibble, is_nowhere, all_nibbles};
ghost use Rattle.scanning.specs.Along.{failing_along};
ghost use Rattle.scanning.specs.Frame.{framed};

use character_check::is_character;
use characters::{PREAMBLE, STOP, is_nibble};

// What keeps a word from being a nibble's, by bits: high bits, start, stops and parity that are not as in one, and bits that are not followed by
// their complement. 0 for a nibble's word.
fn misfits(w: u16) -> u16
    ensures { eqb result 0 ≡ is_nibble w }
{
    ((w ^ 0xC00) & 0xFE01) | ((w ^ (w / 2) ^ 0xAA) & 0xAA)
}

// Whether every word from one place up to another is a nibble's. No word stops the loop, so that many are looked at at a time.
fn are_nibbles(line: &[u16], from: usize, to: usize) -> bool
    requires { to ≤ length line.now }
    ensures { result ≡ is_nowhere (failing_along is_nibble line.now from (to - from)) }
{
    // A slice `line[from..to]`, for a `fold` over it, would ask each caller for `from ≤ to` besides.
    let mut bad = 0;
    for i in from..to {
        bad |= misfits(line[i]);
    }
    bad == 0
}

// A place up to which all words are nibbles', sixteen at a time.
fn pass_nibbles(line: &[u16], from: usize, to: usize) -> usize
    requires { (from ≤ to) × (to ≤ length line.now) }
    ensures { (from ≤ result) × (result ≤ to) × (failing_along is_nibble line.now from (result - from) ≡ None) }
{
    // The answer is a place, which `chunks_exact` would have counted beside its blocks all the same.
    let mut i = from;
    while 16 <= to - i {
        if !are_nibbles(line, i, i + 16) {
            return i;
        }
        i += 16;
    }
    i
}

// The first place from one up to another whose word does not pass.
fn first_failing<F: Fn(u16) -> bool>(
    line: &[u16],
    passes: F,
    from: usize,
    to: usize,
) -> Option<usize>
    requires callable { F.IsAlwaysCallable passes }
    requires inside { to ≤ length line.now }
    ensures { (test : ℕ → Bool) → ((w : ℕ) (r : Bool) → w < 2 ^ 16 → F.post passes w r → r ≡ test w)
        → result ≡ failing_along test line.now from (to - from) }
{
    (from..to).find(|&i| !passes(line[i]))
}

// The first place whose word is no character, counted in words from 0. A nibble is a character: behind the first word, nibbles are passed over.
pub fn first_no_character(line: &[u16]) -> Option<usize>
    ensures { result ≡ first_no_character line.now }
{
    if line.is_empty() {
        return None;
    }
    if !is_character(line[0]) {
        return Some(0);
    }
    let from = pass_nibbles(line, 1, line.len());
    first_failing(line, is_character, from, line.len())
}

// The first place between the ends whose word is no nibble.
pub fn first_no_nibble(line: &[u16]) -> Option<usize>
    ensures { result ≡ first_no_nibble line.now }
{
    if line.len() < 2 {
        return None;
    }
    let end = line.len() - 1;
    let from = pass_nibbles(line, 1, end);
    first_failing(line, is_nibble, from, end)
}

// Whether every word between the ends is a nibble's.
pub fn all_nibbles(line: &[u16]) -> bool
    ensures { result ≡ all_nibbles line.now }
{
    if line.len() < 2 {
        return true;
    }
    are_nibbles(line, 1, line.len() - 1)
}

// Whether the first word is the preamble and the last the stop character.
pub fn is_framed(line: &[u16]) -> bool
    ensures { result ≡ framed line.now }
{
    if line.is_empty() {
        return false;
    }
    line[0] == PREAMBLE && line[line.len() - 1] == STOP
}
