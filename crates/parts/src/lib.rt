// The second call: the part of an accepted line that carries a named device's register (document 01, below "Commands and answers").
#![tactic(auto)]

ghost use Rattle.std.specs.Prelude.{◌≡◌};
ghost use Rattle.parts.specs.Part.{order_of, values_found, place_found, part_of};

use questions::question::{Kind, Question, is_covered};
use reader::read::read;
use readings::values_taken;

// The part of the line whose four characters carry this device's register, where the line is accepted; else an empty part.
pub fn register_part<'a>(q: Question, line: &'a [u16], device: u8) -> &'a [u16]
    ensures { result.now ≡ part_of q line.now device }
{
    let Some(start) = part_start(q, line, device) else {
        return &line[..0];
    };
    let end = start + 4;
    &line[start..end]
}

// The place of that part's first word, where there is such a part.
pub fn part_start(q: Question, line: &[u16], device: u8) -> Option<usize>
    ensures { result ≡ place_found q line.now device }
{
    let m = values_found(q, line);
    if m == 0 {
        return None;
    }
    if !is_covered(q, device) {
        return None;
    }
    let k = order_of(q, device);
    Some(5 + 4 * (m - 1 - k))
}

// How many values an accepted line carries: there is room for any answer's.
fn values_found(q: Question, line: &[u16]) -> usize
    ensures { result ≡ values_found q line.now }
{
    let mut values: [u16; 32] = [0; 32];
    values_taken(read(q, line, &mut values))
}

// How many devices with values in the answer stand below this one.
#[tactic(auto, unfolding(crate::specs::Part::order_of))]
fn order_of(q: Question, device: u8) -> usize
    ensures { result ≡ order_of q device }
{
    match q.asks() {
        Kind::ReadAll => device as usize,
        _ => 0,
    }
}
