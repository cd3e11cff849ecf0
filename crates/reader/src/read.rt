// The reader's call.
ghost use Rattle.std.specs.Prelude.{◌≡◌, ◌+◌, ◌*◌, ◌≤◌, ◌<◌, length, get_or, Ok};
ghost use Rattle.lines.specs.Write.{at_front};
ghost use Rattle.contents.specs.InOrder.{judge_bytes};
ghost use Rattle.readings.specs.Reading.{values_taken};
ghost use Rattle.judging.specs.Judge.{screen_of};
ghost use Rattle.reader.specs.Read.{ReadDone, ReadOff, Carried, values_in};

use contents::judge_bytes;
use judging::screen;
use lines::read::read_bytes;
use packing::join;
use questions::question::Question;
use readings::{Refusal, Taken, values_taken};

// Takes an answer or turns it away. A read's values go to the front of the output in address order, lowest first, and the rest stays.
pub fn read(q: Question, line: &[u16], out: &mut [u16]) -> Result<Taken, Refusal>
    ensures { ReadDone q line.now out.old out.new result }
{
    screen(q, line, out.len())?;
    read_passed(q, line, out)
}

// A line that rows 1 to 6 let pass. Its bytes are read off it once, for the other rows and for the values.
fn read_passed(q: Question, line: &[u16], out: &mut [u16]) -> Result<Taken, Refusal>
    requires { screen_of q line.now (length out.old) ≡ Ok tt }
    ensures { ReadDone q line.now out.old out.new result }
{
    // Places enough for the longest answer's 69 bytes.
    let mut bytes = [0; 72];
    let count = (line.len() - 2) / 2;
    read_bytes(line, &mut bytes[..count]);
    read_off(q, &bytes[..count], out)
}

// What rows 7 to 11 say of an answer's bytes, and the values that these carry.
fn read_off(q: Question, bytes: &[u8], out: &mut [u16]) -> Result<Taken, Refusal>
    requires { Carried bytes.now (values_taken (judge_bytes q bytes.now)) (length out.old) }
    ensures { ReadOff q bytes.now out.old out.new result }
{
    let reading = judge_bytes(q, bytes);
    put_values(bytes, values_taken(reading), out);
    reading
}

// The m values that an answer's bytes carry, at the front of the output: the highest address comes first in the bytes, the lowest in the output.
fn put_values(bytes: &[u8], m: usize, out: &mut [u16])
    requires { Carried bytes.now m (length out.old) }
    ensures { out.new ≡ at_front (values_in bytes.now m) out.old }
{
    for k in 0..m {
        out[k] = value_in(bytes, m, k);
    }
}

// Of m values, the one that stands k devices from the lowest: low byte, high byte.
fn value_in(bytes: &[u8], m: usize, k: usize) -> u16
    requires { (k < m) × (2 * m + 2 ≤ length bytes.now) }
    ensures { result ≡ get_or (values_in bytes.now m) k 0 }
{
    let at = 2 + 2 * (m - 1 - k);
    join(bytes[at], bytes[at + 1])
}
