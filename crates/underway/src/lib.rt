// A command on its way along the chain (document 01, "The twin"): held to what the devices before would have left, and handed on.
#![tactic(auto)]

mod command;
mod compare;
mod laid;

ghost use Rattle.std.specs.Prelude.{◌≡◌, suc, ◌+◌, ◌*◌, ◌%◌, ◌<◌, ◌≤◌, true, ◌++◌, length};
ghost use Rattle.ground.specs.Same.{same};
ghost use Rattle.lines.specs.Line.{line_of};
ghost use Rattle.writing.specs.PutLine.{out_of};
ghost use Rattle.questions.specs.Question.{good_question};
ghost use Rattle.questions.specs.Bytes.{low_high};
ghost use Rattle.underway.specs.OnTheWay.{on_the_way, wire_of};
ghost use Rattle.underway.specs.TakeUp.{may_carry, possible, TakenUp};

use command::{Wire, lay};
use compare::is_line_of;
use laid::Laid;
use questions::question::{Kind, Question, is_good, shape_of};
use writing::put_line;

// Whether m values can stand on the line before a device that has yet to put its own in.
fn may_carry(q: Question, m: usize) -> bool
    ensures { result ≡ may_carry q m }
{
    match q.asks() {
        Kind::HelloAll | Kind::WriteAll | Kind::WriteDevice => m < 1,
        Kind::ReadAll | Kind::ReadDevice => m < shape_of(q).values,
    }
}

fn is_possible(q: Question, device: u8, m: usize) -> bool
    ensures { result ≡ possible q device m }
{
    is_good(q) && may_carry(q, m) && device < 32
}

// Whether a line is the question's command as the devices before this one left it.
fn is_as_left(q: Question, device: u8, wire: Wire, line: &[u16]) -> bool
    requires { good_question q ≡ true }
    ensures { result ≡ same line.now (line_of (on_the_way q device 0 wire.entry)) }
{
    let mut laid = Laid::nothing();
    lay(q, device, 0, wire, &mut laid);
    is_line_of(line, laid.as_slice())
}

// The command as this device hands it on, in the line's place.
fn hand(q: Question, device: u8, wire: Wire, line: &mut [u16])
    requires { (good_question q ≡ true) × (device < 32) }
    ensures { line.new ≡ out_of (on_the_way q (suc device) 1 wire.entry) line.old }
{
    let mut laid = Laid::nothing();
    lay(q, device + 1, 1, wire, &mut laid);
    let _ = put_line(laid.as_slice(), line);
}

// The device's own value, then the values that stand on the line.
fn gather(own: u16, line: &[u16], m: usize) -> Laid
    requires { m < 32 }
    ensures { result ≡ low_high own ++ wire_of line.now m }
{
    let mut wire = Laid::nothing();
    wire.push_value(own);
    wire.push_carried(line, 2 * m);
    wire
}

// Where the line is the question's command, as the devices before this one left it with m values, this device hands it on with its own value.
// Any other line stays as it was.
pub fn take_up(q: Question, device: u8, own: u16, m: usize, line: &mut [u16]) -> bool
    ensures { TakenUp q device own m line.old line.new result }
{
    if !is_possible(q, device, m) {
        return false;
    }
    let gathered = gather(own, line, m);
    let values = gathered.as_slice();
    if !is_as_left(
        q,
        device,
        Wire {
            bytes: &values[2..],
        },
        line,
    ) {
        return false;
    }
    hand(q, device, Wire { bytes: values }, line);
    true
}
