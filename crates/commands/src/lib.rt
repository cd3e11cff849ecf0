// The command writer: the command of a question, written into lent words (document 01, "Commands and answers" and rows 1 and 2 of "Turned
// away").
#![tactic(auto)]

ghost use Rattle.std.specs.Prelude.{◌≡◌, ◌++◌, ◌+◌, ◌*◌, ◌≤◌, length};
ghost use Rattle.std.proofs.lemmas.List.Edits.{sets};
ghost use Rattle.lines.specs.Line.{characters_of};
ghost use Rattle.writing.specs.PutLine.{LinePut};
ghost use Rattle.questions.specs.Bytes.{fill_pairs};
ghost use Rattle.commands.specs.Command.{CommandPut, refusal_number, room};

use characters::{STOP, word_of};
use heads::head_of;
use numbers::TurnedAway;
use questions::question::{Question, is_good, shape_of};
use std::fmt;
use writing::{NoRoom, put_line};

// Rows 1 and 2 of "Turned away".
#[derive(Clone, Copy, Debug, PartialEq, Eq)]
pub enum CommandRefusal {
    Question,
    Room,
}

impl fmt::Display for CommandRefusal {
    fn fmt<W: fmt::Write>(&self, f: &mut fmt::Formatter<W>) -> fmt::Result {
        match self {
            CommandRefusal::Question => write!(f, "QUESTION"),
            CommandRefusal::Room => write!(f, "ROOM"),
        }
    }
}

impl From<NoRoom> for CommandRefusal {
    ghost from_gives = { λ _ why. why ≡ room };

    fn from(_: NoRoom) -> CommandRefusal {
        Self::Room
    }
}

impl TurnedAway for CommandRefusal {
    ghost number = { refusal_number };

    fn number(self) -> u8 {
        match self {
            CommandRefusal::Question => 1,
            CommandRefusal::Room => 2,
        }
    }
}

// The command's line at the front of the lent words, the rest as it was: how many words it has; turned away, nothing is written.
pub fn write_command(q: Question, out: &mut [u16]) -> Result<usize, CommandRefusal>
    ensures { CommandPut q out.old out.new result }
{
    if !is_good(q) {
        return Err(CommandRefusal::Question);
    }
    let head = head_of(q);
    let pairs = shape_of(q).values;
    Ok(put_filled(head.taken(), pairs, out)?)
}

// The line of some bytes with fill pairs behind them: the line of the bytes alone, and the pairs from where it has its stop character on.
fn put_filled(head: &[u8], pairs: usize, out: &mut [u16]) -> Result<usize, NoRoom>
    requires { (length head.now ≤ 6) × (pairs ≤ 32) }
    ensures { LinePut (head.now ++ fill_pairs pairs) out.old out.new result }
{
    let start = 2 * head.len() + 1;
    let end = start + 4 * pairs;
    if out.len() <= end {
        return Err(NoRoom);
    }
    let _ = put_line(head, out);
    put_pairs(out, start, pairs);
    out[end] = STOP;
    Ok(end + 1)
}

// So many fill pairs, from a place on.
fn put_pairs(out: &mut [u16], start: usize, pairs: usize)
    requires { (pairs ≤ 32) × (start + 4 * pairs ≤ length out.old) }
    ensures { out.new ≡ sets out.old start (characters_of (fill_pairs pairs)) }
{
    for k in 0..pairs {
        put_pair(out, start + 4 * k);
    }
}

// One fill pair: C2 D3, low nibbles first.
fn put_pair(out: &mut [u16], at: usize)
    requires { at + 4 ≤ length out.old }
    ensures { out.new ≡ sets out.old at (characters_of (fill_pairs 1)) }
{
    out[at] = word_of(0x2);
    out[at + 1] = word_of(0xC);
    out[at + 2] = word_of(0x3);
    out[at + 3] = word_of(0xD);
}
