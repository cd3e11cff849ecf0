// A line written from bytes into lent words (document 01, "The line").
#![tactic(auto)]

ghost use Rattle.std.specs.Prelude.{◌≡◌, ◌+◌, ◌*◌, ◌<◌, length};
ghost use Rattle.writing.specs.PutLine.{LinePut, no_room_number, with_byte};

use characters::{PREAMBLE, STOP, word_of};
use numbers::TurnedAway;

// The row of a line that finds no room.
const ROOM: u8 = 2;

// No line was put: ROOM of "Turned away".
#[derive(Clone, Copy, Debug, PartialEq, Eq)]
pub struct NoRoom;

impl TurnedAway for NoRoom {
    ghost number = { no_room_number };

    fn number(self) -> u8 {
        ROOM
    }
}

// Byte i of a line goes out as two characters, low nibble first.
fn put_byte(out: &mut [u16], i: usize, byte: u8)
    requires { 2 * i + 2 < length out.old }
    ensures { out.new ≡ with_byte out.old i byte }
{
    out[2 * i + 1] = word_of(byte % 16);
    out[2 * i + 2] = word_of(byte / 16);
}

// The line of some bytes, at the front of the lent words; the rest stays: how many words it has. Without room for all of it, nothing is written.
pub fn put_line(bytes: &[u8], out: &mut [u16]) -> Result<usize, NoRoom>
    ensures { LinePut bytes.now out.old out.new result }
{
    if out.len() / 2 <= bytes.len() {
        return Err(NoRoom);
    }
    out[0] = PREAMBLE;
    for (i, &byte) in bytes.iter().enumerate() {
        put_byte(out, i, byte);
    }
    let end = 2 * bytes.len() + 1;
    out[end] = STOP;
    Ok(end + 1)
}
