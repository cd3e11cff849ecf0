// A line held to some bytes.
ghost use Rattle.std.specs.Prelude.{◌≡◌, ◌+◌, ◌*◌, ◌<◌, length};
ghost use Rattle.ground.specs.Same.{same};
ghost use Rattle.lines.specs.Line.{line_of};
ghost use Rattle.underway.specs.TakeUp.{byte_stands};

use characters::{PREAMBLE, STOP, word_of};

// Whether these two words of a line are a byte's.
fn is_byte(line: &[u16], i: usize, byte: u8) -> bool
    requires { 2 * i + 2 < length line.now }
    ensures { result ≡ byte_stands line.now i byte }
{
    line[2 * i + 1] == word_of(byte % 16) && line[2 * i + 2] == word_of(byte / 16)
}

// Whether a line is the line of some bytes.
pub(crate) fn is_line_of(line: &[u16], bytes: &[u8]) -> bool
    ensures { result ≡ same line.now (line_of bytes.now) }
{
    if line.len() < 2 || line.len() - 2 != 2 * bytes.len() || line[0] != PREAMBLE {
        return false;
    }
    for (i, &byte) in bytes.iter().enumerate() {
        if !is_byte(line, i, byte) {
            return false;
        }
    }
    line[2 * bytes.len() + 1] == STOP
}
