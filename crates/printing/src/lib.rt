// A certificate as text (document 01, "Job file and certificate"; document 02, M-100): `BMC`, the file's version and n, a line `E i r` for each
// entry, a line `D a v` for each device that the write covers. The text is laid byte by byte; a byte beyond the lent memory is counted and not
// written, so that the same code tells the length before anything is written.
#![tactic(auto)]

mod figures;
mod text_lines;

ghost use Rattle.std.specs.Prelude.{◌≡◌, ◌≤◌, length};
ghost use Rattle.printing.specs.Text.{certificate_text};
ghost use Rattle.printing.specs.Print.{StoredAt, most_entries, PrintDone, print_refusal_number, of_print_refusal};

use figures::Sheet;
use jobs::FileRefusal;
use letters::Standing;
use numbers::TurnedAway;

// Why no certificate is printed: more entries than a job file can have, which makes it none (FILE), or too little room.
#[derive(Clone, Copy, Debug, PartialEq, Eq)]
pub enum PrintRefusal {
    Many,
    Room,
}

impl TurnedAway for PrintRefusal {
    ghost number = { print_refusal_number };

    fn number(self) -> u8 {
        match self {
            PrintRefusal::Many => 14,
            PrintRefusal::Room => 2,
        }
    }
}

impl From<PrintRefusal> for FileRefusal {
    ghost from_gives = { λ why refusal. refusal ≡ of_print_refusal why };

    fn from(why: PrintRefusal) -> Self {
        match why {
            PrintRefusal::Many => FileRefusal::File,
            PrintRefusal::Room => FileRefusal::Room,
        }
    }
}

// A job file of 65,536 bytes has room for 8,191 entries.
pub const MOST_ENTRIES: usize = 8191;

// The text at the front of the lent memory, the rest as it was, and how many bytes it has; turned away, nothing is written.
pub fn print(
    version: u16,
    n: u8,
    numbers: &[u8],
    standing: Standing,
    text: &mut [u8],
) -> Result<usize, PrintRefusal>
    ensures { PrintDone version n numbers.now standing text.old text.new result }
{
    if MOST_ENTRIES < numbers.len() {
        return Err(PrintRefusal::Many);
    }
    let end = lay(version, n, numbers, standing, &mut []);
    if text.len() < end {
        return Err(PrintRefusal::Room);
    }
    Ok(lay(version, n, numbers, standing, text))
}

fn lay(version: u16, n: u8, numbers: &[u8], standing: Standing, text: &mut [u8]) -> usize
    requires { length numbers.now ≤ most_entries }
    ensures { StoredAt text.old 0 (certificate_text version n numbers.now standing) text.new result }
{
    let mut sheet = Sheet { text, at: 0 };
    sheet.put_head(version, n);
    sheet.put_entries(numbers);
    sheet.put_devices(standing);
    sheet.at
}
