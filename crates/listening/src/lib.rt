// One entry of a job file heard (document 01, "Job file and certificate"; document 02, M-100): the reader is asked of its question and words, and
// the letters are brought up to date. Of the reader only its contract is used.
#![tactic(auto)]

ghost use Rattle.std.specs.Prelude.{◌≡◌, ◌+◌, ◌*◌, ◌≤◌, length, take, drop};
ghost use Rattle.packing.specs.Words.{words_of};
ghost use Rattle.letters.specs.Meaning.{is_values};
ghost use Rattle.listening.specs.Listening.{heard_as, listened_to, nothing_heard, listen_of};

use jobs::{Cursor, EntryAt, Header, NoJob, next_entry};
use letters::{Standing, begin, hear};
use numbers::{TurnedAway, number_of};
use packing::unpack;
use questions::question::Question;
use reader::read::read;
use readings::{Refusal, Taken, values_taken};

// What an entry comes to: document 01's number of the reading, the letters after it, what was asked, whether values were accepted, and how
// many bytes the entry has. Where nothing is heard the letters still stand in the answer, which a Result would leave out (`listen_of` keeps them).
#[derive(Clone, Copy)]
pub struct Listened {
    pub number: u8,
    pub standing: Standing,
    pub question: Question,
    pub accepted: bool,
    pub size: usize,
}

// The entry at the front of some bytes. Where no good one stands there, nothing is heard: FILE's number, the letters as they stood, size 0.
pub fn listen(header: Header, front: &[u8], standing: Standing) -> Listened
    ensures { result ≡ listen_of header front.now standing }
{
    let next = next_entry(header, front, Cursor { at: 0 });
    let Ok(Some((entry, _))) = next else {
        return hear_nothing(standing);
    };
    hear_entry(front, entry, standing)
}

fn hear_nothing(standing: Standing) -> Listened
    ensures { result ≡ nothing_heard standing }
{
    Listened {
        number: NoJob.number(),
        standing,
        question: begin().write,
        accepted: false,
        size: 0,
    }
}

// The reader is asked, with room for the values of 32 devices.
fn hear_entry(front: &[u8], entry: EntryAt, standing: Standing) -> Listened
    requires { (entry.words ≤ 140) × (entry.start + 2 * entry.words ≤ length front.now) }
    ensures { result ≡ listened_to standing (heard_as entry.question entry.mask (words_of (take (2 * entry.words) (drop entry.start front.now)))) (entry.start + 2 * entry.words) }
{
    let q = entry.question;
    let words = entry.words;
    let start = entry.start;
    let end = start + 2 * words;
    let mut line: [u16; 140] = blank();
    unpack(&front[start..end], &mut line);
    let mut values: [u16; 32] = blank();
    let reading = read(q, &line[..words], &mut values);
    let taken = values_taken(reading);
    let after = hear(standing, q, entry.mask, reading, &values[..taken]);
    let number = number_of(reading);
    Listened {
        number,
        standing: after,
        question: q,
        accepted: has_values(reading),
        size: end,
    }
}

// Whether the reader accepted a read.
fn has_values(reading: Result<Taken, Refusal>) -> bool
    ensures { result ≡ is_values reading }
{
    matches!(reading, Ok(Taken::Values(_)))
}

// Written where they are used, the line and the values would be laid word by word for each entry.
fn blank<const N: usize>() -> [u16; N]
    ensures { length result ≡ N }
{
    [0; N]
}
