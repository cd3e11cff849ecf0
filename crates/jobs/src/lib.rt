// Job files (document 01, "Job file and certificate"; document 02, M-100): what one is made of, and its entries one after the other, read where
// they stand in the lent file with a cursor that goes by value.
#![tactic(auto)]

pub mod entry;

ghost use Rattle.std.specs.Prelude.{◌≡◌};
ghost use Rattle.jobs.specs.Format.{head_size, field_size};
ghost use Rattle.jobs.specs.Check.{next_of};
ghost use Rattle.jobs.specs.Refusals.{no_job_number, file_number, of_no_job};

use entry::{entry_known_at, is_good_entry};
use numbers::TurnedAway;
use questions::question::Question;

// The file's version, how many devices the chain has, and whether the alive byte is on.
#[derive(Clone, Copy)]
pub struct Header {
    pub version: u16,
    pub n: u8,
    pub alive: u8,
}

// Where the next entry stands.
#[derive(Clone, Copy)]
pub struct Cursor {
    pub at: usize,
}

// An entry where it stands: its question, the bits that a write is expected to show, and the place and the number of its answer's words.
#[derive(Clone, Copy)]
pub struct EntryAt {
    pub question: Question,
    pub mask: u16,
    pub start: usize,
    pub words: usize,
}

// Row 14, FILE: bytes that are no job file, or no entry of one.
#[derive(Clone, Copy, Debug, PartialEq, Eq)]
pub struct NoJob;

impl TurnedAway for NoJob {
    ghost number = { no_job_number };

    fn number(self) -> u8 {
        14
    }
}

// Why a job file is not answered with bytes: it is none, or the lent memory is too small.
#[derive(Clone, Copy, Debug, PartialEq, Eq)]
pub enum FileRefusal {
    File,
    Room,
}

impl TurnedAway for FileRefusal {
    ghost number = { file_number };

    fn number(self) -> u8 {
        match self {
            FileRefusal::File => 14,
            FileRefusal::Room => 2,
        }
    }
}

impl From<NoJob> for FileRefusal {
    ghost from_gives = { λ why refusal. refusal ≡ of_no_job why };

    fn from(_why: NoJob) -> Self {
        Self::File
    }
}

// How many bytes stand in front of the first entry.
#[tactic(auto, unfolding(crate::specs::Format::head_size))]
pub fn head_size() -> usize
    ensures { result ≡ head_size }
{
    7
}

// Where the first entry stands: behind the header.
pub fn first() -> Cursor
    ensures { result.at ≡ head_size }
{
    Cursor { at: head_size() }
}

// How many bytes an entry has in front of its words.
#[tactic(auto, using(crate::proofs::Sizes::behind_old, crate::proofs::Sizes::behind_new, crate::proofs::Sizes::field_size_is))]
pub fn field_size(version: u16) -> usize
    ensures { result ≡ field_size version }
{
    if version < 2 { 8 } else { 10 }
}

// The entry at a cursor, and where the next one stands; none behind the last.
#[tactic(auto, using(crate::proofs::GoodEntry::next_is, ground::proofs::Lists::part_to_end), unfolding(crate::specs::Check::next_of))]
pub fn next_entry(
    header: Header,
    file: &[u8],
    cursor: Cursor,
) -> Result<Option<(EntryAt, Cursor)>, NoJob>
    ensures { result ≡ next_of header file.now cursor }
{
    let at = cursor.at;
    if file.len() <= at {
        return Ok(None);
    }
    if !is_good_entry(header, &file[at..]) {
        return Err(NoJob);
    }
    Ok(Some(entry_known_at(header, file, at)))
}
