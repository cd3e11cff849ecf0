// One entry answered: its question sent through the chain, its fields and the words that came back stored in their place.
ghost use Rattle.std.specs.Prelude.{◌≡◌, true, ◌+◌, ◌≤◌, ◌<◌, length, drop};
ghost use Rattle.std.proofs.lemmas.List.Edits.{sets};
ghost use Rattle.packing.specs.Words.{as_bytes};
ghost use Rattle.registers.specs.Memory.{is_chain};
ghost use Rattle.jobs.specs.Check.{good_entries};
ghost use Rattle.rehearsal.specs.Answering.{SentDone, fields_for, MaskPut, AnsweredOne};

use crate::Places;
use crate::here::entry_at;
use commands::write_command;
use jobs::field_size;
use opening::job::Job;
use packing::{pack, store};
use questions::question::Question;
use twin::step::run_chain;

// One entry more, with its answer.
pub(crate) fn answer_entry(
    job: Job<'_>,
    memory: &mut [u16],
    out: &mut [u8],
    places: Places,
) -> Places
    requires { (places.at < length job.file.now) × (good_entries job.header (drop places.at job.file.now) ≡ true) × (is_chain job.header.n (length memory.old) ≡ true) × (places.to + 296 ≤ 100000) }
    ensures { AnsweredOne job.entry.header job.entry.file.now places memory.old memory.new out.old out.new result }
{
    let header = job.header;
    let (entry, after) = entry_at(job, places.at);
    let to = places.to;
    let q = entry.question;
    let mut line: [u16; 140] = [0; 140];
    let words = send(header.n, q, memory, &mut line);
    put_fields(out, to, header.version, q, entry.mask, words);
    let behind = to + field_size(header.version);
    put_words(out, behind, &line[..words]);
    Places {
        at: after.at,
        to: behind + 2 * words,
    }
}

// A question's command through the chain: the answer at the front of the line, and how many words it has. A bad question is not sent.
fn send(n: u8, q: Question, memory: &mut [u16], line: &mut [u16]) -> usize
    requires { (is_chain n (length memory.old) ≡ true) × (length line.old ≡ 140) }
    ensures { SentDone n q memory.old memory.new line.new result }
{
    let mut command: [u16; 140] = [0; 140];
    let Ok(words) = write_command(q, &mut command) else {
        return 0;
    };
    // It is a chain, and the line has room for any command: no device is left out.
    let _ = run_chain(n, memory, &command[..words], line);
    words
}

fn put_fields(out: &mut [u8], to: usize, version: u16, q: Question, mask: u16, words: usize)
    requires { (to ≤ 100000) × (words ≤ 140) }
    ensures { out.new ≡ sets out.old to (fields_for version q mask words) }
{
    let [low, high] = q.value.to_le_bytes();
    store(out, to, &[q.kind, q.reg, low, high]);
    let behind = put_mask(out, to + 4, version, mask);
    let [few, many] = (words as u16).to_le_bytes();
    store(out, behind, &[q.device, q.seed, few, many]);
}

// The mask where the version has one, and the place behind it.
fn put_mask(out: &mut [u8], to: usize, version: u16, mask: u16) -> usize
    requires { to ≤ 200000 }
    ensures { MaskPut version mask to out.old out.new result }
{
    if version < 2 {
        return to;
    }
    store(out, to, &mask.to_le_bytes());
    to + 2
}

// The words of an answer, two bytes each.
fn put_words(out: &mut [u8], to: usize, words: &[u16])
    requires { length words.now ≤ 140 }
    ensures { out.new ≡ sets out.old to (as_bytes words.now) }
{
    let mut bytes = [0; 280];
    pack(words, &mut bytes);
    let end = 2 * words.len();
    store(out, to, &bytes[..end]);
}
