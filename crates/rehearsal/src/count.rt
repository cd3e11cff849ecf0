// How long the answered file will be, told before anything is written: each entry with the words that come back, none for a bad question.
ghost use Rattle.std.specs.Prelude.{◌≡◌, true, ◌*◌, ◌≤◌, ◌<◌, length, drop};
ghost use Rattle.jobs.specs.Check.{good_entries};
ghost use Rattle.rehearsal.specs.Rehearsal.{answer_words, rehearsal_of};
ghost use Rattle.rehearsal.specs.Answering.{entry_with};

use crate::Places;
use crate::here::entry_at;
use jobs::{field_size, first};
use opening::job::Job;
use questions::question::{Question, is_good, shape_of};

// From entry to entry, as far as each says where the next one stands.
pub(crate) fn answered_length(job: Job<'_>) -> usize
    ensures { result ≡ length (rehearsal_of job.entry.file.now) }
{
    let start = first();
    let mut places = Places {
        at: start.at,
        to: start.at,
    };
    while places.at < job.file.len() {
        places = count_entry(job, places);
    }
    places.to
}

// One entry more, counted.
fn count_entry(job: Job<'_>, places: Places) -> Places
    requires { (places.at < length job.file.now) × (good_entries job.header (drop places.at job.file.now) ≡ true) × (places.to ≤ 40 * places.at) × (length job.file.now ≤ 65536) }
    ensures { result ≡ entry_with job.entry.header job.entry.file.now places }
{
    let (entry, after) = entry_at(job, places.at);
    Places {
        at: after.at,
        to: places.to + field_size(job.header.version) + 2 * answer_words(entry.question),
    }
}

// How many words come back.
fn answer_words(q: Question) -> usize
    ensures { result ≡ answer_words q }
{
    if !is_good(q) {
        return 0;
    }
    let shape = shape_of(q);
    shape.words
}
