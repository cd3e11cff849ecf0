// The entry at a place of a job file: where the entries are good, there is one.
ghost use Rattle.std.specs.Prelude.{◌≡◌, true, ◌<◌, length, drop};
ghost use Rattle.jobs.specs.Check.{good_entries, placed_in};

use jobs::{Cursor, EntryAt, next_entry};
use opening::job::Job;

// And where the next one stands.
pub(crate) fn entry_at(job: Job<'_>, at: usize) -> (EntryAt, Cursor)
    requires { (at < length job.file.now) × (good_entries job.header (drop at job.file.now) ≡ true) }
    ensures { result ≡ placed_in job.entry.header at (drop at job.entry.file.now) }
{
    let next = next_entry(job.header, job.file, Cursor { at });
    next.unwrap().unwrap()
}
