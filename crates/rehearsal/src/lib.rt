// A job rehearsed with no module on the hook: each good question's command goes through the twin's chain, from power-on on, and the job file
// is given with the answers that came back. What answers the file had are left aside.
#![tactic(auto)]

mod answer;
mod count;
mod entry;
mod here;

ghost use Rattle.std.specs.Prelude.{◌≡◌};
ghost use Rattle.rehearsal.specs.Rehearsal.{RehearsalDone};

use answer::answer_all;
use count::answered_length;
use jobs::FileRefusal;
use opening::job::Job;

// Where the next entry stands in the file, and where it goes.
#[derive(Clone, Copy)]
pub struct Places {
    pub at: usize,
    pub to: usize,
}

// The answered file at the front of the lent memory, the rest as it was. FILE where it is no job file, or where it would be longer with its
// answers than a job file may be; then ROOM. Turned away, nothing is written; else it is said how many bytes the answered file has.
pub fn rehearse(file: &[u8], out: &mut [u8]) -> Result<usize, FileRefusal>
    ensures { RehearsalDone file.now out.old out.new result }
{
    let job = Job::try_from(file)?;
    let bytes = answered_length(job);
    if 65536 < bytes {
        return Err(FileRefusal::File);
    }
    if out.len() < bytes {
        return Err(FileRefusal::Room);
    }
    answer_all(job, out);
    Ok(bytes)
}
