// The certificate of a job file (document 01, "Job file and certificate"; document 02, M-100): the reader is called on each entry's question and
// words, its number kept, and the letters brought up to date; then all of it is printed. Of the reader only its contract is used.
#![tactic(auto)]

mod entries;

ghost use Rattle.std.specs.Prelude.{◌≡◌};
ghost use Rattle.printing.specs.Print.{PrintDone};
ghost use Rattle.certificate.specs.Certificate.{numbers_of, heard_in, standing_of, CertificateDone};

use entries::tell;
use jobs::FileRefusal;
use letters::Standing;
use opening::job::Job;
use printing::{MOST_ENTRIES, PrintRefusal, print};

// Memory of this size holds every certificate.
pub const MOST_TEXT: usize = 82143;

// How far the entries are told: where the next one stands, how many there were, and the letters.
#[derive(Clone, Copy)]
pub struct Told {
    pub at: usize,
    pub entries: usize,
    pub standing: Standing,
}

// The certificate at the front of the lent memory, the rest as it was, and how many bytes it has; turned away by FILE, then by ROOM, nothing is written.
pub fn certify(file: &[u8], text: &mut [u8]) -> Result<usize, FileRefusal>
    ensures { CertificateDone file.now text.old text.new result }
{
    let job = Job::try_from(file)?;
    let bytes = print_told(job, text)?;
    Ok(bytes)
}

fn print_told(job: Job<'_>, text: &mut [u8]) -> Result<usize, PrintRefusal>
    ensures { PrintDone job.entry.header.version job.entry.header.n (numbers_of (heard_in job.entry.file.now)) (standing_of job.entry.file.now) text.old text.new result }
{
    // A number for each entry that any file can have, with how many there are beside them: the memory is fixed.
    let mut numbers = [0; MOST_ENTRIES];
    let told = tell(job, &mut numbers);
    print(
        job.header.version,
        job.header.n,
        &numbers[..told.entries],
        told.standing,
        text,
    )
}
