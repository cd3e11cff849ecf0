// The entries of a job file heard one after the other (document 01, "Job file and certificate"): the reader is asked of each, its number kept,
// and the letters brought up to date.
ghost use Rattle.std.specs.Prelude.{◌≡◌, true, ◌<◌, length, drop};
ghost use Rattle.jobs.specs.Check.{good_entries};
ghost use Rattle.printing.specs.Print.{most_entries};
ghost use Rattle.certificate.specs.Telling.{ToldOne, ToldAll};

use crate::Told;
use jobs::first;
use letters::begin;
use listening::listen;
use opening::job::Job;

// Every entry told, in order. How far the next one stands is known only where it has been heard, so that no list of them can be gone through.
pub(crate) fn tell(job: Job<'_>, numbers: &mut [u8]) -> Told
    requires { length numbers.old ≡ most_entries }
    ensures { ToldAll job.entry.file.now numbers.new result }
{
    let mut told = Told {
        at: first().at,
        entries: 0,
        standing: begin(),
    };
    while told.at < job.file.len() {
        told = tell_entry(job, numbers, told);
    }
    told
}

// One entry more.
fn tell_entry(job: Job<'_>, numbers: &mut [u8], told: Told) -> Told
    requires { (told.at < length job.file.now) × (good_entries job.header (drop told.at job.file.now) ≡ true) × (told.entries < length numbers.old) }
    ensures { ToldOne job.entry.header job.entry.file.now told numbers.old numbers.new result }
{
    let heard = listen(job.header, &job.file[told.at..], told.standing);
    numbers[told.entries] = heard.number;
    Told {
        at: told.at + heard.size,
        entries: told.entries + 1,
        standing: heard.standing,
    }
}
