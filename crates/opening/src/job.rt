// A job file beside its header: what `open` has looked through goes to the calls that read its entries.
ghost use Rattle.std.specs.Prelude.{◌≡◌, true, false, IfOk, OnErr};
ghost use Rattle.jobs.specs.Check.{good_file, header_in};

use crate::open;
use jobs::{Header, NoJob};

#[derive(Clone, Copy)]
pub struct Job<'a> {
    pub header: Header,
    pub file: &'a [u8],
    pub ghost good: { good_file file.now ≡ true },
    pub ghost stands: { header ≡ header_in file.now },
}

impl<'a> TryFrom<&'a [u8]> for Job<'a> {
    type Error = NoJob;

    ghost try_from_gives = { λ file result. IfOk result (λ job. job.file ≡ file) × OnErr result (good_file file.now ≡ false) };

    fn try_from(file: &'a [u8]) -> Result<Self, NoJob> {
        let header = open(file)?;
        Ok(Job { header, file })
    }
}
