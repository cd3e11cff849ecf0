// A job file looked through as a whole (document 01, "Job file and certificate"; document 02, M-100): its length, the mark, a header that keeps its
// rules, the version among them, and nothing but good entries behind it.
#![tactic(auto)]

pub mod job;

ghost use Rattle.std.specs.Prelude.{◌≡◌, ◌≤◌, length, drop};
ghost use Rattle.jobs.specs.Format.{head_size};
ghost use Rattle.jobs.specs.Rules.{good_header};
ghost use Rattle.jobs.specs.Check.{header_in, good_entries, opened_of};

use jobs::entry::{is_good_entry, size_in};
use jobs::{Header, NoJob, head_size};
use packing::join;

// The whole file looked through: FILE is given exactly where it is no job file.
#[tactic(auto, using(jobs::proofs::Sizes::head_bounds, crate::proofs::Marked::begins), unfolding(jobs::specs::Check::opened_of, jobs::specs::Check::good_file))]
pub fn open(file: &[u8]) -> Result<Header, NoJob>
    ensures { result ≡ opened_of file.now }
{
    if 65536 < file.len() || file.len() < head_size() || !file.starts_with(b"BMC") {
        return Err(NoJob);
    }
    let header = header_in(file);
    if is_good_header(header) && are_good_entries(header, file) {
        Ok(header)
    } else {
        Err(NoJob)
    }
}

// The header, as it stands there.
#[tactic(auto, using(jobs::proofs::Sizes::head_bounds))]
fn header_in(file: &[u8]) -> Header
    requires { head_size ≤ length file.now }
    ensures { result ≡ header_in file.now }
{
    let version = join(file[3], file[4]);
    Header {
        version,
        n: file[5],
        alive: file[6],
    }
}

#[tactic(auto, using(questions::proofs::Within::within), unfolding(jobs::specs::Rules::good_header))]
fn is_good_header(header: Header) -> bool
    ensures { result ≡ good_header header }
{
    let version = (1..=2).contains(&header.version);
    let n = (1..=32).contains(&header.n);
    version && n && header.alive <= 1
}

// Whether nothing but good entries stands behind the header.
fn are_good_entries(header: Header, file: &[u8]) -> bool
    requires { head_size ≤ length file.now }
    ensures { result ≡ good_entries header (drop head_size file.now) }
{
    let mut rest = &file[head_size()..];
    while !rest.is_empty() {
        if !is_good_entry(header, rest) {
            return false;
        }
        rest = &rest[size_in(header.version, rest)..];
    }
    true
}
