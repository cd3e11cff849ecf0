// The answered file written: the header, then each entry with what the chain answers, from power-on on.
ghost use Rattle.std.specs.Prelude.{◌≡◌, ◌*◌, ◌≤◌, length, drop};
ghost use Rattle.std.proofs.lemmas.List.Edits.{sets};
ghost use Rattle.jobs.specs.Format.{head_size, entries_bytes};
ghost use Rattle.jobs.specs.Check.{entries_in};
ghost use Rattle.rehearsal.specs.Rehearsal.{rehearsal_of, rehearsed};
ghost use Rattle.rehearsal.specs.Answering.{Ready};

use crate::Places;
use crate::entry::answer_entry;
use jobs::first;
use opening::job::Job;
use packing::store;
use registers::power_on;

// The whole file anew, in memory with room for the registers of 32 devices.
pub(crate) fn answer_all(job: Job<'_>, out: &mut [u8])
    requires { length (rehearsal_of job.file.now) ≤ 65536 }
    ensures { out.new ≡ sets out.old 0 (rehearsal_of job.entry.file.now) }
{
    let end = 256 * job.header.n as usize;
    let mut memory = [0; 8192];
    answer_from_power_on(job, &mut memory[..end], out);
}

// On a chain that is switched on first.
fn answer_from_power_on(job: Job<'_>, memory: &mut [u16], out: &mut [u8])
    requires { (length (rehearsal_of job.file.now) ≤ 65536) × (length memory.old ≡ 256 * job.header.n) }
    ensures { out.new ≡ sets out.old 0 (rehearsal_of job.entry.file.now) }
{
    let header = job.header;
    // The memory is that of the chain, so it is filled.
    let _ = power_on(header.n, memory);
    let [low, high] = header.version.to_le_bytes();
    store(
        out,
        0,
        &[0x42, 0x4D, 0x43, low, high, header.n, header.alive],
    );
    answer_entries(job, memory, out);
}

// How far the next entry stands is known only where one has been taken out, so that no list of them can be gone through.
fn answer_entries(job: Job<'_>, memory: &mut [u16], out: &mut [u8])
    requires { Ready job.header job.file.now memory.old out.old }
    ensures { out.new ≡ sets out.old head_size (entries_bytes job.entry.header.version (rehearsed job.entry.header memory.old (entries_in job.entry.header.version (drop head_size job.entry.file.now)))) }
{
    let start = first();
    let mut places = Places {
        at: start.at,
        to: start.at,
    };
    while places.at < job.file.len() {
        places = answer_entry(job, memory, out, places);
    }
}
