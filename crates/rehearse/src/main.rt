// The rehearsal program: a job file on standard input, and on standard output the same job with the answers that the twin's chain, switched on
// first, gives, so that `rehearse < plan.bmc | certify` shows a certificate with no module on the hook. What is no job file, or would be too long
// with its answers, is turned away with `R 14`, which the certificate program turns away in its turn.
#![tactic(auto)]

use intake::{answer_in, job_memory, put_out, take_in};
use rehearsal::rehearse;

fn main(rt: HostRuntime) {
    let mut file = job_memory();
    let n = take_in(&mut rt.stdin(), &mut file);
    let mut out = job_memory();
    let written = rehearse(&file[..n], &mut out).ok();
    let complaint = b"rehearse: the file could not be written\n";
    let answer = answer_in(&out, written);
    put_out(&mut rt.stdout(), &mut rt.stderr(), answer, complaint);
}
