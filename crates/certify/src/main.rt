// The certificate program: a job file on standard input, its certificate on standard output, or `R 14` alone where it is no job file. An
// input longer than a job file may be, and one that cannot be read to its end, are none.
#![tactic(auto)]

use certificate::{MOST_TEXT, certify};
use intake::{answer_in, job_memory, put_out, take_in};

fn main(rt: HostRuntime) {
    let mut file = job_memory();
    let n = take_in(&mut rt.stdin(), &mut file);
    // Every certificate fits.
    let mut text = [0; MOST_TEXT];
    let written = certify(&file[..n], &mut text).ok();
    let complaint = b"certify: the certificate could not be written\n";
    let answer = answer_in(&text, written);
    put_out(&mut rt.stdout(), &mut rt.stderr(), answer, complaint);
}
