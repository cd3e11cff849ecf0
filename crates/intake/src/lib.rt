// What the programs over job files share: standard input taken in whole, what is answered, and bytes put out. What the operating system hands over is beyond
// any contract: of it these say only that no more is counted than the lent memory holds. Of a reader whose bytes are known they say which.
#![tactic(auto)]

ghost use Rattle.std.specs.Prelude.{◌≡◌, ◌+◌, ◌<◌, ◌≤◌, IfOk, drop, length, replicate, take};
ghost use Rattle.std.specs.Io.KnownBytes.{Consumes, IsAtEnd};
ghost use Rattle.intake.specs.Answer.{answer_in};

use std::io;
use std::io::{Read, Write};

// One byte more than a job file may have, so that a longer input shows. It stays a function, and no array in its callers, for the number stands in
// its contract, of which docs/CONTRACTS.md speaks.
pub fn job_memory() -> [u8; 65537]
    ensures { result ≡ replicate 65537 0 }
{
    [0; 65537]
}

// What a program puts out: as many bytes as it wrote at the front of its memory; where it wrote nothing, `R 14` alone.
pub fn answer_in<'a>(memory: &'a [u8], written: Option<usize>) -> &'a [u8]
    ensures { result.now ≡ answer_in memory.now written }
{
    match written {
        Some(n) => &memory[..n.min(memory.len())],
        None => b"R 14\n",
    }
}

// Writes to one writer, standard output in the programs, and where that fails a complaint to the other, the terminal.
pub fn put_out<O: Write, E: Write>(out: &mut O, terminal: &mut E, bytes: &[u8], complaint: &[u8]) {
    if out.write_all(bytes).is_err() {
        let _ = terminal.write_all(complaint);
    }
}

// Reads until the input ends or the memory is full, and says how many bytes stand at the front then: none, which is no job file, where a read
// failed. Its callers count on it that it cannot fail, so that its type has no error. Each read that does not end it brings a byte at least,
// and it goes on by what the read brought, so it is no `for` over places.
pub fn take_in<R: Read>(input: &mut R, memory: &mut [u8]) -> usize
    ensures within { result ≤ length memory.new }
    ensures bytes { 0 < result → Consumes (R.remaining input.old) (R.remaining input.new) (take result memory.new) }
    ensures whole { 0 < result → result < length memory.new → IsAtEnd (R.remaining input.new) }
{
    let mut at = 0;
    while at < memory.len() {
        match read_at(input, memory, at) {
            Ok(0) => return at,
            Ok(got) => at += got,
            Err(_) => return 0,
        }
    }
    at
}

// One read, behind what is there. Its clauses say of the whole memory what `read` says of the part that it is lent; without them the loop's proof
// would have to.
fn read_at<R: Read>(input: &mut R, memory: &mut [u8], at: usize) -> io::Result<usize>
    requires { at ≤ length memory.old }
    ensures within { IfOk result (λ got. at + got ≤ length memory.new) }
    ensures front { take at memory.new ≡ take at memory.old }
    ensures bytes { IfOk result (λ got. Consumes (R.remaining input.old) (R.remaining input.new) (take got (drop at memory.new))) }
    ensures end { IfOk result (λ got. got ≡ 0 → at < length memory.new → IsAtEnd (R.remaining input.new)) }
{
    input.read(&mut memory[at..])
}
