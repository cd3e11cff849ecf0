// What the demonstration prints.
use lines::read::byte_at;
use std::io;

// The bytes between preamble and stop. The program of the worked numbers has the same loop: a crate below both would hold it alone,
// and no contract can say what it prints.
pub(crate) fn bytes_on(rt: &impl Print, line: &[u16]) -> io::Result<()> {
    for i in 1..line.len() / 2 {
        print!(rt; " {:02x}", byte_at(line, i - 1))?;
    }
    println!(rt)
}

pub(crate) fn values(rt: &impl Print, words: &[u16]) -> io::Result<()> {
    for word in words {
        print!(rt; " {word:04x}")?;
    }
    Ok(())
}
