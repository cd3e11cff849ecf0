// What the program prints: bytes and words in hexadecimal, places in decimal.
use lines::read::byte_at;
use std::{fmt, io};

pub(crate) fn place(rt: &impl Print, p: Option<usize>) -> io::Result<()> {
    match p {
        Some(i) => print!(rt; "{i}"),
        None => print!(rt; "none"),
    }
}

// Bytes or words, each behind a space and in so many digits.
pub(crate) fn in_hex<T: fmt::Radix + Copy>(
    rt: &impl Print,
    items: &[T],
    digits: usize,
) -> io::Result<()> {
    for item in items {
        print!(rt; " {item:0digits$x}")?;
    }
    Ok(())
}

// The bytes that stand on a line of so many words. The demonstration prints its lines by the same loop: a crate below both would hold it
// alone, and no contract can say what it prints.
pub(crate) fn bytes_on(rt: &impl Print, line: &[u16], words: usize) -> io::Result<()> {
    for i in 1..words / 2 {
        print!(rt; " {:02x}", byte_at(line, i - 1))?;
    }
    Ok(())
}
