// Prints the worked numbers of document 01, as the proved crates work them out; the gate compares what it prints with `stdout`.
#![tactic(auto)]

mod heard;
mod longest;
mod show;
mod volts;
mod wire;

ghost use Rattle.std.specs.Prelude.{◌<◌};

use lines::read::{byte_at, read_bytes};
use scanning::{first_no_character, first_no_nibble, is_framed};
use show::{in_hex, place};
use std::io;
use writing::put_line;

fn pec_of(rt: &impl Print, bytes: &[u8]) -> io::Result<()> {
    print!(rt; "PEC")?;
    in_hex(rt, bytes, 2)?;
    println!(rt; ": {:02x}", pec::pec(bytes))
}

fn nibble(rt: &impl Print, n: u8) -> io::Result<()> {
    let w = characters::word_of(n);
    let back = characters::true_bits(w);
    println!(rt; "nibble {n:02x}: word {w:03x}, back {back:02x}")
}

fn rows(rt: &impl Print, words: &[u16]) -> io::Result<()> {
    print!(rt; "\n  no character at ")?;
    place(rt, first_no_character(words))?;
    let framed = if is_framed(words) { "yes" } else { "no" };
    print!(rt; ", framed {framed}, no nibble at ")?;
    place(rt, first_no_nibble(words))
}

fn two_bytes(rt: &impl Print, words: &[u16]) -> io::Result<()> {
    let first = byte_at(words, 0);
    let last = byte_at(words, 5);
    print!(rt; "\n  byte 0 {first:02x}, byte 5 {last:02x}")
}

// The PEC of the first N bytes of a line.
fn pec_of_first<const N: usize>(words: &[u16]) -> u8
    requires { N < 64 }
{
    let mut bytes = [0; N];
    read_bytes(words, &mut bytes);
    pec::pec(&bytes)
}

fn two_pecs(rt: &impl Print, words: &[u16]) -> io::Result<()> {
    let three = pec_of_first::<3>(words);
    let five = pec_of_first::<5>(words);
    println!(rt; ", PEC of bytes 0 to 2 {three:02x}, of bytes 0 to 4 {five:02x}")
}

// A line: what rows 4 to 6 say of it, and some of its bytes.
fn line(rt: &impl Print, words: &[u16]) -> io::Result<()> {
    print!(rt; "line")?;
    in_hex(rt, words, 3)?;
    rows(rt, words)?;
    two_bytes(rt, words)?;
    two_pecs(rt, words)
}

fn pecs(rt: &impl Print) -> io::Result<()> {
    pec_of(rt, b"")?;
    pec_of(rt, b"\x01")?;
    pec_of(rt, b"\x02")?;
    pec_of(rt, b"\x03")?;
    pec_of(rt, b"\x03\x12\x00")?;
    pec_of(rt, b"\x03\x12\x00\x00\x00")
}

fn nibbles(rt: &impl Print) -> io::Result<()> {
    for n in 0..16 {
        nibble(rt, n)?;
    }
    Ok(())
}

// The line of six bytes, with the bits of a mask turned over in its word 3.
fn damaged(rt: &impl Print, bytes: &[u8], mask: u16) -> io::Result<()> {
    let mut words = [0; 14];
    let _ = put_line(bytes, &mut words);
    words[3] ^= mask;
    line(rt, &words)
}

// READALL of 12h for one device, and its answer for 0000h: as it is; with one bit turned over, which parity finds; with two bits of one
// character, which the complements find; with a bit and its complement, which is another nibble, and which only the PEC finds.
fn whole_lines(rt: &impl Print) -> io::Result<()> {
    damaged(rt, b"\x03\x12\x00\xCB\xC2\xD3", 0)?;
    damaged(rt, b"\x03\x12\x00\x00\x00\xBC", 0)?;
    damaged(rt, b"\x03\x12\x00\x00\x00\xBC", 0x002)?;
    damaged(rt, b"\x03\x12\x00\x00\x00\xBC", 0x00A)?;
    damaged(rt, b"\x03\x12\x00\x00\x00\xBC", 0x006)?;
    line(rt, &[])
}

fn main(rt: HostRuntime) -> io::Result<()> {
    pecs(&rt)?;
    let preamble = characters::PREAMBLE;
    let stop = characters::STOP;
    println!(rt; "preamble {preamble:03x}, stop {stop:03x}")?;
    nibbles(&rt)?;
    whole_lines(&rt)?;
    wire::commands(&rt)?;
    heard::answers(&rt)?;
    longest::longest(&rt)?;
    longest::fifteen(&rt)?;
    volts::worked(&rt)?;
    volts::sweeps(&rt)
}
