// The worked numbers of cells, and a checksum over all measurements, which an independent second program works out too.
use cells::{Cell, Range, Register, number_of, read_cell};
use std::io;

// Only the test rules out the NaN, which has no one pattern; no cell gives it.
fn float_pattern(x: f32) -> u32 {
    if x.is_nan() { u32::MAX } else { x.to_bits() }
}

fn said(rt: &impl Print, answer: Cell) -> io::Result<()> {
    print!(rt; "number {}, ", number_of(answer))?;
    match answer {
        Cell::Measured(v) => println!(rt;
            "{} microvolts, volts {:08x}",
            v.microvolts,
            float_pattern(v.volts)
        ),
        Cell::NotMeasured => println!(rt; "not measured"),
        Cell::Refused(why) => println!(rt; "turned away, {why}"),
    }
}

// A cell, by its register and the mask of enabled cells.
fn cell(rt: &impl Print, range: Range, mask: u16, c: u8, register: u16) -> io::Result<()> {
    print!(rt; "cell {c}, {range}, mask {mask:03x}, register {register:04x}: ")?;
    said(rt, read_cell(range, mask, c, Register(register)))
}

// Measurements 128, 8064, 0, 16383, 8192 twice and 11796, each times 4; then what is turned away or not measured.
pub(crate) fn worked(rt: &impl Print) -> io::Result<()> {
    cell(rt, Range::Unipolar, 0x001, 1, 512)?;
    cell(rt, Range::Bipolar, 0x002, 2, 32256)?;
    cell(rt, Range::Bipolar, 0x001, 1, 0)?;
    cell(rt, Range::Unipolar, 0x800, 12, 65532)?;
    cell(rt, Range::Unipolar, 0x020, 6, 32768)?;
    cell(rt, Range::Bipolar, 0x020, 6, 32768)?;
    cell(rt, Range::Unipolar, 0x400, 11, 47184)?;
    cell(rt, Range::Unipolar, 0x001, 1, 0x0001)?;
    cell(rt, Range::Unipolar, 0xFFE, 1, 0x0001)?;
    cell(rt, Range::Unipolar, 0xFFF, 0, 0x0001)?;
    cell(rt, Range::Unipolar, 0xFFF, 13, 0x0001)
}

// Five places to the left, the bits that leave coming in on the right.
fn fold(sum: u32, w: u32) -> u32 {
    sum.rotate_left(5) ^ w
}

fn fold_cell(sum: u32, answer: Cell) -> u32 {
    match answer {
        Cell::Measured(v) => fold(
            fold(sum, v.microvolts.cast_unsigned()),
            float_pattern(v.volts),
        ),
        Cell::NotMeasured | Cell::Refused(_) => fold(fold(sum, u32::MAX), u32::MAX),
    }
}

// All measurements, the cells taking turns.
fn sum_of(range: Range) -> u32 {
    (0..16384u16).fold(0, |sum, m| {
        fold_cell(
            sum,
            read_cell(range, 0xFFF, (1 + m % 12) as u8, Register(m * 4)),
        )
    })
}

fn sweep(rt: &impl Print, range: Range) -> io::Result<()> {
    println!(rt;
        "measurements 0 to 16383, {range}: checksum {:08x}",
        sum_of(range)
    )
}

pub(crate) fn sweeps(rt: &impl Print) -> io::Result<()> {
    sweep(rt, Range::Unipolar)?;
    sweep(rt, Range::Bipolar)
}
