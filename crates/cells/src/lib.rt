// Cell codes turned into volts (document 01, "Cells"; data sheet 004, "Input Range").
#![tactic(auto)]

ghost use Rattle.std.specs.Prelude.{◌≡◌, ◌<◌, ◌≤◌, nat_abs};
ghost use Rattle.cells.specs.Voltage.{IsRangeOf, steps_of, microvolts_of, volts_of, voltage_of};
ghost use Rattle.cells.specs.Cell.{enabled, cell_of, cell_refusal_number, cell_number};

use numbers::TurnedAway;
use std::fmt;

// A register's sixteen bits, and a measurement's fourteen: not to be mistaken for one another.
#[derive(Clone, Copy)]
pub struct Register(pub u16);

#[derive(Clone, Copy)]
pub struct Code(pub u16);

// Unipolar counts from 0 V, bipolar from -2.5 V.
#[derive(Clone, Copy, Debug, PartialEq, Eq)]
pub enum Range {
    Unipolar,
    Bipolar,
}

impl fmt::Display for Range {
    fn fmt<W: fmt::Write>(&self, f: &mut fmt::Formatter<W>) -> fmt::Result {
        f.write_str(match self {
            Range::Unipolar => "unipolar",
            Range::Bipolar => "bipolar",
        })
    }
}

// A number that names no range.
#[derive(Clone, Copy, Debug, PartialEq, Eq)]
pub struct NoRange;

// The C side's `bipolar`: 0 or 1.
impl TryFrom<u8> for Range {
    type Error = NoRange;

    ghost try_from_gives = { IsRangeOf };

    fn try_from(bipolar: u8) -> Result<Range, NoRange> {
        match bipolar {
            0 => Ok(Range::Unipolar),
            1 => Ok(Range::Bipolar),
            _ => Err(NoRange),
        }
    }
}

// Signed whole microvolts, and the same voltage in single precision.
#[derive(Clone, Copy, Debug, PartialEq)]
pub struct Voltage {
    pub microvolts: i32,
    pub volts: f32,
}

// Rows 12 and 13 of "Turned away".
#[derive(Clone, Copy, Debug, PartialEq, Eq)]
pub enum CellRefusal {
    Channel,
    LowBits,
}

impl fmt::Display for CellRefusal {
    fn fmt<W: fmt::Write>(&self, f: &mut fmt::Formatter<W>) -> fmt::Result {
        f.write_str(match self {
            CellRefusal::Channel => "CHANNEL",
            CellRefusal::LowBits => "LOW BITS",
        })
    }
}

impl TurnedAway for CellRefusal {
    ghost number = { cell_refusal_number };

    fn number(self) -> u8 {
        match self {
            CellRefusal::Channel => 12,
            CellRefusal::LowBits => 13,
        }
    }
}

// A cell's answer. An enum of its own, and no Result: document 01 names this form.
#[derive(Clone, Copy, Debug, PartialEq)]
pub enum Cell {
    Measured(Voltage),
    NotMeasured,
    Refused(CellRefusal),
}

// The paper's number of an answer, 0 where nothing is turned away.
pub fn number_of(cell: Cell) -> u8
    ensures { result ≡ cell_number cell }
{
    match cell {
        Cell::Measured(_) => 0,
        Cell::NotMeasured => 0,
        Cell::Refused(why) => why.number(),
    }
}

// How many steps of 5/16384 V a code stands from 0 V.
fn steps(range: Range, code: Code) -> i32
    requires { code.0 < 16384 }
    ensures { result ≡ steps_of range code.0 }
{
    let m = code.0 as i32;
    match range {
        Range::Unipolar => m,
        Range::Bipolar => m - 8192,
    }
}

// d steps in whole microvolts; the division cuts towards zero, so half a divisor is added away from it.
fn microvolts(d: i32) -> i32
    requires { nat_abs d < 16384 }
    ensures { result ≡ microvolts_of d }
{
    let scaled = d * 78125;
    if d < 0 {
        (scaled - 128) / 256
    } else {
        (scaled + 128) / 256
    }
}

// d steps in volts: d * 5 is small enough to be exact, and the divisor is a power of two.
fn volts(d: i32) -> f32
    requires { nat_abs d < 16384 }
    ensures { result ≡ volts_of d }
{
    (d * 5) as f32 / 16384.0
}

fn voltage_of(range: Range, code: Code) -> Voltage
    requires { code.0 < 16384 }
    ensures { result ≡ voltage_of range code.0 }
{
    let d = steps(range, code);
    Voltage {
        microvolts: microvolts(d),
        volts: volts(d),
    }
}

fn is_enabled(mask: u16, c: u8) -> bool
    requires le_c { 1 ≤ c }
    requires c_bound { c ≤ 12 }
    ensures { result ≡ enabled mask c }
{
    (mask >> (c - 1)) % 2 == 1
}

// Cell c of a device, by its register and the device's mask of enabled cells.
#[tactic(auto, unfolding(crate::specs::Cell::cell_of))]
pub fn read_cell(range: Range, mask: u16, c: u8, register: Register) -> Cell
    ensures { result ≡ cell_of range mask c register.0 }
{
    if !(1..=12).contains(&c) {
        return Cell::Refused(CellRefusal::Channel);
    }
    if !is_enabled(mask, c) {
        return Cell::NotMeasured;
    }
    let word = register.0;
    if word % 4 != 0 {
        return Cell::Refused(CellRefusal::LowBits);
    }
    Cell::Measured(voltage_of(range, Code(word / 4)))
}
