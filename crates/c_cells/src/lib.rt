// Voltages for the C side (document 01, "Cells" and "The C side"): a cell's answer packed into one number, and its voltage, where one was
// measured, into two lent numbers; and so for the twelve cells of one measurement.
#![tactic(auto)]

ghost use Rattle.std.specs.Prelude.{◌≡◌, ◌≤◌, length};
ghost use Rattle.cells.specs.Cell.{cells_of};
ghost use Rattle.c_cells.specs.CellBytes.{microvolts_or, volts_or, CellGiven, CellDone};
ghost use Rattle.c_cells.specs.CellsBytes.{registers_of, room_number, packed_or, by_cell, CellsGiven, CellsDone};

use all_cells::read_cells;
use cells::{Cell, Range, Register, read_cell};
use numbers::TurnedAway;
use packing::join;
use std::array;

// QUESTION for a range that is neither unipolar (0) nor bipolar (1); then as a cell is read. The lent numbers are written where it was measured.
pub fn cell_into(
    cell: u8,
    enabled: u16,
    register: u16,
    bipolar: u8,
    microvolts: &mut i32,
    volts: &mut f32,
) -> u32
    ensures { CellDone cell enabled register bipolar microvolts.old microvolts.new volts.old volts.new result }
{
    let Ok(range) = Range::try_from(bipolar) else {
        return 1;
    };
    give(
        read_cell(range, enabled, cell, Register(register)),
        microvolts,
        volts,
    )
}

// A cell's answer packed; its voltage, where it was measured, into the lent numbers.
fn give(answer: Cell, microvolts: &mut i32, volts: &mut f32) -> u32
    ensures { CellGiven answer microvolts.old microvolts.new volts.old volts.new result }
{
    match answer {
        Cell::Measured(voltage) => {
            let whole = voltage.microvolts;
            let single = voltage.volts;
            *microvolts = whole;
            *volts = single;
            256
        }
        Cell::NotMeasured => 0,
        Cell::Refused(why) => why.number() as u32,
    }
}

// QUESTION for a range that is neither 0 nor 1; ROOM for an output of fewer than twelve; LENGTH for registers of more or fewer than 24 bytes.
// Then each cell is answered as `cell_into` answers it, cell 1 first.
pub fn cells_into(
    enabled: u16,
    bipolar: u8,
    registers: &[u8],
    microvolts: &mut [i32],
    volts: &mut [f32],
    answers: &mut [u32],
) -> u32
    ensures { CellsDone enabled bipolar registers.now microvolts.old microvolts.new volts.old volts.new answers.old answers.new result }
{
    let Ok(range) = Range::try_from(bipolar) else {
        return 1;
    };
    cells_by(range, enabled, registers, microvolts, volts, answers)
}

// The same by the range that is named.
fn cells_by(
    range: Range,
    enabled: u16,
    registers: &[u8],
    microvolts: &mut [i32],
    volts: &mut [f32],
    answers: &mut [u32],
) -> u32
    ensures { CellsGiven (room_number registers.now microvolts.old volts.old answers.old) (cells_of range enabled (registers_of registers.now)) microvolts.old microvolts.new volts.old volts.new answers.old answers.new result }
{
    if microvolts.len() < 12 {
        return 2;
    }
    if volts.len() < 12 {
        return 2;
    }
    if answers.len() < 12 {
        return 2;
    }
    if registers.len() != 24 {
        return 3;
    }
    let cells = read_cells(range, enabled, registers_in(registers));
    give_all(cells, microvolts, volts, answers);
    0
}

// The registers of 24 bytes, two bytes each, low first.
fn registers_in(bytes: &[u8]) -> [Register; 12]
    requires { length bytes.now ≡ 24 }
    ensures { result ≡ registers_of bytes.now }
{
    array::from_fn(|k| Register(join(bytes[2 * k], bytes[2 * k + 1])))
}

// Each cell's answer and voltage into its own place of the lent memory. One index into an array and three slices: four iterators zipped are no
// plainer.
fn give_all(cells: [Cell; 12], microvolts: &mut [i32], volts: &mut [f32], answers: &mut [u32])
    requires { (12 ≤ length microvolts.old) × (12 ≤ length volts.old) × (12 ≤ length answers.old) }
    ensures { (microvolts.new ≡ by_cell microvolts_or cells microvolts.old) × (volts.new ≡ by_cell volts_or cells volts.old) × (answers.new ≡ by_cell packed_or cells answers.old) }
{
    for k in 0..12 {
        answers[k] = give(cells[k], &mut microvolts[k], &mut volts[k]);
    }
}
