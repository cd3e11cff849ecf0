// The twelve cells of a measurement (document 01, "Cells"), each by its own register.
#![tactic(auto)]

ghost use Rattle.std.specs.Prelude.{◌≡◌};
ghost use Rattle.cells.specs.Cell.{cells_of};

use cells::{Cell, Range, Register, read_cell};
use std::array;

// The twelve cells of a device, the first register being cell 1's.
pub fn read_cells(range: Range, mask: u16, registers: [Register; 12]) -> [Cell; 12]
    ensures { result ≡ cells_of range mask registers }
{
    array::from_fn(move |i| read_cell(range, mask, i as u8 + 1, registers[i]))
}
