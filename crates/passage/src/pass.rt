// One device's step, on its own registers and a line.
ghost use Rattle.std.specs.Prelude.{◌≡◌};
ghost use Rattle.passage.specs.Pass.{store_of, change_asked, Passed};

use hearing::{carried_by, hear, is_place};
use questions::question::{Kind, Question};
use slices::element_or;
use underway::take_up;

// A register of the device takes a new value.
#[derive(Clone, Copy, Debug, PartialEq, Eq)]
pub struct Store {
    pub reg: u8,
    pub value: u16,
}

// Register 0x00 answers a write but keeps its value.
fn stored(q: Question) -> Option<Store>
    ensures { result ≡ store_of q }
{
    let reg = q.reg;
    if reg == 0x00 {
        return None;
    }
    Some(Store {
        reg,
        value: q.value,
    })
}

// Only a write changes a register.
fn change_asked(q: Question) -> Option<Store>
    ensures { result ≡ change_asked q }
{
    match q.asks() {
        Kind::WriteAll | Kind::WriteDevice => stored(q),
        Kind::HelloAll | Kind::ReadAll | Kind::ReadDevice => None,
    }
}

// A device takes the line as it stands and hands it on. It acts only on a line that is some command as the devices before it would have
// left it; any other line, or one for another device, stays as it was. The answer is what becomes of the device's registers.
pub fn pass(n: u8, device: u8, registers: &[u16], line: &mut [u16]) -> Option<Store>
    ensures { Passed n device registers.now line.old line.new result }
{
    if !is_place(n, device) {
        return None;
    }
    let q = hear(n, device, line);
    let own = element_or(registers, q.reg as usize, 0);
    let m = carried_by(q.kind, device);
    if !take_up(q, device, own, m, line) {
        return None;
    }
    change_asked(q)
}
