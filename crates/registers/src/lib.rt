// The register memory of a chain of devices, lent by the caller: device k's register r is word 256k + r (document 01, "The twin" and row 15).
#![tactic(auto)]

ghost use Rattle.std.specs.Prelude.{◌≡◌, ◌%◌, length};
ghost use Rattle.ground.specs.Sweep.{tabulated};
ghost use Rattle.registers.specs.Memory.{chain_of, no_chain_number, power_on_figure, fresh, PoweredOn};

use numbers::TurnedAway;

// No chain of 1 to 32 devices, or no memory of its size: row 15, TWIN.
#[derive(Clone, Copy, Debug, PartialEq, Eq)]
pub struct NoChain;

impl TurnedAway for NoChain {
    ghost number = { no_chain_number };

    fn number(self) -> u8 {
        15
    }
}

// 1 to 32 devices, and memory of exactly the size that they take, with so many words or bytes for each.
pub fn is_chain<const DEVICE: u16>(n: u8, size: usize) -> bool
    ensures { result ≡ chain_of DEVICE n size }
{
    (1..=32).contains(&n) && size == DEVICE as usize * n as usize
}

// What a register holds after power-on.
#[tactic(auto, unfolding(crate::specs::Memory::power_on_figure))]
fn figure_of(r: u8) -> u16
    ensures { result ≡ power_on_figure r }
{
    match r {
        0x00 => 0x8236,
        0x02 => 0x8000,
        0x0A => 0x0F0F,
        0x10 => 0x0002,
        0x1E => 0x000C,
        0x40 => 0xFFFC,
        0x42 => 0xFFFC,
        0x48 => 0xFFFC,
        0x4A => 0xFFF0,
        _ => 0x0000,
    }
}

fn fill(memory: &mut [u16])
    ensures { memory.new ≡ tabulated fresh (length memory.old) 0 }
{
    for (i, word) in memory.iter_mut().enumerate() {
        *word = figure_of((i % 256) as u8);
    }
}

// Power-on: the whole memory is filled, or, turned away, left as it was.
pub fn power_on(n: u8, memory: &mut [u16]) -> Result<(), NoChain>
    ensures { PoweredOn n memory.old memory.new result }
{
    if !is_chain::<256>(n, memory.len()) {
        return Err(NoChain);
    }
    fill(memory);
    Ok(())
}
