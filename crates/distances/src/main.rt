// Prints how many damages of a READALL answer pass unfound (document 01, "Distance, and where it ends"): of six line bits for each device
// count up to 14, and of four from 15 on. That no fewer bits pass is proved in the promises. The gate compares what it prints with `stdout`.
#![tactic(auto)]

mod count;
mod syndromes;

ghost use Rattle.std.specs.Prelude.{◌≤◌};

use count::{pairs, triples};
use std::io;
use syndromes::syndromes;

// A bit of a byte is two bits of the line. Up to this many devices a damage that passes turns over three bits of the bytes at least, as
// the laws of `pec` say; with more devices two are enough.
const FEW_DEVICES: usize = 14;

fn line_bits(n: usize) -> u8 {
    if n <= FEW_DEVICES { 6 } else { 4 }
}

// How many damages pass. The bits that they may turn over, the PEC's eight and sixteen of each device, are the first of the table.
fn damages(table: &[u8; 520], n: usize) -> usize
    requires { n ≤ 32 }
{
    let bits = &table[..16 * n + 8];
    if n <= FEW_DEVICES {
        triples(bits)
    } else {
        pairs(bits, 0)
    }
}

fn main(rt: HostRuntime) -> io::Result<()> {
    println!(rt; "devices  line bits  damages that pass")?;
    let table = syndromes();
    for n in 1..=32 {
        println!(rt; "{n:>7}  {:>9}  {}", line_bits(n), damages(&table, n))?;
    }
    Ok(())
}
