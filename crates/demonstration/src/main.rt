// A bench of three devices rehearsed on the twin, with no module on the hook: the demonstration that a new user meets. Each question is
// written out as a command, stepped through the chain, and read back; what is sent, what comes back and what the reader says are printed.
#![tactic(auto)]

mod bench;
mod show;

use bench::{ask, bench};
use questions::question::{HELLOALL, READALL, WRITEALL, WRITEDEVICE};
use registers::power_on;
use std::io;

fn main(rt: HostRuntime) -> io::Result<()> {
    let mut memory = [0; 768];
    println!(rt;
        "A bench of three devices, rehearsed on the twin. The alive byte is on and starts at fe.\n"
    )?;
    let Ok(()) = power_on(3, &mut memory) else {
        return println!(rt; "The twin turns the call away.");
    };
    println!(rt; "Power-on: every register holds what data sheet 004 gives it.")?;
    bench(
        &rt,
        "HELLOALL. How many devices are there?",
        ask(HELLOALL, 0, 0),
        0,
        &mut memory,
    )?;
    bench(
        &rt,
        "WRITEALL. 000f to register 12 of every device.",
        ask(WRITEALL, 0, 0x000F),
        0,
        &mut memory,
    )?;
    bench(
        &rt,
        "READALL. What does register 12 hold?",
        ask(READALL, 0, 0),
        0,
        &mut memory,
    )?;
    bench(
        &rt,
        "WRITEDEVICE. 0003 to register 12 of device 1; noise turns over two bits of a character once it is sent.",
        ask(WRITEDEVICE, 1, 0x0003),
        0x006,
        &mut memory,
    )?;
    bench(
        &rt,
        "READALL. What does register 12 hold now?",
        ask(READALL, 0, 0),
        0,
        &mut memory,
    )?;
    println!(rt;
        "\nNumber 7 is ECHO: what came back is not what was asked. The noise made the command's PEC wrong,"
    )?;
    println!(rt;
        "so device 1 let it pass and kept 000f. Only a read after the write tells what happened."
    )?;
    bench(
        &rt,
        "WRITEDEVICE. The same once more, with a quiet line.",
        ask(WRITEDEVICE, 1, 0x0003),
        0,
        &mut memory,
    )?;
    bench(
        &rt,
        "READALL. What does register 12 hold in the end?",
        ask(READALL, 0, 0),
        0,
        &mut memory,
    )
}
