// The C side (document 01, "The C side"): what the adapters' firmware calls, over numbers and byte slices; `bmc_c` exports them. Each hands its arguments to
// a proved crate below and keeps that crate's contract; include/bmc.h declares them, and docs/C_INTERFACE.md has the packing.
#![tactic(auto)]

ghost use Rattle.std.specs.Prelude.{◌≡◌, ◌≤◌};
ghost use Rattle.pec.specs.Pec.{pec_of};
ghost use Rattle.questions.specs.Question.{asking};
ghost use Rattle.c_commands.specs.CommandBytes.{CommandBytesDone};
ghost use Rattle.c_reader.specs.ReadBytes.{ReadBytesDone};
ghost use Rattle.c_parts.specs.PartBytes.{part_in};
ghost use Rattle.c_reasons.specs.Explain.{packed_on};
ghost use Rattle.c_cells.specs.CellBytes.{CellDone};
ghost use Rattle.c_cells.specs.CellsBytes.{CellsDone};
ghost use Rattle.c_twin.specs.TwinBytes.{PowerBytesDone, StepBytesDone, RunBytesDone};
ghost use Rattle.certificate.specs.Certificate.{most_text};
ghost use Rattle.bmc.specs.Exports.{bytes_written, packed_certified, CertificateBytesDone};

use c_cells::{cell_into, cells_into};
use c_commands::command_bytes;
use c_parts::part_bytes;
use c_reader::read_bytes;
use c_reasons::explain_packed;
use c_twin::{power_on_bytes, run_bytes, step_bytes};
use certificate::certify;
use jobs::FileRefusal;
use numbers::TurnedAway;
use pec::pec;
use questions::question::ask;

pub fn bmc_read(
    kind: u8,
    n: u8,
    alive: u8,
    reg: u8,
    value: u16,
    device: u8,
    seed: u8,
    line: &[u8],
    out: &mut [u8],
) -> u32
    ensures { ReadBytesDone (asking kind n alive reg value device seed) line.now out.old out.new result }
{
    let q = ask(kind, n, alive, reg, value, device, seed);
    read_bytes(q, line, out)
}

pub fn bmc_command(
    kind: u8,
    n: u8,
    alive: u8,
    reg: u8,
    value: u16,
    device: u8,
    seed: u8,
    out: &mut [u8],
) -> u32
    ensures { CommandBytesDone (asking kind n alive reg value device seed) out.old out.new result }
{
    let command = ask(kind, n, alive, reg, value, device, seed);
    command_bytes(command, out)
}

pub fn bmc_certificate(file: &[u8], text: &mut [u8]) -> u32
    ensures { CertificateBytesDone file.now text.old text.new result }
{
    let certified = certify(file, text);
    packed_certified(certified)
}

pub fn bmc_twin_power_on(n: u8, memory: &mut [u8]) -> u32
    ensures { PowerBytesDone n memory.old memory.new result }
{
    power_on_bytes(n, memory)
}

pub fn bmc_twin_step(n: u8, device: u8, memory: &mut [u8], line: &[u8], out: &mut [u8]) -> u32
    ensures { StepBytesDone n device memory.old memory.new line.now out.old out.new result }
{
    step_bytes(n, device, memory, line, out)
}

pub fn bmc_twin_run(n: u8, memory: &mut [u8], line: &[u8], out: &mut [u8]) -> u32
    ensures { RunBytesDone n memory.old memory.new line.now out.old out.new result }
{
    run_bytes(n, memory, line, out)
}

pub fn bmc_part(
    kind: u8,
    n: u8,
    alive: u8,
    reg: u8,
    value: u16,
    device: u8,
    seed: u8,
    named: u8,
    line: &[u8],
) -> u32
    ensures { result ≡ part_in (asking kind n alive reg value device seed) named line.now }
{
    let put = ask(kind, n, alive, reg, value, device, seed);
    part_bytes(put, named, line)
}

pub fn bmc_cell(
    cell: u8,
    enabled: u16,
    reg: u16,
    bipolar: u8,
    microvolts: &mut i32,
    volts: &mut f32,
) -> u32
    ensures { CellDone cell enabled reg bipolar microvolts.old microvolts.new volts.old volts.new result }
{
    cell_into(cell, enabled, reg, bipolar, microvolts, volts)
}

pub fn bmc_cells(
    enabled: u16,
    bipolar: u8,
    registers: &[u8],
    microvolts: &mut [i32],
    volts: &mut [f32],
    answers: &mut [u32],
) -> u32
    ensures { CellsDone enabled bipolar registers.now microvolts.old microvolts.new volts.old volts.new answers.old answers.new result }
{
    cells_into(enabled, bipolar, registers, microvolts, volts, answers)
}

// Why a line is accepted or turned away, in one number.
pub fn bmc_explain(
    kind: u8,
    n: u8,
    alive: u8,
    reg: u8,
    value: u16,
    device: u8,
    seed: u8,
    line: &[u8],
) -> u64
    ensures { result ≡ packed_on (asking kind n alive reg value device seed) line.now }
{
    let answered = ask(kind, n, alive, reg, value, device, seed);
    explain_packed(answered, line)
}

// The PEC of some bytes, for firmware that frames its own.
pub fn bmc_pec(bytes: &[u8]) -> u32
    ensures { result ≡ pec_of bytes.now }
{
    pec(bytes) as u32
}

fn packed_certified(certified: Result<usize, FileRefusal>) -> u32
    requires { bytes_written certified ≤ most_text }
    ensures { result ≡ packed_certified certified }
{
    match certified {
        Ok(n) => 256 * n as u32,
        Err(why) => why.number() as u32,
    }
}
