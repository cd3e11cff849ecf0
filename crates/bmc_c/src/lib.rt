// The exports of the static library (document 01, "The C side"), and nothing else: each hands its arguments to the function of its name in `bmc`, and has
// its clause word for word. include/bmc.h declares them.
#![tactic(auto)]

ghost use Rattle.std.specs.Prelude.{◌≡◌};
ghost use Rattle.pec.specs.Pec.{pec_of};
ghost use Rattle.questions.specs.Question.{asking};
ghost use Rattle.c_commands.specs.CommandBytes.{CommandBytesDone};
ghost use Rattle.c_reader.specs.ReadBytes.{ReadBytesDone};
ghost use Rattle.c_parts.specs.PartBytes.{part_in};
ghost use Rattle.c_reasons.specs.Explain.{packed_on};
ghost use Rattle.c_cells.specs.CellBytes.{CellDone};
ghost use Rattle.c_cells.specs.CellsBytes.{CellsDone};
ghost use Rattle.c_twin.specs.TwinBytes.{PowerBytesDone, StepBytesDone, RunBytesDone};
ghost use Rattle.bmc.specs.Exports.{CertificateBytesDone};

#[unsafe(no_mangle)]
pub extern "C" fn bmc_read(
    kind: u8,
    n: u8,
    alive: u8,
    reg: u8,
    value: u16,
    device: u8,
    seed: u8,
    line: &[u8],
    out: &mut [u8],
) -> u32
    ensures { ReadBytesDone (asking kind n alive reg value device seed) line.now out.old out.new result }
{
    bmc::bmc_read(kind, n, alive, reg, value, device, seed, line, out)
}

#[unsafe(no_mangle)]
pub extern "C" fn bmc_command(
    kind: u8,
    n: u8,
    alive: u8,
    reg: u8,
    value: u16,
    device: u8,
    seed: u8,
    out: &mut [u8],
) -> u32
    ensures { CommandBytesDone (asking kind n alive reg value device seed) out.old out.new result }
{
    bmc::bmc_command(kind, n, alive, reg, value, device, seed, out)
}

#[unsafe(no_mangle)]
pub extern "C" fn bmc_certificate(file: &[u8], text: &mut [u8]) -> u32
    ensures { CertificateBytesDone file.now text.old text.new result }
{
    bmc::bmc_certificate(file, text)
}

#[unsafe(no_mangle)]
pub extern "C" fn bmc_twin_power_on(n: u8, memory: &mut [u8]) -> u32
    ensures { PowerBytesDone n memory.old memory.new result }
{
    bmc::bmc_twin_power_on(n, memory)
}

#[unsafe(no_mangle)]
pub extern "C" fn bmc_twin_step(
    n: u8,
    device: u8,
    memory: &mut [u8],
    line: &[u8],
    out: &mut [u8],
) -> u32
    ensures { StepBytesDone n device memory.old memory.new line.now out.old out.new result }
{
    bmc::bmc_twin_step(n, device, memory, line, out)
}

#[unsafe(no_mangle)]
pub extern "C" fn bmc_twin_run(n: u8, memory: &mut [u8], line: &[u8], out: &mut [u8]) -> u32
    ensures { RunBytesDone n memory.old memory.new line.now out.old out.new result }
{
    bmc::bmc_twin_run(n, memory, line, out)
}

#[unsafe(no_mangle)]
pub extern "C" fn bmc_part(
    kind: u8,
    n: u8,
    alive: u8,
    reg: u8,
    value: u16,
    device: u8,
    seed: u8,
    named: u8,
    line: &[u8],
) -> u32
    ensures { result ≡ part_in (asking kind n alive reg value device seed) named line.now }
{
    bmc::bmc_part(kind, n, alive, reg, value, device, seed, named, line)
}

#[unsafe(no_mangle)]
pub extern "C" fn bmc_cell(
    cell: u8,
    enabled: u16,
    reg: u16,
    bipolar: u8,
    microvolts: &mut i32,
    volts: &mut f32,
) -> u32
    ensures { CellDone cell enabled reg bipolar microvolts.old microvolts.new volts.old volts.new result }
{
    bmc::bmc_cell(cell, enabled, reg, bipolar, microvolts, volts)
}

#[unsafe(no_mangle)]
pub extern "C" fn bmc_cells(
    enabled: u16,
    bipolar: u8,
    registers: &[u8],
    microvolts: &mut [i32],
    volts: &mut [f32],
    answers: &mut [u32],
) -> u32
    ensures { CellsDone enabled bipolar registers.now microvolts.old microvolts.new volts.old volts.new answers.old answers.new result }
{
    bmc::bmc_cells(enabled, bipolar, registers, microvolts, volts, answers)
}

// Why a line is accepted or turned away, in one number.
#[unsafe(no_mangle)]
pub extern "C" fn bmc_explain(
    kind: u8,
    n: u8,
    alive: u8,
    reg: u8,
    value: u16,
    device: u8,
    seed: u8,
    line: &[u8],
) -> u64
    ensures { result ≡ packed_on (asking kind n alive reg value device seed) line.now }
{
    bmc::bmc_explain(kind, n, alive, reg, value, device, seed, line)
}

// The PEC of some bytes, for firmware that frames its own.
#[unsafe(no_mangle)]
pub extern "C" fn bmc_pec(bytes: &[u8]) -> u32
    ensures { result ≡ pec_of bytes.now }
{
    bmc::bmc_pec(bytes)
}
