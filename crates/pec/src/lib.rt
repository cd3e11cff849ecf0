// The packet error check, PEC, of document 01 and data sheet 004: one byte, and a list of bytes.
#![tactic(auto)]

mod moved;
mod table;

ghost use Rattle.std.specs.Prelude.{◌≡◌};
ghost use Rattle.std.specs.Int.Bits.{bit_xor};
ghost use Rattle.remainder.specs.Register.{run};
ghost use Rattle.pec.specs.Pec.{byte_step, remainder_table, pec_of};
ghost use Rattle.pec.specs.Moved.{moved, moved_table};

use moved::MOVED;
use table::TABLE;

// The remainders of the 256 bytes. A loop asks for them once: each use of a table lays it out anew. Document 01 has a table's rule proved once over
// the whole table: so each of the two has a function with its rule. Tried in place: the rule was proved anew at each use.
fn remainders() -> [u8; 256]
    ensures { result ≡ remainder_table }
{
    TABLE
}

fn moved_states() -> [u8; 256]
    ensures { result ≡ moved_table }
{
    MOVED
}

// The PEC so far, with one more byte taken in. For a few bytes these shifts, which do the eight bits at once, cost less than laying out the table.
pub fn step(crc: u8, byte: u8) -> u8
    ensures { result ≡ byte_step crc byte }
{
    let x = (crc ^ byte) as u32;
    let q = (x ^ (x * 4) ^ (x * 16) ^ (x * 32)) & 0xFF;
    (q ^ (q / 4) ^ (q / 8) ^ (q / 64)) as u8
}

fn take_in(table: &[u8; 256], crc: u8, byte: u8) -> u8
    requires { table.now ≡ remainder_table }
    ensures { result ≡ byte_step crc byte }
{
    table[(crc ^ byte) as usize]
}

// A byte brought together with the one four places before it.
fn bring_on(table: &[u8; 256], before: u8, byte: u8) -> u8
    requires { table.now ≡ moved_table }
    ensures { result ≡ bit_xor (moved before) byte }
{
    table[before as usize] ^ byte
}

// The PEC of some bytes. Four bytes at a time are brought on to the next four, which no byte has to wait for; the last four and what is left
// behind them are taken in one by one.
pub fn pec(bytes: &[u8]) -> u8
    ensures { result ≡ pec_of bytes.now }
{
    let remainders = remainders();
    if bytes.len() < 4 {
        return take_in_all(&remainders, 0, bytes);
    }
    let moved = moved_states();
    let mut a = bytes[0];
    let mut b = bytes[1];
    let mut c = bytes[2];
    let mut d = bytes[3];
    // Four states, each with a byte of its own: a block of `chunks_exact` would be read by places just so, and what is left behind the last block is
    // taken in from the same place on.
    let mut i = 4;
    while 4 <= bytes.len() - i {
        a = bring_on(&moved, a, bytes[i]);
        b = bring_on(&moved, b, bytes[i + 1]);
        c = bring_on(&moved, c, bytes[i + 2]);
        d = bring_on(&moved, d, bytes[i + 3]);
        i += 4;
    }
    let folded = take_in_all(&remainders, 0, &[a, b, c, d]);
    take_in_all(&remainders, folded, &bytes[i..])
}

// The PEC so far, with some more bytes taken in one by one.
fn take_in_all(table: &[u8; 256], crc: u8, bytes: &[u8]) -> u8
    requires { table.now ≡ remainder_table }
    ensures { result ≡ run byte_step crc bytes.now }
{
    let mut crc = crc;
    for &byte in bytes {
        crc = take_in(table, crc, byte);
    }
    crc
}
