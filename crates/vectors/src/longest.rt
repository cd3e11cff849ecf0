// The worked numbers of long answers: 32 devices, and the damage at 15 that is not found.
use crate::heard::answer;
use crate::wire::ask;
use questions::question::READALL;
use std::io;
use writing::put_line;

// 32 devices with seed F0h: the alive byte comes back as 10h. 140 words are good, 141 are LENGTH.
pub(crate) fn longest(rt: &impl Print) -> io::Result<()> {
    let q = ask(READALL, 32, 1, 0xF0);
    let mut bytes = [0; 69];
    bytes[0] = 0x03;
    bytes[1] = 0x12;
    bytes[67] = 0xD9;
    bytes[68] = 0x10;
    let mut line = [0; 140];
    let _ = put_line(&bytes, &mut line);
    answer(rt, q, &line)?;
    answer(rt, q, &[0; 141])
}

// At 15 devices, bit 0 of the first value byte and bit 7 of the PEC turned over give another acceptable answer.
pub(crate) fn fifteen(rt: &impl Print) -> io::Result<()> {
    let q = ask(READALL, 15, 0, 0);
    let mut bytes = [0; 34];
    bytes[0] = 0x03;
    bytes[1] = 0x12;
    bytes[33] = 0x28;
    let mut line = [0; 70];
    let _ = put_line(&bytes, &mut line);
    line[5] ^= 0x006;
    answer(rt, q, &line)?;
    line[68] ^= 0x180;
    answer(rt, q, &line)
}
