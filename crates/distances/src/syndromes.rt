// The syndrome of a bit of a READALL answer: what turning it over adds, by xor, to the difference between the PEC that is due and the PEC
// that stands there. A damage passes when the syndromes of its bits xor to 0, whatever the values are.
use std::array;

// The remainder once some bytes of 0 are taken in too.
fn with_zeros(start: u8, count: usize) -> u8 {
    (0..count).fold(start, |crc, _| pec::step(crc, 0))
}

// The syndrome of one bit of byte i. Bytes are counted from the end: byte 0 is the PEC, whose bits are their own syndromes. The others are
// the value bytes, and behind byte i the PEC covers i more: i - 1 value bytes and the check byte. The check byte must stay 0, so its bits
// are not among those that a damage turns over.
fn syndrome(i: usize, mask: u8) -> u8 {
    if i == 0 {
        mask
    } else {
        with_zeros(pec::step(0, mask), i)
    }
}

// The syndromes for 32 devices: 8 bits of the PEC and 512 of the values, from the end. Fewer devices have the first of them.
pub(crate) fn syndromes() -> [u8; 520] {
    array::from_fn(|i| syndrome(i / 8, 1 << (i % 8)))
}
