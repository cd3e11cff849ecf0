// The mask of an entry of a job file (document 02, M-100): the bits that a write is expected to show. Which kinds are writes, how an entry's mask
// reads in each version of the file, and which masks keep the rules.
#![tactic(auto)]

ghost use Rattle.std.specs.Prelude.{◌≡◌};
ghost use Rattle.masks.specs.Masks.{is_write, mask_of, good_mask};

use questions::question::{WRITEALL, WRITEDEVICE};

// All sixteen bits of a value.
const ALL_BITS: u16 = 0xFFFF;

// A kind by its number, as a file's byte has it: the number may name no kind at all, and is then no write.
pub fn is_write(kind: u8) -> bool
    ensures { result ≡ is_write kind }
{
    matches!(kind, WRITEALL | WRITEDEVICE)
}

// An entry's mask: what the entry says, where the file's version has the field; before, all bits for a write and none for the others.
#[tactic(auto, unfolding(crate::specs::Masks::mask_of))]
pub fn mask_of(version: u16, kind: u8, said: u16) -> u16
    ensures { result ≡ mask_of version kind said }
{
    if 2 <= version {
        said
    } else if is_write(kind) {
        ALL_BITS
    } else {
        0
    }
}

// Whether a mask keeps the rules: a write's is not 0, and before version 2 all bits; that of the other kinds is 0. FILE is given where it does not.
#[tactic(auto, unfolding(crate::specs::Masks::good_mask))]
pub fn is_good_mask(version: u16, kind: u8, mask: u16) -> bool
    ensures { result ≡ good_mask version kind mask }
{
    if !is_write(kind) {
        mask == 0
    } else if version < 2 {
        mask == ALL_BITS
    } else {
        mask != 0
    }
}
