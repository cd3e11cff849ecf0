// Bytes laid one behind the other. It asks for room for each byte, so it is not total, and private here.
ghost use Rattle.std.specs.Prelude.{◌≡◌, ℕ, ◌+◌, ◌*◌, ◌<◌, ◌≤◌, List, [], ◌∷◌, ◌++◌, length, take};
ghost use Rattle.ground.specs.Sweep.{tabulated};
ghost use Rattle.lines.specs.Line.{byte_at};
ghost use Rattle.questions.specs.Bytes.{low_high, sealed, fill_pairs};
ghost use Rattle.underway.specs.declared.laid.TheConstants.{MOST};

use lines::read::byte_at;
use pec::pec;
use questions::question::Question;
use std::marker::Model;

// A command on its way has no more bytes: a READALL of 32 devices, with alive on.
pub(crate) const MOST: usize = 69;

#[derive(Drop)]
pub(crate) struct Laid {
    bytes: [u8; MOST],
    end: usize,
}

// Clauses see the bytes laid so far.
impl Model for Laid {
    ghost Value = { List ℕ };

    ghost view = { λ laid. take laid.end laid.bytes };

    ghost invariant = { λ laid. laid.end ≤ MOST };
}

impl Laid {
    pub(crate) fn nothing() -> Self
        ensures { result ≡ [] }
    {
        Laid {
            bytes: [0; MOST],
            end: 0,
        }
    }

    pub(crate) fn as_slice(&self) -> &[u8]
        ensures { result.now ≡ self.now }
    {
        &self.bytes[..self.end]
    }

    pub(crate) fn push(&mut self, byte: u8)
        requires { length self.old < MOST }
        ensures { self.new ≡ self.old ++ byte ∷ [] }
    {
        self.bytes[self.end] = byte;
        self.end += 1;
    }

    // A register's value: low byte, high byte.
    pub(crate) fn push_value(&mut self, value: u16)
        requires { length self.old + 2 ≤ MOST }
        ensures { self.new ≡ self.old ++ low_high value }
    {
        let [low, high] = value.to_le_bytes();
        self.push(low);
        self.push(high);
    }

    // The value bytes of a line that carries some: directly after the register byte.
    pub(crate) fn push_carried(&mut self, line: &[u16], count: usize)
        requires { length self.old + count ≤ MOST }
        ensures { self.new ≡ self.old ++ tabulated (byte_at line.now) count 2 }
    {
        let at = self.end;
        for i in 0..count {
            self.bytes[at + i] = byte_at(line, 2 + i);
        }
        self.end = at + count;
    }

    pub(crate) fn push_all(&mut self, more: &[u8])
        requires { length self.old + length more.now ≤ MOST }
        ensures { self.new ≡ self.old ++ more.now }
    {
        let at = self.end;
        for (i, &byte) in more.iter().enumerate() {
            self.bytes[at + i] = byte;
        }
        self.end = at + more.len();
    }

    pub(crate) fn push_pairs(&mut self, pairs: usize)
        requires { length self.old + 2 * pairs ≤ MOST }
        ensures { self.new ≡ self.old ++ fill_pairs pairs }
    {
        let at = self.end;
        for i in 0..pairs {
            self.bytes[at + 2 * i] = 0xC2;
            self.bytes[at + 2 * i + 1] = 0xD3;
        }
        self.end = at + 2 * pairs;
    }

    // The PEC of what stands, and the alive byte where it is on: after FFh comes 00h.
    pub(crate) fn seal(&mut self, q: Question, added: u8)
        requires { length self.old + 2 ≤ MOST }
        ensures { self.new ≡ sealed q added self.old }
    {
        let check = pec(self.as_slice());
        self.push(check);
        if q.alive == 1 {
            self.push(q.seed.wrapping_add(added));
        }
    }
}
