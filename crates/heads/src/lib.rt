// The bytes of a command before its fill pairs (document 01, "Commands and answers"), for whoever writes a command, over words or over bytes.
#![tactic(auto)]

ghost use Rattle.std.specs.Prelude.{◌≡◌, ◌≤◌, take};
ghost use Rattle.heads.specs.Head.{with_alive, head_of, write_head, read_head};

use pec::step;
use questions::question::{Kind, Question, shape_of};

// Six places with the bytes at the front, and how many they are. That these are no more than six stands in no field: the definition `head_of`
// makes the same record, of two fields.
#[derive(Clone, Copy)]
pub struct Head {
    pub bytes: [u8; 6],
    pub count: usize,
}

impl Head {
    // The bytes alone.
    pub fn taken(&self) -> &[u8]
        ensures { result.now ≡ take self.now.count self.now.bytes }
    {
        &self.bytes[..self.count.min(6)]
    }
}

// What stands before the fill pairs, of any question; the alive byte's place is counted where the bench has it on.
pub fn head_of(q: Question) -> Head
    ensures { result ≡ head_of q }
{
    let s = shape_of(q);
    let first = (s.first % 256) as u8;
    match q.asks() {
        Kind::HelloAll => Head {
            bytes: [first, 0, 0, 0, 0, 0],
            count: 3,
        },
        Kind::WriteAll | Kind::WriteDevice => write_head(first, q),
        Kind::ReadAll | Kind::ReadDevice => read_head(first, q),
    }
}

fn write_head(first: u8, q: Question) -> Head
    ensures { result ≡ write_head first q }
{
    let reg = q.reg;
    let [low, high] = q.value.to_le_bytes();
    let check = step(step(step(step(0, first), reg), low), high);
    let seed = q.seed;
    Head {
        bytes: [first, reg, low, high, check, seed],
        count: with_alive(q, 5),
    }
}

fn read_head(first: u8, q: Question) -> Head
    ensures { result ≡ read_head first q }
{
    let reg = q.reg;
    let check = step(step(step(0, first), reg), 0);
    let seed = q.seed;
    Head {
        bytes: [first, reg, 0, check, seed, 0],
        count: with_alive(q, 4),
    }
}

// So many places, and the alive byte's where the bench has it on.
fn with_alive(q: Question, places: usize) -> usize
    requires { places ≤ 5 }
    ensures { result ≡ with_alive q places }
{
    if q.alive == 1 {
        return places + 1;
    }
    places
}
