// A whole command on its way (document 01, "The twin"): its first byte and register, what its kind has behind them, and the seal of PEC and alive
// byte.
ghost use Rattle.std.specs.Prelude.{◌≡◌, ℕ, ◌+◌, ◌-◌, ◌*◌, ◌%◌, ◌<◌, ◌≤◌, List, [], ◌∷◌, ◌++◌, length};
ghost use Rattle.questions.specs.Shape.{shape_of};
ghost use Rattle.questions.specs.Bytes.{low_high, sealed, fill_pairs};
ghost use Rattle.underway.specs.OnTheWay.{on_the_way};

use crate::laid::{Laid, MOST};
use questions::question::{Kind, Question, shape_of};
use std::marker::Model;

// The value bytes that devices have put in: two for each device, of 32 at most.
#[derive(Drop)]
pub(crate) struct Wire<'a> {
    pub(crate) bytes: &'a [u8],
}

impl<'a> Model for Wire<'a> {
    ghost Value = { List ℕ };

    ghost view = { λ wire. wire.bytes.now };

    ghost invariant = { λ wire. (length wire.bytes.now ≤ 64) × (length wire.bytes.now % 2 ≡ 0) };
}

// A command on its way, in the place of what was laid there before. It is lent: a `Laid` handed back by value would be copied.
pub(crate) fn lay(q: Question, count: u8, added: u8, wire: Wire, laid: &mut Laid)
    requires { ((shape_of q).first < 256) × ((shape_of q).values ≤ 32) }
    ensures { laid.new ≡ on_the_way q count added wire.entry }
{
    let shape = shape_of(q);
    let first = shape.first as u8;
    match q.asks() {
        Kind::HelloAll => lay_hello(first, count, laid),
        Kind::WriteAll | Kind::WriteDevice => lay_write(first, q, added, laid),
        Kind::ReadAll | Kind::ReadDevice => {
            let pairs = shape.values.saturating_sub(wire.bytes.len() / 2);
            lay_read(first, q, added, wire.bytes, pairs, laid);
        }
    }
}

fn lay_hello(first: u8, count: u8, laid: &mut Laid)
    ensures { laid.new ≡ first ∷ 0 ∷ count ∷ [] }
{
    *laid = Laid::nothing();
    laid.push_all(&[first, 0, count]);
}

fn lay_write(first: u8, q: Question, added: u8, laid: &mut Laid)
    ensures { laid.new ≡ sealed q added (first ∷ q.reg ∷ low_high q.value) }
{
    *laid = Laid::nothing();
    laid.push(first);
    laid.push(q.reg);
    laid.push_value(q.value);
    laid.seal(q, added);
}

fn lay_read(first: u8, q: Question, added: u8, wire: &[u8], pairs: usize, laid: &mut Laid)
    requires { length wire.now + 2 * pairs + 5 ≤ MOST }
    ensures { laid.new ≡ sealed q added (first ∷ q.reg ∷ (wire.now ++ (0 ∷ []))) ++ fill_pairs pairs }
{
    *laid = Laid::nothing();
    laid.push(first);
    laid.push(q.reg);
    laid.push_all(wire);
    laid.push(0);
    laid.seal(q, added);
    laid.push_pairs(pairs);
}
