// The fields that each kind of question uses; the others are zero (document 01, "Job file and certificate").
#![tactic(auto)]

ghost use Rattle.std.specs.Prelude.{◌≡◌};
ghost use Rattle.used_fields.specs.Used.{uses_of, unused_are_zero};

use questions::question::{Kind, Question};

// Which fields a question uses.
#[derive(Clone, Copy)]
pub struct Uses {
    pub register: bool,
    pub value: bool,
    pub device: bool,
    pub seed: bool,
}

// Whether every field that its kind does not use is 0.
#[tactic(auto, unfolding(crate::specs::Used::unused_are_zero))]
pub fn are_unused_zero(q: Question) -> bool
    ensures { result ≡ unused_are_zero q }
{
    let uses = uses_of(q);
    (uses.register || q.reg == 0)
        && (uses.value || q.value == 0)
        && (uses.device || q.device == 0)
        && (uses.seed || q.seed == 0)
}

#[tactic(auto, using(questions::proofs::ByKind::asked), unfolding(crate::specs::Used::uses_of))]
fn uses_of(q: Question) -> Uses
    ensures { result ≡ uses_of q }
{
    let seed = q.alive == 1;
    match q.asks() {
        Kind::HelloAll => Uses {
            register: false,
            value: false,
            device: false,
            seed: false,
        },
        Kind::WriteAll => Uses {
            register: true,
            value: true,
            device: false,
            seed,
        },
        Kind::WriteDevice => Uses {
            register: true,
            value: true,
            device: true,
            seed,
        },
        Kind::ReadAll => Uses {
            register: true,
            value: false,
            device: false,
            seed,
        },
        Kind::ReadDevice => Uses {
            register: true,
            value: false,
            device: true,
            seed,
        },
    }
}
