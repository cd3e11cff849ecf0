// The bytes of an answer held to its question: rows 7 to 11 of document 01's "Turned away", each over all bytes before the next.
#![tactic(auto)]

ghost use Rattle.std.specs.Prelude.{◌≡◌, take, Ok};
ghost use Rattle.pec.specs.Pec.{pec_of};
ghost use Rattle.questions.specs.Shape.{shape_of};
ghost use Rattle.contents.specs.Rows.{echoed, value_echoed, pec_right, alive_right, check_byte, count_right, taken_of};
ghost use Rattle.contents.specs.InOrder.{judge_bytes};

use pec::pec;
use questions::question::{Kind, Question, Shape, shape_of};
use readings::{Refusal, Taken};
use slices::element_or;

// A question with the shape of its answer, which every row looks at.
#[derive(Clone, Copy)]
struct Asked {
    question: Question,
    shape: Shape,
    ghost shaped: { shape ≡ shape_of question },
}

impl Asked {
    // Row 7 of a write: its value came back.
    fn value_echoes(self, bytes: &[u8]) -> bool
        ensures { result ≡ value_echoed self.question bytes.now }
    {
        let [low, high] = self.question.value.to_le_bytes();
        element_or(bytes, 2, 0) == low && element_or(bytes, 3, 0) == high
    }

    // Row 7, ECHO: the first and second byte, and a write's value, are what was asked.
    #[tactic(auto, unfolding(crate::specs::Rows::echoed))]
    fn echoes(self, bytes: &[u8]) -> bool
        ensures { result ≡ echoed self.question bytes.now }
    {
        let q = self.question;
        let second = element_or(bytes, 1, 0);
        element_or(bytes, 0, 0) as u16 == self.shape.first
            && match q.asks() {
                Kind::HelloAll => second == 0,
                Kind::WriteAll | Kind::WriteDevice => second == q.reg && self.value_echoes(bytes),
                Kind::ReadAll | Kind::ReadDevice => second == q.reg,
            }
    }

    // Row 8, PEC.
    #[tactic(auto, unfolding(crate::specs::Rows::pec_right))]
    fn pec_is_right(self, bytes: &[u8]) -> bool
        ensures { result ≡ pec_right self.question bytes.now }
    {
        let covered = self.shape.covered;
        match self.question.asks() {
            Kind::HelloAll => true,
            Kind::WriteAll | Kind::WriteDevice | Kind::ReadAll | Kind::ReadDevice => {
                element_or(bytes, covered, 0) == pec_before(bytes, covered)
            }
        }
    }

    // Row 9, ALIVE: the seed and one for each device that acts, and after FFh comes 00h.
    #[tactic(auto, unfolding(crate::specs::Rows::alive_right))]
    fn alive_is_right(self, bytes: &[u8]) -> bool
        ensures { result ≡ alive_right self.question bytes.now }
    {
        let q = self.question;
        let due = q.seed.wrapping_add(self.shape.acting);
        match q.asks() {
            Kind::HelloAll => true,
            Kind::WriteAll | Kind::WriteDevice | Kind::ReadAll | Kind::ReadDevice => {
                q.alive != 1 || element_or(bytes, self.shape.covered + 1, 0) == due
            }
        }
    }

    // The check byte of a read, which stands behind the values; 0 of the other kinds, which have none.
    fn check_byte(self, bytes: &[u8]) -> u8
        ensures { result ≡ check_byte self.question bytes.now }
    {
        match self.question.asks() {
            Kind::HelloAll | Kind::WriteAll | Kind::WriteDevice => 0,
            Kind::ReadAll | Kind::ReadDevice => element_or(bytes, 2 + 2 * self.shape.values, 0),
        }
    }

    // Row 11, COUNT: HELLOALL's last byte is 1 to 32.
    #[tactic(auto, unfolding(crate::specs::Rows::count_right))]
    fn count_is_right(self, bytes: &[u8]) -> bool
        ensures { result ≡ count_right self.question bytes.now }
    {
        match self.question.asks() {
            Kind::HelloAll => (1..=32).contains(&element_or(bytes, 2, 0)),
            Kind::WriteAll | Kind::WriteDevice | Kind::ReadAll | Kind::ReadDevice => true,
        }
    }

    // What is taken where every row passes.
    #[tactic(auto, unfolding(crate::specs::Rows::taken_of))]
    fn taken(self, bytes: &[u8]) -> Taken
        ensures { Ok result ≡ taken_of self.question bytes.now }
    {
        match self.question.asks() {
            Kind::HelloAll => Taken::Counted(element_or(bytes, 2, 0)),
            Kind::WriteAll | Kind::WriteDevice => Taken::Written,
            Kind::ReadAll | Kind::ReadDevice => Taken::Values(self.shape.values),
        }
    }
}

// The PEC of as many bytes as are covered.
fn pec_before(bytes: &[u8], covered: usize) -> u8
    ensures { result ≡ pec_of (take covered bytes.now) }
{
    pec(&bytes[..covered.min(bytes.len())])
}

// Rows 7 to 11, and what is taken where all of them pass.
pub fn judge_bytes(q: Question, bytes: &[u8]) -> Result<Taken, Refusal>
    ensures { result ≡ judge_bytes q bytes.now }
{
    let s = shape_of(q);
    let asked = Asked {
        question: q,
        shape: s,
    };
    if !asked.echoes(bytes) {
        return Err(Refusal::Echo);
    }
    if !asked.pec_is_right(bytes) {
        return Err(Refusal::Pec);
    }
    if !asked.alive_is_right(bytes) {
        return Err(Refusal::Alive);
    }
    let check = asked.check_byte(bytes);
    if check != 0 {
        return Err(Refusal::Check(check));
    }
    if !asked.count_is_right(bytes) {
        return Err(Refusal::Count(element_or(bytes, 2, 0)));
    }
    Ok(asked.taken(bytes))
}
