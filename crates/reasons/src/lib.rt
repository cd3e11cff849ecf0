// Why an answer is turned away (document 02, M-101): the reader's refusal, where it was found, what stood there, and the one thing that would have
// passed there where there is but one. The reader is asked as it stands; for the rows that carry no place the line is looked at once more.
#![tactic(auto)]

ghost use Rattle.std.specs.Prelude.{◌≡◌};
ghost use Rattle.ground.specs.Sweep.{tabulated};
ghost use Rattle.pec.specs.Pec.{pec_of};
ghost use Rattle.lines.specs.Line.{byte_at};
ghost use Rattle.reasons.specs.Reason.{field_in, bad_field, device_right, field_right, at_field, at_line, at_word, at_byte, last_place, at_ends};
ghost use Rattle.reasons.specs.Reason.{asked_byte, as_asked, echo_place, at_echo, at_pec, at_alive, at_check, because_of, reason_of, because_number};

use characters::{PREAMBLE, STOP};
use lines::read::byte_at;
use numbers::TurnedAway;
use pec::step;
use questions::question::{Kind, Question, shape_of};
use reader::read::read;
use readings::Refusal;
use slices::element_or;

// A field of a question that row 1 looks at, in that row's order.
#[derive(Clone, Copy, Debug, PartialEq, Eq)]
pub enum Field {
    Kind,
    Alive,
    Devices,
    Device,
}

// Where a check looks: at a field of what was asked, at the line as a whole, at a word of it, or at a byte, which is the words 1 + 2i and 2 + 2i.
#[derive(Clone, Copy, Debug, PartialEq, Eq)]
pub enum Spot {
    Asked(Field),
    Whole,
    Word(usize),
    Byte(usize),
}

// Why the reader turns an answer away. `right` is the one thing that would have passed there, where it is not one of several.
#[derive(Clone, Copy, Debug, PartialEq, Eq)]
pub struct Because {
    pub why: Refusal,
    pub spot: Spot,
    pub stood: usize,
    pub right: Option<usize>,
}

impl TurnedAway for Because {
    ghost number = { because_number };

    fn number(self) -> u8 {
        let why = self.why;
        why.number()
    }
}

// Why the reader takes an answer or turns it away. There is room for any answer's values, so ROOM is never the reason.
pub fn explain(q: Question, line: &[u16]) -> Result<(), Because>
    ensures { result ≡ reason_of q line.now }
{
    let mut values: [u16; 32] = [0; 32];
    match read(q, line, &mut values) {
        Ok(_) => Ok(()),
        Err(why) => Err(reason_for(q, line, why)),
    }
}

// The reason of a refusal.
fn reason_for(q: Question, line: &[u16], why: Refusal) -> Because
    ensures { result ≡ because_of q line.now why }
{
    match why {
        Refusal::Question => at_field(q, bad_field(q)),
        Refusal::Room | Refusal::Length => at_line(q, line, why),
        Refusal::Character(i) | Refusal::Manchester(i) => at_word(line, why, i, None),
        Refusal::Frame => at_ends(line),
        Refusal::Echo => at_echo(q, line),
        Refusal::Pec => at_pec(q, line),
        Refusal::Alive => at_alive(q, line),
        Refusal::Check(_) => at_check(q, line, why),
        Refusal::Count(_) => at_byte(line, why, 2, None),
    }
}

// The first field, in row 1's order, that breaks its own clause, of a question that row 1 turns away.
fn bad_field(q: Question) -> Field
    ensures { result ≡ bad_field q }
{
    if Kind::try_from(q.kind).is_err() {
        return Field::Kind;
    }
    if 1 < q.alive {
        return Field::Alive;
    }
    if !(1..=32).contains(&q.n) {
        return Field::Devices;
    }
    Field::Device
}

fn field_in(q: Question, field: Field) -> usize
    ensures { result ≡ field_in q field }
{
    match field {
        Field::Kind => q.kind as usize,
        Field::Alive => q.alive as usize,
        Field::Devices => q.n as usize,
        Field::Device => q.device as usize,
    }
}

// Only a chain of one device leaves a field no choice: its device is 0.
fn field_right(q: Question, field: Field) -> Option<usize>
    ensures { result ≡ field_right q field }
{
    match field {
        Field::Kind => None,
        Field::Alive => None,
        Field::Devices => None,
        Field::Device => one_device(q),
    }
}

fn one_device(q: Question) -> Option<usize>
    ensures { result ≡ device_right q }
{
    if q.n == 1 {
        return Some(0);
    }
    None
}

// From here on each function makes the `Because` that the definition of its name in specs/Reason.antt says: the laws of what is told cite them by row.
fn at_field(q: Question, field: Field) -> Because
    ensures { result ≡ at_field q field }
{
    Because {
        why: Refusal::Question,
        spot: Spot::Asked(field),
        stood: field_in(q, field),
        right: field_right(q, field),
    }
}

fn at_line(q: Question, line: &[u16], why: Refusal) -> Because
    ensures { result ≡ at_line q line.now why }
{
    let s = shape_of(q);
    Because {
        why,
        spot: Spot::Whole,
        stood: line.len(),
        right: Some(s.words),
    }
}

fn at_word(line: &[u16], why: Refusal, i: usize, right: Option<usize>) -> Because
    ensures { result ≡ at_word line.now why i right }
{
    Because {
        why,
        spot: Spot::Word(i),
        stood: element_or(line, i, 0) as usize,
        right,
    }
}

fn at_byte(line: &[u16], why: Refusal, i: usize, right: Option<usize>) -> Because
    ensures { result ≡ at_byte line.now why i right }
{
    Because {
        why,
        spot: Spot::Byte(i),
        stood: byte_at(line, i) as usize,
        right,
    }
}

// Row 5: the first word, or else the last.
fn at_ends(line: &[u16]) -> Because
    ensures { result ≡ at_ends line.now }
{
    if element_or(line, 0, 0) != PREAMBLE {
        return at_word(line, Refusal::Frame, 0, Some(PREAMBLE as usize));
    }
    at_word(line, Refusal::Frame, last_place(line), Some(STOP as usize))
}

// How many words stand behind the first.
fn last_place(line: &[u16]) -> usize
    ensures { result ≡ last_place line.now }
{
    line.len().saturating_sub(1)
}

// Row 7: the lowest byte that is not as asked.
fn at_echo(q: Question, line: &[u16]) -> Because
    ensures { result ≡ at_echo q line.now }
{
    let i = echo_place(q, line);
    at_byte(line, Refusal::Echo, i, Some(asked_byte(q, i)))
}

// Of a line that row 7 turns away: where the first three are as asked, it is the fourth.
fn echo_place(q: Question, line: &[u16]) -> usize
    ensures { result ≡ echo_place q line.now }
{
    if !is_as_asked(q, line, 0) {
        return 0;
    }
    if !is_as_asked(q, line, 1) {
        return 1;
    }
    if !is_as_asked(q, line, 2) {
        return 2;
    }
    3
}

fn is_as_asked(q: Question, line: &[u16], i: usize) -> bool
    ensures { result ≡ as_asked q line.now i }
{
    byte_at(line, i) as usize == asked_byte(q, i)
}

// The byte that an answer repeats at a place: the first byte, then of HELLOALL 00 and of any other the register, then a write's value.
fn asked_byte(q: Question, i: usize) -> usize
    ensures { result ≡ asked_byte q i }
{
    let [low, high] = q.value.to_le_bytes();
    match i {
        0 => first_byte(q),
        1 => second_byte(q),
        2 => low as usize,
        _ => high as usize,
    }
}

fn first_byte(q: Question) -> usize
    ensures { result ≡ asked_byte q 0 }
{
    let s = shape_of(q);
    s.first as usize
}

fn second_byte(q: Question) -> usize
    ensures { result ≡ asked_byte q 1 }
{
    match q.asks() {
        Kind::HelloAll => 0,
        Kind::WriteAll | Kind::WriteDevice | Kind::ReadAll | Kind::ReadDevice => q.reg as usize,
    }
}

// Row 8: the PEC of the bytes before it as they stand.
fn at_pec(q: Question, line: &[u16]) -> Because
    ensures { result ≡ at_pec q line.now }
{
    let s = shape_of(q);
    let covered = s.covered;
    at_byte(
        line,
        Refusal::Pec,
        covered,
        Some(pec_before(line, covered) as usize),
    )
}

// The PEC of a line's bytes below a place.
fn pec_before(line: &[u16], end: usize) -> u8
    ensures { result ≡ pec_of (tabulated (byte_at line.now) end 0) }
{
    let mut crc: u8 = 0;
    for i in 0..end {
        crc = step(crc, byte_at(line, i));
    }
    crc
}

// Row 9: the seed and one for each device that acts, and after FFh comes 00h.
fn at_alive(q: Question, line: &[u16]) -> Because
    ensures { result ≡ at_alive q line.now }
{
    let s = shape_of(q);
    let due = q.seed.wrapping_add(s.acting);
    at_byte(line, Refusal::Alive, s.covered + 1, Some(due as usize))
}

// Row 10: behind the values.
fn at_check(q: Question, line: &[u16], why: Refusal) -> Because
    ensures { result ≡ at_check q line.now why }
{
    let s = shape_of(q);
    at_byte(line, why, 2 + 2 * s.values, Some(0))
}
