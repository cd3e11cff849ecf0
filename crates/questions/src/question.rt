// A question as plain numbers, bad ones included, and what follows from its kind.
ghost use Rattle.std.specs.Prelude.{◌≡◌};
ghost use Rattle.questions.specs.Question.{asking, good_question, covers, kind_at, Names};
ghost use Rattle.questions.specs.Shape.{shape_of};

pub const HELLOALL: u8 = 0;

pub const WRITEALL: u8 = 1;

pub const WRITEDEVICE: u8 = 2;

pub const READALL: u8 = 3;

pub const READDEVICE: u8 = 4;

// What a question asks.
#[derive(Clone, Copy, Debug, PartialEq, Eq)]
pub enum Kind {
    HelloAll,
    WriteAll,
    WriteDevice,
    ReadAll,
    ReadDevice,
}

// A number above 4, which no kind has.
#[derive(Clone, Copy, Debug, PartialEq, Eq)]
pub struct NoKind;

impl TryFrom<u8> for Kind {
    type Error = NoKind;

    ghost try_from_gives = { Names };

    fn try_from(kind: u8) -> Result<Kind, NoKind> {
        match kind {
            HELLOALL => Ok(Kind::HelloAll),
            WRITEALL => Ok(Kind::WriteAll),
            WRITEDEVICE => Ok(Kind::WriteDevice),
            READALL => Ok(Kind::ReadAll),
            READDEVICE => Ok(Kind::ReadDevice),
            _ => Err(NoKind),
        }
    }
}

// A question as C and job files bring it. Its kind stays a number, and its alive one too, since row QUESTION is given for bad ones.
// The kind, how many devices the chain has, whether the alive byte is on (1) or off (0), and what the kind uses of the rest.
#[derive(Clone, Copy)]
pub struct Question {
    pub kind: u8,
    pub n: u8,
    pub alive: u8,
    pub reg: u8,
    pub value: u16,
    pub device: u8,
    pub seed: u8,
}

// What a kind settles of command and answer: the command byte, what is added to the alive byte, how many values the answer carries, how many
// bytes of the answer stand before its PEC, and how many words command and answer have.
#[derive(Clone, Copy)]
pub struct Shape {
    pub first: u16,
    pub acting: u8,
    pub values: usize,
    pub covered: usize,
    pub words: usize,
}

impl Question {
    // What is asked. A number above 4, which no good question has, is taken for READDEVICE.
    pub fn asks(self) -> Kind
        ensures { result ≡ kind_at self.kind }
    {
        Kind::try_from(self.kind).unwrap_or(Kind::ReadDevice)
    }
}

// A question of its seven numbers.
pub fn ask(kind: u8, n: u8, alive: u8, reg: u8, value: u16, device: u8, seed: u8) -> Question
    ensures { result ≡ asking kind n alive reg value device seed }
{
    Question {
        kind,
        n,
        alive,
        reg,
        value,
        device,
        seed,
    }
}

// Row 1, QUESTION, is given where this is false.
pub fn is_good(q: Question) -> bool
    ensures { result ≡ good_question q }
{
    let Ok(kind) = Kind::try_from(q.kind) else {
        return false;
    };
    if 1 < q.alive {
        return false;
    }
    let chain = (1..=32).contains(&q.n);
    match kind {
        Kind::HelloAll => true,
        Kind::WriteAll | Kind::ReadAll => chain,
        Kind::WriteDevice | Kind::ReadDevice => chain && q.device < q.n,
    }
}

// Whether a good question writes or reads a register of this device.
pub fn is_covered(q: Question, device: u8) -> bool
    ensures { result ≡ covers q device }
{
    match q.asks() {
        Kind::HelloAll => false,
        Kind::WriteAll | Kind::ReadAll => device < q.n,
        Kind::WriteDevice | Kind::ReadDevice => device == q.device,
    }
}

// The shape of the question's answer.
pub fn shape_of(q: Question) -> Shape
    ensures { result ≡ shape_of q }
{
    let n = q.n;
    let device = q.device;
    let alive = q.alive as usize;
    match q.asks() {
        Kind::HelloAll => Shape {
            first: 0x57,
            acting: 0,
            values: 0,
            covered: 3,
            words: 8,
        },
        Kind::WriteAll => Shape {
            first: 0x02,
            acting: n,
            values: 0,
            covered: 4,
            words: 12 + 2 * alive,
        },
        Kind::WriteDevice => Shape {
            first: device as u16 * 8 + 4,
            acting: 1,
            values: 0,
            covered: 4,
            words: 12 + 2 * alive,
        },
        Kind::ReadAll => Shape {
            first: 0x03,
            acting: n,
            values: n as usize,
            covered: 2 * (n as usize) + 3,
            words: 10 + 4 * (n as usize) + 2 * alive,
        },
        Kind::ReadDevice => Shape {
            first: device as u16 * 8 + 5,
            acting: 1,
            values: 1,
            covered: 5,
            words: 14 + 2 * alive,
        },
    }
}
