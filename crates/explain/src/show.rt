// What the explaining program prints.
use reasons::{Field, Spot};
use std::fmt;

// What stands at a spot, or would have passed there: a byte and a word in hex, fields and lengths in decimal.
#[derive(Drop)]
pub(crate) struct Quantity {
    pub(crate) spot: Spot,
    pub(crate) n: usize,
}

impl fmt::Display for Quantity {
    fn fmt<W: fmt::Write>(&self, f: &mut fmt::Formatter<W>) -> fmt::Result {
        let n = self.n;
        match self.spot {
            Spot::Asked(_) => write!(f, "{n}"),
            Spot::Whole => write!(f, "{n} bytes"),
            Spot::Word(_) => write!(f, "{:04X}h", n % 65536),
            Spot::Byte(_) => write!(f, "{:02X}h", n % 256),
        }
    }
}

// Where a spot is.
#[derive(Drop)]
pub(crate) struct Place(pub(crate) Spot);

impl fmt::Display for Place {
    fn fmt<W: fmt::Write>(&self, f: &mut fmt::Formatter<W>) -> fmt::Result {
        match self.0 {
            Spot::Asked(Field::Kind) => write!(f, "kind"),
            Spot::Asked(Field::Alive) => write!(f, "alive"),
            Spot::Asked(Field::Devices) => write!(f, "n"),
            Spot::Asked(Field::Device) => write!(f, "device"),
            Spot::Whole => write!(f, "the line"),
            Spot::Word(i) => write!(f, "word {i}"),
            Spot::Byte(i) => {
                // A byte of the line is two of its words. No answer has more than 69 bytes: the bound keeps the sum small, and is never met.
                let low = 1 + 2 * i.min(69);
                write!(f, "byte {i} (words {low} and {})", low + 1)
            }
        }
    }
}
