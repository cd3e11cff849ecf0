// What a line of text is made of: a byte, some bytes, a number in decimal figures. A byte beyond the lent memory is counted and not written.
ghost use Rattle.std.specs.Prelude.{◌∷◌, [], ◌≤◌, length};
ghost use Rattle.printing.specs.Text.{decimal, figure};
ghost use Rattle.printing.specs.Print.{Laid};

// The lent memory with the place where the next byte goes, which counts on beyond the end. Each method asks for a place far below the largest number,
// so that counting on cannot pass it; what a line takes differs, and one bound in the type would not hold behind the last line.
#[derive(Drop)]
pub(crate) struct Sheet<'a> {
    pub(crate) text: &'a mut [u8],
    pub(crate) at: usize,
}

impl Sheet<'_> {
    // Beyond the end nothing is written, and the byte is counted all the same.
    pub(crate) fn put(&mut self, byte: u8)
        requires { self.old.at ≤ 600000 }
        ensures { Laid self.old (byte ∷ []) self.new }
    {
        if self.at < self.text.len() {
            self.text[self.at] = byte;
        }
        self.at += 1;
    }

    pub(crate) fn put_all(&mut self, bytes: &[u8])
        requires { (self.old.at ≤ 500000) × (length bytes.now ≤ 100) }
        ensures { Laid self.old bytes.now self.new }
    {
        for byte in bytes {
            self.put(*byte);
        }
    }

    // A number of at most five figures, without zeros in front.
    pub(crate) fn put_number(&mut self, v: usize)
        requires { self.old.at ≤ 400000 }
        ensures { Laid self.old (decimal v) self.new }
    {
        self.put_figure(10000, v);
        self.put_figure(1000, v);
        self.put_figure(100, v);
        self.put_figure(10, v);
        self.put((0x30 + v % 10) as u8);
    }

    // One figure of a number, unless it would be a zero in front.
    fn put_figure(&mut self, worth: usize, v: usize)
        requires { (self.old.at ≤ 500000) × (1 ≤ worth) }
        ensures { Laid self.old (figure worth v) self.new }
    {
        if worth <= v {
            self.put((0x30 + v / worth % 10) as u8);
        }
    }
}
