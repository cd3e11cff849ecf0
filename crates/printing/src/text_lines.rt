// The lines of a certificate (document 01, "Job file and certificate"; document 02, M-100): the first one, one for each entry, one for each device
// that the write covers.
ghost use Rattle.std.specs.Prelude.{◌≤◌, length};
ghost use Rattle.printing.specs.Text.{numbers_line, head_line, entry_line, entry_lines, device_line, device_line_if, device_lines};
ghost use Rattle.printing.specs.Print.{Laid, most_entries};

use crate::figures::Sheet;
use letters::Standing;
use questions::question::{Question, is_covered};

impl Sheet<'_> {
    // The file's version, and the chain's n.
    #[tactic(auto, unfolding(crate::specs::Text::head_line))]
    pub(crate) fn put_head(&mut self, version: u16, n: u8)
        requires { self.old.at ≤ 100 }
        ensures { Laid self.old (head_line version n) self.new }
    {
        self.put_numbers(b"BMC ", version as usize, n as usize);
    }

    // A line of two numbers: its mark, the numbers with a space between them, and the line feed.
    #[tactic(auto, using(crate::proofs::Lengths::decimal_most))]
    fn put_numbers(&mut self, mark: &[u8], a: usize, b: usize)
        requires { (self.old.at ≤ 200000) × (length mark.now ≤ 100) }
        ensures { Laid self.old (numbers_line mark.now a b) self.new }
    {
        self.put_all(mark);
        self.put_number(a);
        self.put(0x20);
        self.put_number(b);
        self.put(0x0A);
    }

    pub(crate) fn put_entries(&mut self, numbers: &[u8])
        requires { (self.old.at ≤ 200) × (length numbers.now ≤ most_entries) }
        ensures { Laid self.old (entry_lines numbers.now) self.new }
    {
        for (k, r) in numbers.iter().enumerate() {
            self.put_entry(k + 1, *r);
        }
    }

    #[tactic(auto, unfolding(crate::specs::Text::entry_line))]
    fn put_entry(&mut self, i: usize, r: u8)
        requires { self.old.at ≤ 200000 }
        ensures { Laid self.old (entry_line i r) self.new }
    {
        self.put_numbers(b"E ", i, r as usize);
    }

    pub(crate) fn put_devices(&mut self, standing: Standing)
        requires { self.old.at ≤ 200000 }
        ensures { Laid self.old (device_lines standing) self.new }
    {
        for device in 0..32 {
            let letter = standing.letters[device as usize];
            self.put_device_if(standing.write, device, letter);
        }
    }

    fn put_device_if(&mut self, write: Question, device: u8, letter: u8)
        requires { self.old.at ≤ 300000 }
        ensures { Laid self.old (device_line_if write device letter) self.new }
    {
        if is_covered(write, device) {
            self.put_device(device, letter);
        }
    }

    #[tactic(auto, using(crate::proofs::Lengths::decimal_most))]
    fn put_device(&mut self, device: u8, letter: u8)
        requires { self.old.at ≤ 300000 }
        ensures { Laid self.old (device_line device letter) self.new }
    {
        self.put_all(b"D ");
        self.put_number(device as usize);
        self.put(0x20);
        self.put(letter);
        self.put(0x0A);
    }
}
