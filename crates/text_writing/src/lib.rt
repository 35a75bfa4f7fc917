// Text put into a lent buffer, one piece behind another.
#![tactic(auto)]

ghost use Rattle.std.specs.Prelude.{◌+◌, ◌*◌, ◌≤◌, length};
ghost use Rattle.rules.specs.Sheet.{decimal, spaced};
ghost use Rattle.text_writing.specs.Text.{Puts};

use base_copies::copy_in;

// A lent buffer, and the place in it at which the next text begins.
#[derive(Drop)]
pub struct Writer<'a> {
    pub buf: &'a mut [u8],
    pub at: usize,
}

impl<'a> Writer<'a> {
    // The bytes of a text.
    pub fn put_bytes(&mut self, text: &[u8])
        requires { self.old.at + length text.now ≤ length self.old.buf.now }
        ensures { Puts self.old text.now self.new }
    {
        copy_in(self.buf, self.at, text);
        self.at += text.len();
    }

    // A number's digits, with no leading zero.
    fn put_decimal(&mut self, x: u64)
        requires { self.old.at + 20 ≤ length self.old.buf.now }
        ensures put { Puts self.old (decimal x) self.new }
        ensures short { self.new.at ≤ self.old.at + 20 }
    {
        let mut digits = itoa::Buffer::new();
        self.put_bytes(digits.format(x).as_bytes());
    }

    // Each number behind a single space.
    pub fn put_numbers(&mut self, xs: &[u64])
        requires { self.old.at + 21 * length xs.now ≤ length self.old.buf.now }
        ensures put { Puts self.old (spaced xs.now) self.new }
        ensures short { self.new.at ≤ self.old.at + 21 * length xs.now }
    {
        for x in xs {
            self.put_bytes(b" ");
            self.put_decimal(*x);
        }
    }
}
