// Lines of text, each stored behind what was stored before.
#![tactic(auto)]

ghost use Rattle.std.specs.Prelude.{◌+◌, ◌≤◌, length};
ghost use Rattle.text.specs.Line.{decimal_of, line_of, tail_of};
ghost use Rattle.text.specs.Lines.{Stores};

use io::decimal;

// The text, and the place behind what is stored. Each function stores there, and moves the place on.
#[derive(Drop)]
pub struct Lines<'a> {
    pub text: &'a mut [u8],
    pub at: usize,
}

impl<'a> Lines<'a> {
    pub fn put_bytes(&mut self, bytes: &[u8])
        requires { self.old.at + length bytes.now ≤ length self.old.text.now }
        ensures { Stores bytes.now self.old self.new }
    {
        let end = self.at + bytes.len();
        self.text[self.at..end].copy_from_slice(bytes);
        self.at = end;
    }

    pub fn put_number(&mut self, number: u64)
        requires { self.old.at + 20 ≤ length self.old.text.now }
        ensures { Stores (decimal_of number) self.old self.new }
    {
        let mut digits = [0u8; 20];
        let size = decimal(number, &mut digits);
        self.put_bytes(&digits[..size]);
    }

    // A space, the number and a newline.
    fn put_tail(&mut self, number: u64)
        requires { self.old.at + 22 ≤ length self.old.text.now }
        ensures { Stores (tail_of number) self.old self.new }
    {
        self.put_bytes(b" ");
        self.put_number(number);
        self.put_bytes(b"\n");
    }

    pub fn put_word_line(&mut self, word: &[u8], number: u64)
        requires { self.old.at + length word.now + 22 ≤ length self.old.text.now }
        ensures { Stores (line_of word.now number) self.old self.new }
    {
        self.put_bytes(word);
        self.put_tail(number);
    }

    pub fn put_number_line(&mut self, first: u64, number: u64)
        requires { self.old.at + 42 ≤ length self.old.text.now }
        ensures { Stores (line_of (decimal_of first) number) self.old self.new }
    {
        self.put_number(first);
        self.put_tail(number);
    }
}
