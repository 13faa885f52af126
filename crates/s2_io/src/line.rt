//! Lines, made without memory.
ghost use Rattle.std.specs.Prelude.{◌≡◌, ◌+◌, ◌≤◌, ◌++◌, [], length};
ghost use Rattle.s2_io.specs.Lines.{line_room};

use arrayvec::ArrayString;
use itoa::{Buffer, Integer};
use std::marker::Model;

/// The maximum length of a line in bytes.
pub const LINE_ROOM: usize = 640;

/// A line that is being built. Its value is its bytes. It takes no memory, so a command that has done its work can
/// always report it.
pub struct Line {
    text: ArrayString<LINE_ROOM>,
}

impl Drop for Line {
    fn drop(self) {
        let Line { text: _ } = self;
    }
}

impl Model for Line {
    ghost use Rattle.std.specs.Prelude.{ℕ, List};

    ghost Value = { List ℕ };

    ghost view = { λ l. l.text.bytes };
}

impl Line {
    /// An empty line.
    pub fn new() -> Line
        ensures { result ≡ [] }
    {
        Line {
            text: ArrayString::new(),
        }
    }

    /// Appends words.
    pub fn push(&mut self, words: &str)
        requires { length self.old + length words.now ≤ line_room }
        ensures { self.new ≡ self.old ++ words.now }
    {
        self.text.push_str(words);
    }

    /// Appends words and a number, in at most 40 decimal digits.
    pub fn push_number<I: Integer>(&mut self, words: &str, number: I)
        requires { length self.old + (length words.now + 40) ≤ line_room }
        ensures bytes { self.new ≡ self.old ++ (words.now ++ I.text number) }
        ensures room { length self.new ≤ length self.old + (length words.now + 40) }
    {
        let mut digits = Buffer::new();
        self.text.push_str(words);
        self.text.push_str(digits.format(number));
    }

    /// Its bytes.
    pub fn as_bytes(&self) -> &[u8]
        ensures { result.now ≡ self.now }
    {
        self.text.as_str().as_bytes()
    }
}
