// A short line of text in a value of fixed size.
ghost use Rattle.std.specs.Prelude.{◌≡◌, ◌+◌, ◌<◌, ◌≤◌, [], ◌∷◌, ◌++◌, length};
ghost use Rattle.std.specs.Fmt.{decimal};
ghost use Rattle.op_core.specs.Shown.{chapter_line};

use arrayvec::ArrayString;
use std::marker::Model;

/// The most bytes of a short line: nine in front, as of `fault 51 `, then an id's number of 16
/// digits, a space, its name of 32 bytes and a line feed.
pub const MOST_LINE_BYTES: usize = 59;

/// A line of at most 59 bytes, in a value of fixed size. Its calls do not allocate.
#[derive(Debug, Drop)]
pub struct ShortLine {
    text: ArrayString<MOST_LINE_BYTES>,
}

impl Model for ShortLine {
    ghost use Rattle.std.specs.Prelude.{List, ℕ};

    ghost Value = { List ℕ };

    ghost view = { λ line. line.text.bytes };
}

impl ShortLine {
    /// The bytes of the line.
    pub fn bytes(&self) -> &[u8]
        ensures value { result.now ≡ self.now }
        ensures short { length self.now ≤ MOST_LINE_BYTES }
    {
        self.text.as_str().as_bytes()
    }

    /// The line without a byte.
    pub fn new() -> Self
        ensures empty { result ≡ [] }
        ensures len { length result ≡ 0 }
    {
        ShortLine {
            text: ArrayString::new(),
        }
    }

    /// Appends a text. The line has to stay within `MOST_LINE_BYTES`.
    pub fn push_text(&mut self, text: &str)
        requires { length self.old + length text.now ≤ MOST_LINE_BYTES }
        ensures appended { self.new ≡ self.old ++ text.now }
        ensures len { length self.new ≡ length self.old + length text.now }
    {
        self.text.push_str(text);
    }

    /// Appends a number in decimal, without leading zeros. The line has to stay within
    /// `MOST_LINE_BYTES`.
    pub fn push_number(&mut self, number: u64)
        requires { length self.old + length (decimal number) ≤ MOST_LINE_BYTES }
        ensures appended { self.new ≡ self.old ++ decimal number }
        ensures len { length self.new ≡ length self.old + length (decimal number) }
    {
        if number >= 10 {
            self.push_number(number / 10);
        }
        self.push(b'0' + (number % 10) as u8);
    }

    // Appends a character of ASCII.
    fn push(&mut self, byte: u8)
        requires room { length self.old < MOST_LINE_BYTES }
        requires ascii { byte < 128 }
        ensures { self.new ≡ self.old ++ byte ∷ [] }
    {
        self.text.push(char::from(byte));
    }
}

/// The line of a chapter's head that has none: `\c`, a space, the number and a line feed. It does
/// not allocate.
pub fn chapter_line(chapter: u16) -> ShortLine
    ensures { result ≡ chapter_line chapter }
{
    let mut line = ShortLine::new();
    line.push_text("\\c ");
    line.push_number(u64::from(chapter));
    line.push_text("\n");
    line
}
