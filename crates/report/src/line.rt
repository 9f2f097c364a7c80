//! A short text in place, so that a message can be put together where memory ran out.

ghost use Rattle.std.specs.Prelude.{◌≡◌, ◌+◌, ◌≤◌, [], ◌++◌, length};
ghost use Rattle.report.specs.Limits.{most_line_bytes};

use arrayvec::ArrayString;
use std::marker::Model;

/// How many bytes a line may have.
const MOST_LINE_BYTES: usize = 120;

/// A text of at most 120 bytes, which takes no memory beyond its own. Contracts see its bytes.
#[derive(Debug, Drop)]
pub struct Line {
    text: ArrayString<MOST_LINE_BYTES>,
}

impl Model for Line {
    ghost use Rattle.std.specs.Prelude.{List, ℕ};

    ghost Value = { List ℕ };

    ghost view = { λ l. l.text.bytes };
}

impl Line {
    /// The empty text.
    pub fn new() -> Line
        ensures { result ≡ [] }
    {
        Line {
            text: ArrayString::new(),
        }
    }

    /// The bytes of the text.
    pub fn bytes(&self) -> &[u8]
        ensures same { result.now ≡ self.now }
        ensures short { length result.now ≤ most_line_bytes }
    {
        self.text.as_str().as_bytes()
    }

    /// Puts `text` after what is there.
    pub(crate) fn push(&mut self, text: &str)
        requires { length self.old + length text.now ≤ most_line_bytes }
        ensures { self.new ≡ self.old ++ text.now }
    {
        self.text.push_str(text);
    }
}
