ghost use Rattle.std.specs.Prelude.{◌≡◌, ◌<◌, ◌≤◌, ◌+◌, None, false, IsTrue};
ghost use Rattle.dsdl_text.specs.declared.line.Line.{Line};
ghost use Rattle.dsdl_text.specs.Lines.{Reads};
ghost use Rattle.dsdl_text.specs.Text.{fault_of, no_text};

use cmd_io::{Front, Input, front_line};
use dsdl_text::TextReader;

/// A text has so many lines at the most.
const MOST_LINES: u64 = 1000;

/// No line is longer, in bytes without its line feed.
const LONGEST_LINE: usize = 120;

/// The lines of a text that were taken.
#[derive(Drop)]
pub(crate) struct Lines {
    pub reader: TextReader,
    pub count: u64,
}

/// Why no more lines are taken of those that wait.
#[derive(Clone, Copy, Debug, PartialEq, Eq)]
pub(crate) enum Stop {
    /// No whole line waits.
    Incomplete,

    /// The next line is none, or has a fault.
    Bad,

    /// There are as many lines as may come, and more bytes wait.
    Full,
}

impl Lines {
    ghost use Rattle.cmd_decode.specs.Taking.{StopsAt, TakesLine, TakesSome, text_in};

    pub fn new() -> Lines
        ensures text { text_in result ≡ no_text }
        ensures count { result.count ≡ 0 }
    {
        Lines {
            reader: TextReader::new(),
            count: 0,
        }
    }

    /// Takes the lines that wait, up to one that is not taken.
    pub fn take(&mut self, input: &mut Input) -> Stop
        requires { self.old.count ≤ 1000 }
        ensures taken { TakesSome self.old self.new input.old input.new }
        ensures stops { StopsAt result self.new input.new }
        ensures within { self.new.count ≤ 1000 }
    {
        'lines: loop {
            if input.is_empty() {
                return Stop::Incomplete;
            }
            if self.count == MOST_LINES {
                return Stop::Full;
            }
            match front_line(input.waiting(), b'\n', LONGEST_LINE) {
                Front::Line(size) => {
                    let (line, _) = input.waiting().split_at(size);
                    if !self.take_line(line) {
                        return Stop::Bad;
                    }
                    input.take(size + 1);
                }
                Front::TooLong => return Stop::Bad,
                Front::Incomplete => return Stop::Incomplete,
            }
        }
    }

    /// Takes a line, without its line feed; false where it is none, or has a fault.
    fn take_line(&mut self, line: &[u8]) -> bool
        requires { self.old.count < 1000 }
        ensures taken { IsTrue result → TakesLine (text_in self.old) (text_in self.new) line.now }
        ensures counted { IsTrue result → self.new.count ≡ self.old.count + 1 }
        ensures bad { result ≡ false → (value : Line) → Reads value line.now →
            fault_of (text_in self.old) value ≡ None → ⊥ }
        ensures text_kept { result ≡ false → text_in self.new ≡ text_in self.old }
        ensures count_kept { result ≡ false → self.new.count ≡ self.old.count }
    {
        match self.reader.line(line) {
            Ok(()) => {
                self.count += 1;
                true
            }
            Err(_) => false,
        }
    }
}
