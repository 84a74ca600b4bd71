ghost use Rattle.std.specs.Prelude.{◌≤◌, ◌↔◌, ◌≡◌, length, IsTrue, drop};
ghost use Rattle.cmd_logs.specs.Lines.{Finds, LineBegins};

use can_logs::{Form, Line};
use cmd_io::{Front, Input, front_line};

/// No line is longer, in bytes with its bells and without its end.
const LONGEST_LINE: usize = 120;

/// What stands at the front of the input.
#[derive(Drop)]
pub(crate) enum Stands {
    /// A line.
    Line(Line),

    /// A line that reads as nothing, or too many bytes for one.
    NoLine,

    /// The beginning of a line, or nothing of one.
    Incomplete,
}

/// Takes the line at the front of the input, if one stands there.
pub(crate) fn next_line(form: Form, input: &mut Input) -> Stands
    ensures found { Finds form result input.old input.new }
    ensures few { length input.old ≤ 4096 }
{
    let (stands, size) = first_line(form, input.waiting());
    input.take(size);
    stands
}

/// Whether a line begins in what waits: at its first byte that is no bell, or at the bell that is one too
/// many.
pub(crate) fn line_begins(form: Form, input: &Input) -> bool
    ensures begins { IsTrue result ↔ LineBegins form input.now }
    ensures few { length input.now ≤ 4096 }
{
    begins(form, input.waiting())
}

/// Whether a line begins in the bytes.
fn begins(form: Form, bytes: &[u8]) -> bool
    ensures { IsTrue result ↔ LineBegins form bytes.now }
{
    match form {
        Form::Candump => !bytes.is_empty(),
        Form::Slcan => {
            let bells = form.bells(bytes);
            bells < bytes.len() || bells > LONGEST_LINE
        }
    }
}

/// The line at the front of the bytes, and how many bytes it takes with its end.
fn first_line(form: Form, bytes: &[u8]) -> (Stands, usize)
    ensures found { Finds form result.0 bytes.now (drop result.1 bytes.now) }
    ensures within { result.1 ≤ length bytes.now }
{
    let size = match front_line(bytes, form.end(), LONGEST_LINE) {
        Front::Line(size) => size,
        Front::TooLong => return (Stands::NoLine, 0),
        Front::Incomplete => return (Stands::Incomplete, 0),
    };
    let (line, _) = bytes.split_at(size);
    let (_, text) = line.split_at(form.bells(line));
    match form.read(text) {
        Some(said) => (Stands::Line(said), size + 1),
        None => (Stands::NoLine, 0),
    }
}
