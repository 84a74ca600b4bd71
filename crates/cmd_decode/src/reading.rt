ghost use Rattle.std.specs.Prelude.{◌≡◌, ℕ, List, Some, IfOk, OnErr};
ghost use Rattle.cmd_decode.specs.Ends.{IsReadInPart};
ghost use Rattle.cmd_decode.specs.Taking.{ReadsText};
ghost use Rattle.cmd_io.specs.Counting.{CountsFaults};

use crate::ending::Ending;
use crate::lines::{Lines, Stop};
use cmd_io::Input;
use outside::{Failed, Source};

/// Reads a text, up to the end of the source or to a line that is not taken. The source is read only
/// while no whole line waits.
pub(crate) fn read_text<S: Source>(source: &mut S) -> Result<Ending, Failed>
    ensures text { IfOk result (λ ending. (bytes : List ℕ) → S.left source.old ≡ Some bytes →
        ReadsText bytes (S.left source.new) ending) }
    ensures cut { OnErr result ((bytes : List ℕ) → S.left source.old ≡ Some bytes →
        IsReadInPart bytes (S.left source.new)) }
    ensures faults { CountsFaults (S.faults source.old) (S.faults source.new) result }
{
    let mut lines = Lines::new();
    let mut input = Input::new();
    'reading: loop {
        match input.fill(source) {
            Ok(true) => {}
            Ok(false) => break 'reading,
            Err(Failed) => return Err(Failed),
        }
        match lines.take(&mut input) {
            Stop::Incomplete => {}
            Stop::Bad => return Ok(Ending::Bad(lines.count + 1)),
            Stop::Full => return Ok(Ending::Beyond),
        }
    }
    if input.is_empty() {
        Ok(Ending::Whole(lines.reader.finish()))
    } else {
        Ok(Ending::Bad(lines.count + 1))
    }
}
