ghost use Rattle.std.specs.Prelude.{◌≡◌, ◌≤◌, ◌⊎◌, length};
ghost use Rattle.can_frame.specs.Sizes.{longest_payload};
ghost use Rattle.outside.specs.Faults.{Rose};
ghost use Rattle.cmd_decode.specs.Ends.{Decodes};

use crate::answer::Answer;
use crate::reading::read_text;
use crate::writing::write_answer;
use cmd_io::Status;
use dsdl_text::laws::a_line_has_one_value;
use outside::{Failed, Sink, Source};

/// Reads a text from the source, and writes the numbers of a payload under a part of one of its types.
///
/// A text has at most 1,000 lines, each of at most 120 bytes and the line feed that ends it
/// (`specs/Lines.antt`). Each number stands on a line, and behind them `end` and how many there are; the
/// status is `Done`. It is `BadRow` with the number of the first line that is none or has a fault, and
/// that line `bad row <line>` is written; `Limit` with `limit 1001` where one more line begins. Then it is
/// `NoPart` where the text has no such part, and `NoValue` where the payload has no reading under it; with
/// them nothing is written (`specs/Report.antt`). A text has one such report, and the run comes to it unless
/// something fails. `ReadFault` comes exactly where the source counted a fault, and nothing is written;
/// `WriteFault` exactly where the sink did, which has a front of the report (`specs/Ends.antt`). No memory
/// is taken.
pub fn decode<S: Source, K: Sink>(
    name: &[u8],
    part: u8,
    payload: &[u8],
    source: &mut S,
    sink: &mut K,
) -> Status
    requires { length payload.now ≤ longest_payload }
    ensures decodes { Decodes name.now part payload.now (S.left source.old) (S.left source.new)
        (S.faults source.old) (S.faults source.new) (K.faults sink.old) (K.faults sink.new)
        (K.written sink.old) (K.written sink.new) result }
    ensures read { result ≡ Status.ReadFault → Rose (S.faults source.old) (S.faults source.new) }
    ensures write { result ≡ Status.WriteFault → Rose (K.faults sink.old) (K.faults sink.new) }
    ensures source_kept { (result ≡ Status.ReadFault) ⊎
        (S.faults source.new ≡ S.faults source.old) }
    ensures sink_kept { (result ≡ Status.WriteFault) ⊎ (K.faults sink.new ≡ K.faults sink.old) }
    ensures begun { result ≡ Status.Usage → ⊥ }
    ensures memory { result ≡ Status.Memory → ⊥ }
{
    // The law behind the completeness of `Decodes`.
    a_line_has_one_value();
    let ending = match read_text(source) {
        Ok(ending) => ending,
        Err(Failed) => return Status::ReadFault,
    };
    let answer = Answer::new(ending, name, part, payload);
    match write_answer(&answer, sink) {
        Ok(()) => answer.status(),
        Err(Failed) => Status::WriteFault,
    }
}
