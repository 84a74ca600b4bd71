ghost use Rattle.std.specs.Prelude.{◌≡◌, ◌≤◌, ◌++◌, length, OnErr, OnOk};
ghost use Rattle.std.specs.Io.KnownBytes.{Appends};
ghost use Rattle.cmd_io.specs.Counting.{CountsFaults};
ghost use Rattle.cmd_io.specs.Output.{Grows, Writes, WritesFront};
ghost use Rattle.cmd_decode.specs.Report.{end_line, number_lines, report_of};

use crate::answer::Answer;
use cmd_io::{Output, number_line};
use outside::{Failed, Sink};
use replay_text::Line;

/// Writes what is answered.
pub(crate) fn write_answer<K: Sink>(answer: &Answer, sink: &mut K) -> Result<(), Failed>
    ensures ok { OnOk result (Appends (K.written sink.old) (K.written sink.new) (report_of answer.now)) }
    ensures err { OnErr result (WritesFront (K.written sink.old) (K.written sink.new) (report_of answer.now)) }
    ensures faults { CountsFaults (K.faults sink.old) (K.faults sink.new) result }
{
    match answer {
        Answer::Value(numbers) => write_value(numbers, sink),
        Answer::NoPart | Answer::NoValue => Ok(()),
        Answer::BadLine(row) => write_line(&number_line(b"bad row ", *row), sink),
        Answer::Beyond => write_line(&number_line(b"limit ", 1001), sink),
    }
}

/// Writes one line.
fn write_line<K: Sink>(line: &Line, sink: &mut K) -> Result<(), Failed>
    requires { length line.now ≤ 400 }
    ensures ok { OnOk result (Appends (K.written sink.old) (K.written sink.new) line.now) }
    ensures err { OnErr result (WritesFront (K.written sink.old) (K.written sink.new) line.now) }
    ensures faults { CountsFaults (K.faults sink.old) (K.faults sink.new) result }
{
    let mut output = Output::new();
    output.last(sink, line.as_bytes())
}

/// Writes numbers, each on a line, and how many there are.
fn write_value<K: Sink>(numbers: &[u64], sink: &mut K) -> Result<(), Failed>
    ensures ok { OnOk result (Appends (K.written sink.old) (K.written sink.new)
        (number_lines numbers.now ++ end_line (length numbers.now))) }
    ensures err { OnErr result (WritesFront (K.written sink.old) (K.written sink.new)
        (number_lines numbers.now ++ end_line (length numbers.now))) }
    ensures faults { CountsFaults (K.faults sink.old) (K.faults sink.new) result }
{
    let mut output = Output::new();
    write_numbers(numbers, &mut output, sink)?;
    output.last(sink, number_line(b"end ", numbers.len() as u64).as_bytes())
}

/// Writes numbers, each on a line.
fn write_numbers<K: Sink>(numbers: &[u64], output: &mut Output, sink: &mut K) -> Result<(), Failed>
    ensures told { Writes (K.written sink.old) output.old (K.written sink.new) output.new
        (number_lines numbers.now) result }
    ensures grew { Grows (K.written sink.old) (K.written sink.new) }
    ensures faults { CountsFaults (K.faults sink.old) (K.faults sink.new) result }
{
    let Some((number, rest)) = numbers.split_first() else {
        return Ok(());
    };
    output.line(sink, number_line(b"", *number).as_bytes())?;
    write_numbers(rest, output, sink)
}
