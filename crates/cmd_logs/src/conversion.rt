ghost use Rattle.std.specs.Prelude.{◌≡◌, ◌≤◌, ◌⊎◌, ℕ, List, [], Some, IfErr, IfOk, OnOk};
ghost use Rattle.outside.specs.Faults.{Rose};
ghost use Rattle.cmd_io.specs.Counting.{CountsFaults};
ghost use Rattle.cmd_io.specs.Output.{Writes};
ghost use Rattle.cmd_logs.specs.Converted.{Converts, converted, converted_line, no_end};
ghost use Rattle.can_logs.specs.Forms.{IsLineWritable};
ghost use Rattle.cmd_logs.specs.Walking.{Fails, IsCausedBy, Walks};

use crate::log::{End, Fault, Log, Next, finish};
use can_logs::laws::a_line_says_one_thing;
use can_logs::{Form, Line};
use cmd_io::{Output, Status};
use outside::{Failed, Sink, Source};

/// Writes the frames of a log of at most `limit` lines as a log of the other form, or of the same: each in
/// its turn, with its moment, its name and its stamp, as far as the form has them, and nothing of lines of
/// something else. Of the bytes behind the lines that were taken at most 4,096 are read. With `Done` that is
/// all; with `BadRow` and `Limit` the last line tells the number of the first line that is not taken.
pub fn convert<S: Source, K: Sink>(
    from: Form,
    to: Form,
    limit: u64,
    source: &mut S,
    sink: &mut K,
) -> Status
    requires { limit ≤ 1000000 }
    ensures converts { Converts from to limit (S.left source.old) (S.left source.new)
        (S.faults source.old) (S.faults source.new) (K.faults sink.old) (K.faults sink.new)
        (K.written sink.old) (K.written sink.new) result }
    ensures read { result ≡ Status.ReadFault → Rose (S.faults source.old) (S.faults source.new) }
    ensures write { result ≡ Status.WriteFault → Rose (K.faults sink.old) (K.faults sink.new) }
    ensures source_kept { (result ≡ Status.ReadFault) ⊎
        (S.faults source.new ≡ S.faults source.old) }
    ensures sink_kept { (result ≡ Status.WriteFault) ⊎ (K.faults sink.new ≡ K.faults sink.old) }
    ensures begun { result ≡ Status.Usage → ⊥ }
    ensures memory { result ≡ Status.Memory → ⊥ }
{
    // The law behind the completeness of the report.
    a_line_says_one_thing();
    let mut log = Log::new(from, limit);
    let mut output = Output::new();
    match write_frames(to, &mut log, &mut output, source, sink) {
        Ok(end) => match finish(end, log.taken, b"", &mut output, sink) {
            Ok(status) => status,
            Err(Failed) => Status::WriteFault,
        },
        Err(Fault::Source) => Status::ReadFault,
        Err(Fault::Sink) => Status::WriteFault,
    }
}

/// Writes the frames of the lines in a form, up to the end of the lines.
fn write_frames<S: Source, K: Sink>(
    to: Form,
    log: &mut Log,
    output: &mut Output,
    source: &mut S,
    sink: &mut K,
) -> Result<End, Fault>
    requires limit { log.old.limit ≤ 1000000 }
    requires first { log.old.taken ≡ 0 }
    requires empty { log.old.input ≡ [] }
    requires flushed { output.old ≡ [] }
    ensures ends { IfOk result (λ end. (bytes : List ℕ) → S.left source.old ≡ Some bytes →
        Walks (converted to) log.old.form log.old.limit bytes (K.written sink.old) log.new.taken
        (S.left source.new) (K.written sink.new) output.new end) }
    ensures taken { log.new.taken ≤ log.old.limit }
    ensures fails { IfErr result (λ fault. (bytes : List ℕ) → S.left source.old ≡ Some bytes →
        Fails fault (converted to) no_end log.old.form log.old.limit bytes
        (S.left source.new) (K.written sink.old) (K.written sink.new)) }
    ensures cause { IfErr result (IsCausedBy (S.faults source.old) (S.faults source.new)
        (K.faults sink.old) (K.faults sink.new)) }
    ensures kept { OnOk result ((S.faults source.new ≡ S.faults source.old) ×
        (K.faults sink.new ≡ K.faults sink.old)) }
{
    'lines: loop {
        let line = match log.next(output, source, sink) {
            Ok(Next::Line(line)) => line,
            Ok(Next::End(end)) => return Ok(end),
            Err(fault) => return Err(fault),
        };
        match write_line(to, line, output, sink) {
            Ok(()) => {}
            Err(Failed) => return Err(Fault::Sink),
        }
    }
}

/// Writes the frame of a line in a form; nothing for a line of something else.
fn write_line<K: Sink>(
    to: Form,
    line: Line,
    output: &mut Output,
    sink: &mut K,
) -> Result<(), Failed>
    requires { IsLineWritable line }
    ensures told { Writes (K.written sink.old) output.old (K.written sink.new) output.new
        (converted_line to line) result }
    ensures faults { CountsFaults (K.faults sink.old) (K.faults sink.new) result }
{
    match line {
        Line::Frame(logged) => output.line(sink, &to.write(logged)),
        Line::Skipped => Ok(()),
    }
}
