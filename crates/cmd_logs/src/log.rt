ghost use Rattle.std.specs.Prelude.{◌≡◌, ◌≤◌, [], length, Err, IfOk, IfErr, IfSome, OnOk, OnErr, List, ℕ};
ghost use Rattle.std.specs.Io.KnownBytes.{Appends};
ghost use Rattle.cmd_io.specs.Counting.{CountsFaults};
ghost use Rattle.cmd_io.specs.Output.{WritesFront, WritesLast};
ghost use Rattle.cmd_logs.specs.declared.log.Fault.{Fault as FaultValue};
ghost use Rattle.cmd_logs.specs.Report.{last_line};
ghost use Rattle.cmd_logs.specs.Lines.{LineBegins};
ghost use Rattle.cmd_logs.specs.Walking.{EndsSo, FailsBehind, HasNext, IsCausedBy, MayBeWritten, ReadsNext, Takes, WaitsOn, status_of};

use crate::front::{Stands, line_begins, next_line};
use can_logs::laws::said_lines_are_writable;
use can_logs::{Form, Line};
use cmd_io::{Input, Output, Status, number_line};
use outside::{Failed, Sink, Source};

/// A log that is read line by line.
#[derive(Drop)]
pub(crate) struct Log {
    pub form: Form,

    /// How many lines may come.
    pub limit: u64,

    /// How many came.
    pub taken: u64,

    /// What was read behind them.
    pub input: Input,
}

/// What comes next.
#[derive(Drop)]
pub(crate) enum Next {
    /// A line.
    Line(Line),

    /// No further one.
    End(End),
}

/// How the lines end.
#[derive(Clone, Copy, Debug, PartialEq, Eq)]
pub(crate) enum End {
    /// No further line begins.
    Ended,

    /// The next one reads as nothing.
    NoLine,

    /// As many came as may come, and one more begins.
    Full,
}

/// Which object of the outside failed.
#[derive(Clone, Copy, Debug, PartialEq, Eq)]
pub(crate) enum Fault {
    Source,
    Sink,
}

impl Log {
    /// A log of the form, of at most `limit` lines.
    pub fn new(form: Form, limit: u64) -> Log
        ensures form { result.form ≡ form }
        ensures limit { result.limit ≡ limit }
        ensures taken { result.taken ≡ 0 }
        ensures input { result.input ≡ [] }
    {
        Log {
            form,
            limit,
            taken: 0,
            input: Input::new(),
        }
    }

    /// The line that comes next, or how the lines end. The source is read where no whole line waits, and
    /// before that all that waits to be written is handed to the sink.
    pub fn next<S: Source, K: Sink>(
        &mut self,
        output: &mut Output,
        source: &mut S,
        sink: &mut K,
    ) -> Result<Next, Fault>
        requires limit { self.old.taken ≤ self.old.limit }
        requires most { self.old.limit ≤ 1000000 }
        ensures next { IfOk result (λ next. HasNext self.old.form self.old.limit self.old.taken
            self.new.taken self.old.input self.new.input (S.left source.old) (S.left source.new)
            (K.written sink.old) output.old (K.written sink.new) output.new next) }
        ensures writable { IfOk result MayBeWritten }
        ensures read { result ≡ Err FaultValue.Source → FailsBehind self.old.form self.old.limit
            self.old.taken self.old.input (S.left source.old) (S.left source.new) }
        ensures flushed { result ≡ Err FaultValue.Source →
            Appends (K.written sink.old) (K.written sink.new) output.old }
        ensures write { result ≡ Err FaultValue.Sink →
            WritesFront (K.written sink.old) (K.written sink.new) output.old }
        ensures left { result ≡ Err FaultValue.Sink → S.left source.new ≡ S.left source.old }
        ensures form { self.new.form ≡ self.old.form }
        ensures limit { self.new.limit ≡ self.old.limit }
        ensures taken { self.new.taken ≤ self.new.limit }
        ensures cause { IfErr result (IsCausedBy (S.faults source.old) (S.faults source.new)
            (K.faults sink.old) (K.faults sink.new)) }
        ensures source_kept { OnOk result (S.faults source.new ≡ S.faults source.old) }
        ensures sink_kept { OnOk result (K.faults sink.new ≡ K.faults sink.old) }
    {
        match take(self.form, self.limit, &mut self.taken, &mut self.input) {
            Some(next) => return Ok(next),
            None => {}
        }
        match output.flush(sink) {
            Ok(()) => {}
            Err(Failed) => return Err(Fault::Sink),
        }
        match read_next(
            self.form,
            self.limit,
            &mut self.taken,
            &mut self.input,
            source,
        ) {
            Ok(next) => Ok(next),
            Err(Failed) => Err(Fault::Source),
        }
    }
}

/// Reads on until a line stands at the front of what waits, or the source comes to its end.
fn read_next<S: Source>(
    form: Form,
    limit: u64,
    taken: &mut u64,
    input: &mut Input,
    source: &mut S,
) -> Result<Next, Failed>
    requires limit { taken.old ≤ limit }
    requires most { limit ≤ 1000000 }
    requires waits { WaitsOn form limit taken.old input.old }
    ensures next { IfOk result (λ next. ReadsNext form limit taken.old taken.new input.old input.new
        (S.left source.old) (S.left source.new) next) }
    ensures writable { IfOk result MayBeWritten }
    ensures read { OnErr result (FailsBehind form limit taken.old input.old (S.left source.old)
        (S.left source.new)) }
    ensures limit { taken.new ≤ limit }
    ensures faults { CountsFaults (S.faults source.old) (S.faults source.new) result }
{
    'reading: loop {
        match input.fill(source) {
            Ok(true) => {}
            Ok(false) => return Ok(Next::End(at_end(form, limit, *taken, input))),
            Err(Failed) => return Err(Failed),
        }
        match take(form, limit, taken, input) {
            Some(next) => return Ok(next),
            None => {}
        }
    }
}

/// How the lines end where the source has no more.
fn at_end(form: Form, limit: u64, taken: u64, input: &Input) -> End
    requires { WaitsOn form limit taken input.now }
    ensures { EndsSo form limit taken input.now result }
{
    if line_begins(form, input) {
        End::NoLine
    } else {
        End::Ended
    }
}

/// Takes what stands at the front of what waits; `None` where that is no whole line.
fn take(form: Form, limit: u64, taken: &mut u64, input: &mut Input) -> Option<Next>
    requires limit { taken.old ≤ limit }
    requires most { limit ≤ 1000000 }
    ensures takes { Takes form limit taken.old taken.new input.old input.new result }
    ensures writable { IfSome result MayBeWritten }
    ensures few { length input.old ≤ 4096 }
    ensures limit { taken.new ≤ limit }
{
    said_lines_are_writable();
    if *taken == limit {
        return full(form, limit, input);
    }
    match next_line(form, input) {
        Stands::Line(line) => {
            *taken += 1;
            Some(Next::Line(line))
        }
        Stands::NoLine => Some(Next::End(End::NoLine)),
        Stands::Incomplete => None,
    }
}

/// What stands at the front of the input where as many lines came as may come.
fn full(form: Form, limit: u64, input: &Input) -> Option<Next>
    ensures takes { Takes form limit limit limit input.now input.now result }
    ensures writable { IfSome result MayBeWritten }
    ensures few { length input.now ≤ 4096 }
{
    if line_begins(form, input) {
        Some(Next::End(End::Full))
    } else {
        None
    }
}

/// Writes the last line behind what waits, by how the lines ended after so many of them; `done` is the
/// line for the end of the log. It answers the status of the run.
pub(crate) fn finish<K: Sink>(
    end: End,
    taken: u64,
    done: &[u8],
    output: &mut Output,
    sink: &mut K,
) -> Result<Status, Failed>
    requires taken { taken ≤ 1000000 }
    requires done { length done.now ≤ 400 }
    ensures status { IfOk result (λ status. status ≡ status_of end taken) }
    ensures told { WritesLast (K.written sink.old) output.old (K.written sink.new)
        (last_line done.now (status_of end taken)) result }
    ensures faults { CountsFaults (K.faults sink.old) (K.faults sink.new) result }
{
    match end {
        End::Ended => {
            output.last(sink, done)?;
            Ok(Status::Done)
        }
        End::NoLine => {
            output.last(sink, number_line(b"bad row ", taken + 1).as_bytes())?;
            Ok(Status::BadRow(taken + 1))
        }
        End::Full => {
            output.last(sink, number_line(b"limit ", taken + 1).as_bytes())?;
            Ok(Status::Limit(taken + 1))
        }
    }
}
