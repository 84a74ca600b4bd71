ghost use Rattle.std.specs.Prelude.{◌≡◌, ◌≤◌, ◌⊎◌, [], length, List, Some, IfErr, IfOk, OnOk, ℕ};
ghost use Rattle.can_frame.specs.Sizes.{most_members};
ghost use Rattle.outside.specs.Faults.{Rose};
ghost use Rattle.cmd_io.specs.Counting.{CountsFaults};
ghost use Rattle.cmd_io.specs.Output.{Writes};
ghost use Rattle.transfer_rx.specs.Acceptance.{AnswersByRows};
ghost use Rattle.transfer_rx.specs.Memory.{ReceiverFitsInMemory};
ghost use Rattle.can_logs.specs.Forms.{IsLineWritable};
ghost use Rattle.cmd_logs.specs.Walking.{Fails, IsCausedBy, Walks};
ghost use Rattle.cmd_logs.specs.Watched.{Watch, Watches, end_line, line_heard, listed, unwatched, watched, watched_rows};
ghost use Rattle.cmd_logs.specs.Watching.{HasWatch, watch_accept};

use crate::log::{End, Fault, Log, Next, finish};
use crate::receivers::Receivers;
use crate::rows::accept_watched;
use crate::transfer_line::write_transfer;
use can_frame::Kind;
use can_logs::laws::a_line_says_one_thing;
use can_logs::{Form, Line};
use cmd_io::{Output, Status, number_line};
use outside::{Failed, Sink, Source};

/// Lists the transfers of a log of at most `limit` lines that allocators receive, and their Allocations: the
/// messages, and the requests and responses for these nodes.
/// Each has a line when its last frame comes, by the number of that line of the log. Of the bytes behind
/// the lines that were taken at most 4,096 are read. With `Done` the last line tells how many lines the log
/// has; with `BadRow` and `Limit` it tells the number of the first line that is not taken.
pub fn watch<S: Source, K: Sink>(
    form: Form,
    limit: u64,
    ids: &[u8],
    source: &mut S,
    sink: &mut K,
) -> Status
    requires limit { limit ≤ 1000000 }
    requires five { length ids.now ≤ most_members }
    ensures watches { Watches form limit ids.now (S.left source.old) (S.left source.new)
        (S.faults source.old) (S.faults source.new) (K.faults sink.old) (K.faults sink.new)
        (K.written sink.old) (K.written sink.new) result }
    ensures read { result ≡ Status.ReadFault → Rose (S.faults source.old) (S.faults source.new) }
    ensures write { result ≡ Status.WriteFault → Rose (K.faults sink.old) (K.faults sink.new) }
    ensures source_kept { (result ≡ Status.ReadFault) ⊎
        (S.faults source.new ≡ S.faults source.old) }
    ensures sink_kept { (result ≡ Status.WriteFault) ⊎ (K.faults sink.new ≡ K.faults sink.old) }
    ensures begun { result ≡ Status.Usage → ⊥ }
    ensures memory { result ≡ Status.Memory → ⊥ }
{
    // The law behind the completeness of the report.
    a_line_says_one_thing();
    let mut log = Log::new(form, limit);
    let mut receivers = Receivers::new(ids, accept_watched);
    let mut output = Output::new();
    match list_transfers(&mut receivers, &mut log, &mut output, source, sink) {
        Ok(end) => {
            let done = number_line(b"end ", log.taken);
            match finish(end, log.taken, done.as_bytes(), &mut output, sink) {
                Ok(status) => status,
                Err(Failed) => Status::WriteFault,
            }
        }
        Err(Fault::Source) => Status::ReadFault,
        Err(Fault::Sink) => Status::WriteFault,
    }
}

/// Lists the transfers of the lines, up to the end of the lines.
fn list_transfers<F: Fn(Kind, u16) -> Option<u64> + Copy, S: Source, K: Sink>(
    receivers: &mut Receivers<F>,
    log: &mut Log,
    output: &mut Output,
    source: &mut S,
    sink: &mut K,
) -> Result<End, Fault>
    requires memory { ReceiverFitsInMemory F.row 64 64 }
    requires callable { F.IsAlwaysCallable (watch_accept receivers.old) }
    requires answers { AnswersByRows (F.post (watch_accept receivers.old)) watched_rows }
    requires limit { log.old.limit ≤ 1000000 }
    requires first { log.old.taken ≡ 0 }
    requires empty { log.old.input ≡ [] }
    requires flushed { output.old ≡ [] }
    ensures ends { IfOk result (λ end. (ids bytes : List ℕ) → HasWatch receivers.old ids unwatched →
        S.left source.old ≡ Some bytes →
        Walks (watched ids) log.old.form log.old.limit bytes (K.written sink.old) log.new.taken
        (S.left source.new) (K.written sink.new) output.new end) }
    ensures taken { log.new.taken ≤ log.old.limit }
    ensures fails { IfErr result (λ fault. (ids bytes : List ℕ) → HasWatch receivers.old ids unwatched →
        S.left source.old ≡ Some bytes →
        Fails fault (watched ids) end_line log.old.form log.old.limit bytes
        (S.left source.new) (K.written sink.old) (K.written sink.new)) }
    ensures cause { IfErr result (IsCausedBy (S.faults source.old) (S.faults source.new)
        (K.faults sink.old) (K.faults sink.new)) }
    ensures kept { OnOk result ((S.faults source.new ≡ S.faults source.old) ×
        (K.faults sink.new ≡ K.faults sink.old)) }
{
    'lines: loop {
        let line = match log.next(output, source, sink) {
            Ok(Next::Line(line)) => line,
            Ok(Next::End(end)) => return Ok(end),
            Err(fault) => return Err(fault),
        };
        match hear(log.taken, line, receivers, output, sink) {
            Ok(()) => {}
            Err(Failed) => return Err(Fault::Sink),
        }
    }
}

/// Gives the frame of a line to its receiver, and writes the line of the transfer that it delivers.
fn hear<F: Fn(Kind, u16) -> Option<u64> + Copy, K: Sink>(
    number: u64,
    line: Line,
    receivers: &mut Receivers<F>,
    output: &mut Output,
    sink: &mut K,
) -> Result<(), Failed>
    requires memory { ReceiverFitsInMemory F.row 64 64 }
    requires callable { F.IsAlwaysCallable (watch_accept receivers.old) }
    requires answers { AnswersByRows (F.post (watch_accept receivers.old)) watched_rows }
    requires writable { IsLineWritable line }
    ensures told { (ids : List ℕ) (watch : Watch) → HasWatch receivers.old ids watch →
        Writes (K.written sink.old) output.old (K.written sink.new) output.new
        (listed number (line_heard ids watch line).gives) result }
    ensures watch { (ids : List ℕ) (watch : Watch) → HasWatch receivers.old ids watch →
        HasWatch receivers.new ids (line_heard ids watch line).after }
    ensures accept { watch_accept receivers.new ≡ watch_accept receivers.old }
    ensures faults { CountsFaults (K.faults sink.old) (K.faults sink.new) result }
{
    match line {
        Line::Frame(logged) => {
            let now = logged.sec * 1000 + u64::from(logged.micros / 1000);
            match receivers.take(&logged.frame, now) {
                Some(transfer) => write_transfer(number, &transfer, output, sink),
                None => Ok(()),
            }
        }
        Line::Skipped => Ok(()),
    }
}
