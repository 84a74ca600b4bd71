//! The modes of the program that read logs and payloads, over bytes in memory: exports for a web page, or for C.
//!
//! Each takes its input as a slice, writes its report to a slice, and puts its exit code and the length of the
//! report into an [`Answer`]. The report is exactly the defined one. Where the slice is too short for it, the slice
//! stays as it was, and the length tells how much room is needed. No memory is taken.
//!
//! Each call puts the exit code and the length of the report into the `Answer`, and the report into the caller's slice.
//! Where the slice is too short for it, the slice stays as it was, and the length tells how much room is needed. A
//! report of more than 1,048,576 bytes ends with `WriteFault`, and a prefix of it stands. No memory is taken.
#![tactic(auto)]

mod sink;

ghost use Rattle.std.specs.Prelude.{◌≡◌, ◌≤◌, ◌<◌, [], Some, length, take};
ghost use Rattle.can_frame.specs.Sizes.{longest_payload, most_members};
ghost use Rattle.cmd_io.specs.Codes.{status_code};
ghost use Rattle.cmd_logs.specs.Converted.{Converts};
ghost use Rattle.cmd_logs.specs.Watched.{Watches};
ghost use Rattle.cmd_decode.specs.Ends.{Decodes};
ghost use Rattle.log_page.specs.Came.{Came};
ghost use Rattle.log_page.specs.Forms.{form_of};

use can_frame::sizes::{LONGEST_PAYLOAD, MOST_MEMBERS};
use can_logs::Form;
use cmd_decode::decode;
use cmd_io::Status;
use cmd_logs::{convert, watch};
use outside::MemorySource;
use sink::ArraySink;

/// How a run ended: the exit code of the program, and how many bytes the report has.
#[repr(C)]
#[derive(Drop)]
pub struct Answer {
    pub status: u32,
    pub len: usize,
}

/// `watch <format> <lines> <id>..` over a log.
///
/// The exit code is 2 with more than 1,000,000 lines or more than 5 nodes.
#[unsafe(no_mangle)]
pub extern "C" fn log_page_watch(
    candump: bool,
    lines: u64,
    ids: &[u8],
    log: &[u8],
    report: &mut [u8],
    answer: &mut Answer,
)
    ensures watches { lines ≤ 1000000 → length ids.now ≤ most_members → Came (λ left read wrote whole status.
        Watches (form_of candump) lines ids.now (Some log.now) left 0 read 0 wrote
        (Some []) (Some whole) status) report.new answer.new.status answer.new.len }
{
    if lines > 1000000 || ids.len() > MOST_MEMBERS {
        *answer = refused();
        return;
    }
    let mut source = MemorySource::new(log, None);
    let mut sink = ArraySink::new();
    let form = form_of(candump);
    let status = watch(form, lines, ids, &mut source, &mut sink);
    *answer = told(status, sink.written(), report);
}

/// `convert <format> <format> <lines>` over a log.
///
/// The exit code is 2 with more than 1,000,000 lines.
#[unsafe(no_mangle)]
pub extern "C" fn log_page_convert(
    from_candump: bool,
    to_candump: bool,
    lines: u64,
    log: &[u8],
    report: &mut [u8],
    answer: &mut Answer,
)
    ensures converts { lines ≤ 1000000 → Came (λ left read wrote whole status.
        Converts (form_of from_candump) (form_of to_candump) lines (Some log.now) left 0 read 0 wrote
        (Some []) (Some whole) status) report.new answer.new.status answer.new.len }
{
    if lines > 1000000 {
        *answer = refused();
        return;
    }
    let mut source = MemorySource::new(log, None);
    let mut sink = ArraySink::new();
    let from = form_of(from_candump);
    let to = form_of(to_candump);
    let status = convert(from, to, lines, &mut source, &mut sink);
    *answer = told(status, sink.written(), report);
}

/// `decode <name> <part> <hex>` over a text; the payload comes as its bytes.
///
/// The exit code is 2 with a payload of more than 376 bytes.
#[unsafe(no_mangle)]
pub extern "C" fn log_page_decode(
    name: &[u8],
    part: u8,
    payload: &[u8],
    text: &[u8],
    report: &mut [u8],
    answer: &mut Answer,
)
    ensures decodes { length payload.now ≤ longest_payload → Came (λ left read wrote whole status.
        Decodes name.now part payload.now (Some text.now) left 0 read 0 wrote
        (Some []) (Some whole) status) report.new answer.new.status answer.new.len }
{
    if payload.len() > LONGEST_PAYLOAD {
        *answer = refused();
        return;
    }
    let mut source = MemorySource::new(text, None);
    let mut sink = ArraySink::new();
    let status = decode(name, part, payload, &mut source, &mut sink);
    *answer = told(status, sink.written(), report);
}

/// The form that a caller names.
fn form_of(candump: bool) -> Form
    ensures { result ≡ form_of candump }
{
    if candump { Form::Candump } else { Form::Slcan }
}

/// Puts a report into the room for it, where it fits.
fn told(status: Status, whole: &[u8], room: &mut [u8]) -> Answer
    ensures code { result.status ≡ status_code status }
    ensures len { result.len ≡ length whole.now }
    ensures shown { length whole.now ≤ length room.new → take result.len room.new ≡ whole.now }
{
    let len = whole.len();
    if len <= room.len() {
        room[..len].copy_from_slice(whole);
    }
    Answer {
        status: u32::from(status.code()),
        len,
    }
}

/// The answer to words that the program does not read.
fn refused() -> Answer
    ensures { result.status ≡ 2 }
{
    Answer {
        status: u32::from(Status::Usage.code()),
        len: 0,
    }
}
