ghost use Rattle.std.specs.Prelude.{◌≡◌, ◌≤◌, ◌+◌, ◌*◌, ◌++◌, codes, drop, length, take};
ghost use Rattle.can_frame.specs.Sizes.{longest_payload};
ghost use Rattle.hex.specs.Hex.{encode_lower};
ghost use Rattle.cmd_io.specs.Counting.{CountsFaults};
ghost use Rattle.cmd_io.specs.Output.{Writes};
ghost use Rattle.transfer_rx.specs.Told.{delivery_of};
ghost use Rattle.cmd_logs.specs.Watched.{kind_word, payload_word, transfer_head, transfer_line};

use can_frame::Kind;
use cmd_io::Output;
use outside::{Failed, Sink};
use replay_text::Line;
use transfer_rx::Transfer;

/// So many bytes of a payload are written in one piece; the rest, at most 176, is another one.
const PIECE: usize = 200;

/// Writes the line of a transfer that the frame on the line with this number delivered.
pub(crate) fn write_transfer<K: Sink>(
    number: u64,
    transfer: &Transfer,
    output: &mut Output,
    sink: &mut K,
) -> Result<(), Failed>
    ensures told { Writes (K.written sink.old) output.old (K.written sink.new) output.new
        (transfer_line number (delivery_of transfer.now)) result }
    ensures faults { CountsFaults (K.faults sink.old) (K.faults sink.new) result }
{
    let head = head(number, transfer);
    let front = front(&transfer.payload);
    let back = back(&transfer.payload);
    write_pair(head.as_bytes(), front.as_bytes(), output, sink)?;
    output.line(sink, back.as_bytes())
}

/// Writes one piece behind another.
fn write_pair<K: Sink>(
    one: &[u8],
    other: &[u8],
    output: &mut Output,
    sink: &mut K,
) -> Result<(), Failed>
    requires one { length one.now ≤ 400 }
    requires other { length other.now ≤ 400 }
    ensures told { Writes (K.written sink.old) output.old (K.written sink.new) output.new
        (one.now ++ other.now) result }
    ensures faults { CountsFaults (K.faults sink.old) (K.faults sink.new) result }
{
    output.line(sink, one)?;
    output.line(sink, other)
}

/// All of the line before the payload.
fn head(number: u64, transfer: &Transfer) -> Line
    ensures short { length result ≤ 400 }
    ensures text { result ≡ transfer_head number (delivery_of transfer.now) }
{
    let mut line = Line::new();
    line.number(number);
    line.text(b" ");
    line.text(kind_word(transfer.ident.kind));
    line.field(u64::from(transfer.ident.number));
    line.field(u64::from(transfer.ident.source));
    line.field(u64::from(transfer.ident.dest));
    line.field(u64::from(transfer.id));
    line.text(b" ");
    line
}

fn kind_word(kind: Kind) -> &'static [u8]
    ensures word { result.now ≡ kind_word kind }
    ensures short { length result.now ≤ 4 }
{
    match kind {
        Kind::Message => b"msg",
        Kind::Anonymous => b"anon",
        Kind::Request => b"req",
        Kind::Response => b"res",
    }
}

/// The digits of the first bytes of a payload, or the dash that stands for an empty one.
fn front(payload: &[u8]) -> Line
    ensures short { length result ≤ 400 }
    ensures text { result ≡ payload_word (take 200 payload.now) }
{
    let (front, _) = payload.split_at(payload.len().min(PIECE));
    let mut line = Line::new();
    if front.is_empty() {
        line.text(b"-");
    } else {
        put_digits(&mut line, front);
    }
    line
}

/// The digits of the bytes of a payload behind the first ones, and the end of the line.
fn back(payload: &[u8]) -> Line
    requires { length payload.now ≤ longest_payload }
    ensures short { length result ≤ 400 }
    ensures text { result ≡ encode_lower (drop 200 payload.now) ++ codes "\n" }
{
    let (_, back) = payload.split_at(payload.len().min(PIECE));
    let mut line = Line::new();
    put_digits(&mut line, back);
    line.text(b"\n");
    line
}

/// Appends up to 200 bytes in hexadecimal, two lower case digits each, the high half first.
fn put_digits(line: &mut Line, bytes: &[u8])
    requires few { length bytes.now ≤ 200 }
    requires room { length line.old + 2 * length bytes.now ≤ 400 }
    ensures text { line.new ≡ line.old ++ encode_lower bytes.now }
    ensures len { length line.new ≡ length line.old + 2 * length bytes.now }
{
    let mut digits = [0; 2 * PIECE];
    let digits = &mut digits[..2 * bytes.len()];
    match hex::encode_to_slice(bytes, digits) {
        Ok(()) => line.text(digits),
        Err(_) => unreachable!(),
    }
}
