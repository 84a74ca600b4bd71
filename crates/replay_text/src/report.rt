ghost use Rattle.std.specs.Prelude.{◌≡◌, ◌≤◌, ◌<◌, ◌+◌, ◌*◌, ◌++◌, ◌∷◌, [], codes, length, decimal, flat_map};
ghost use Rattle.hex.specs.Hex.{encode_lower};
ghost use Rattle.replay_text.specs.Words.{identifier_bytes};
ghost use Rattle.replay_text.specs.Report.{role_letter, seen_word, sent_mark, state_word};
ghost use Rattle.bus_rows.specs.ReportLine.{report_line_of};
ghost use Rattle.replay_text.specs.ReportText.{text_of_line};

use crate::Line;
use arrayvec::ArrayVec;
use bus_rows::Told;
use can_frame::{Frame, NodeId, Role, Seen, Sent};

/// The line that tells what row number `row` did, its line feed included. The longest is that of a step
/// that offered twelve transfers, with 189 bytes: 56 to `drop:9`, 11 for each transfer as ` +alloc:255`,
/// and the line feed.
pub fn write_told(row: u64, told: &Told) -> ArrayVec<u8, 400>
    ensures line { result.items ≡ text_of_line row (report_line_of told.now) }
    ensures fits { length result.items ≤ 400 }
{
    let mut line = Line::new();
    tell(&mut line, row, told);
    line.into_bytes()
}

/// Makes a line that of what row number `row` did, as `write_told` gives it; what it was before is gone.
pub fn tell(line: &mut Line, row: u64, told: &Told)
    ensures line { line.new ≡ text_of_line row (report_line_of told.now) }
    ensures fits { length line.new ≤ 400 }
{
    line.clear();
    line.number(row);
    match told {
        Told::Opened {
            n,
            term,
            vote,
            last,
            commit,
        } => {
            write_event(line, *n, b" open");
            write_state(line, *term, *vote, *last, *commit);
        }
        Told::Stepped {
            n,
            role,
            term,
            last,
            commit,
            queued,
            seen,
            sent,
        } => {
            line.field(u64::from(*n));
            line.byte(b' ');
            line.byte(letter(*role));
            write_state(line, *term, *last, *commit, *queued);
            write_seen(line, *seen);
            write_marks(line, sent);
        }
        Told::Failed { n } => write_event(line, *n, b" fault"),
        Told::Stopped { n } => write_event(line, *n, b" stop"),
        Told::Armed { n } => write_event(line, *n, b" armed"),
        Told::Popped { n, k, frame } => {
            write_event(line, *n, b" send");
            write_frame(line, *k, frame);
        }
        Told::Outside { k } => {
            line.text(b" ext");
            line.field(u64::from(*k));
        }
        Told::AOpened { a } => write_allocatee(line, *a, b" open"),
        Told::AStepped {
            a,
            holds,
            queued,
            seen,
            sent,
        } => {
            write_allocatee(line, *a, b" ");
            write_holds(line, *holds);
            line.field(u64::from(*queued));
            write_seen(line, *seen);
            write_marks(line, sent);
        }
        Told::APopped { a, k, frame } => {
            write_allocatee(line, *a, b" send");
            write_frame(line, *k, frame);
        }
        Told::AEnded { a } => write_allocatee(line, *a, b" end"),
    }
    line.byte(b'\n');
}

/// A node and what happened to it.
fn write_event(line: &mut Line, n: u8, event: &[u8])
    requires { length line.old + 21 + length event.now ≤ 400 }
    ensures text { line.new ≡ line.old ++ codes " " ++ decimal n ++ event.now }
    ensures len { length line.new ≤ length line.old + 4 + length event.now }
{
    line.field(u64::from(n));
    line.text(event);
}

/// An allocatee and what happened to it.
fn write_allocatee(line: &mut Line, a: u8, event: &[u8])
    requires { length line.old + 22 + length event.now ≤ 400 }
    ensures text { line.new ≡ line.old ++ codes " a" ++ decimal a ++ event.now }
    ensures len { length line.new ≤ length line.old + 5 + length event.now }
{
    line.text(b" a");
    line.number(u64::from(a));
    line.text(event);
}

/// Whether it waits for a node ID, or which one it holds.
fn write_holds(line: &mut Line, holds: Option<NodeId>)
    requires { length line.old + 25 ≤ 400 }
    ensures text { line.new ≡ line.old ++ state_word holds }
    ensures len { length line.new ≤ length line.old + 8 }
{
    match holds {
        Some(node) => {
            line.text(b"hold:");
            line.number(u64::from(node.get()));
        }
        None => line.text(b"wait"),
    }
}

/// The term, and the three numbers that a line has behind it.
fn write_state(line: &mut Line, term: u32, first: u8, second: u8, third: u8)
    requires { length line.old + 84 ≤ 400 }
    ensures text { line.new ≡ line.old ++ codes " " ++ decimal term
        ++ codes " " ++ decimal first ++ codes " " ++ decimal second ++ codes " " ++ decimal third }
    ensures len { length line.new ≤ length line.old + 33 }
{
    line.field(u64::from(term));
    line.field(u64::from(first));
    line.field(u64::from(second));
    line.field(u64::from(third));
}

fn write_frame(line: &mut Line, k: u32, frame: &Frame)
    requires { length line.old + 47 ≤ 400 }
    ensures text { line.new ≡ line.old ++ codes " " ++ decimal k
        ++ codes " " ++ encode_lower (identifier_bytes frame.now.id) ++ codes " "
        ++ encode_lower frame.now.bytes.items }
    ensures len { length line.new ≤ length line.old + 47 }
{
    line.field(u64::from(k));
    line.byte(b' ');
    line.hex(&frame.id.to_be_bytes());
    line.byte(b' ');
    line.hex(&frame.bytes);
}

fn letter(role: Role) -> u8
    ensures { result ∷ [] ≡ role_letter role }
{
    match role {
        Role::Follower => b'F',
        Role::Candidate => b'C',
        Role::Leader => b'L',
    }
}

fn write_seen(line: &mut Line, seen: Seen)
    requires { length line.old + 26 ≤ 400 }
    ensures text { line.new ≡ line.old ++ codes " " ++ seen_word seen }
    ensures len { length line.new ≤ length line.old + 9 }
{
    line.byte(b' ');
    match seen {
        Seen::Ticked => line.text(b"tick"),
        Seen::Took => line.text(b"took"),
        Seen::Bad => line.text(b"bad"),
        Seen::Part => line.text(b"part"),
        Seen::Dropped(why) => {
            line.text(b"drop:");
            line.number(why as u64);
        }
    }
}

fn write_marks(line: &mut Line, sent: &[Sent])
    requires { length line.old + 11 * length sent.now + 20 ≤ 400 }
    ensures text { line.new ≡ line.old ++ flat_map sent_mark sent.now }
    ensures len { length line.new ≤ length line.old + 11 * length sent.now }
{
    for transfer in sent {
        write_mark(line, *transfer);
    }
}

fn write_mark(line: &mut Line, transfer: Sent)
    requires { length line.old + 28 ≤ 400 }
    ensures text { line.new ≡ line.old ++ sent_mark transfer }
    ensures len { length line.new ≤ length line.old + 11 }
{
    line.byte(b' ');
    line.byte(if transfer.fitted { b'+' } else { b'-' });
    line.text(transfer.what.transfer_type().name);
    line.byte(b':');
    line.number(u64::from(transfer.to));
}
