ghost use Rattle.std.specs.Prelude.{◌≡◌, ◌≤◌, length, OnErr, OnOk};
ghost use Rattle.std.specs.Io.KnownBytes.{Appends};
ghost use Rattle.cmd_io.specs.Counting.{CountsFaults};
ghost use Rattle.cmd_io.specs.Output.{WritesFront};
ghost use Rattle.allocator.specs.Stranger.{stranger_line};

use cmd_io::Output;
use outside::{Failed, Sink};
use replay_text::Line;

/// Writes that this member heard a stranger, by a frame with this identifier. Where the sink failed, a front of the line
/// is written.
pub fn write_stranger<K: Sink>(sink: &mut K, member: u8, identifier: u32) -> Result<(), Failed>
    ensures ok { OnOk result (Appends (K.written sink.old) (K.written sink.new) (stranger_line member identifier)) }
    ensures err { OnErr result (WritesFront (K.written sink.old) (K.written sink.new)
        (stranger_line member identifier)) }
    ensures faults { CountsFaults (K.faults sink.old) (K.faults sink.new) result }
{
    Output::new().last(sink, line_of(member, identifier).as_bytes())
}

fn line_of(member: u8, identifier: u32) -> Line
    ensures short { length result ≤ 400 }
    ensures text { result ≡ stranger_line member identifier }
{
    let mut line = Line::new();
    line.text(b"stranger ");
    line.number(u64::from(member));
    line.text(b" ");
    line.hex(&identifier.to_be_bytes());
    line.text(b"\n");
    line
}
