ghost use Rattle.std.specs.Prelude.{◌≡◌, ◌≤◌, [], length, OnOk};
ghost use Rattle.outside.specs.Faults.{HasCause};
ghost use Rattle.cmd_io.specs.Output.{WritesLast};
ghost use Rattle.cmd_soak.specs.Counts.{lines_of};

use cmd_io::Output;
use outside::{Failed, Sink};
use replay_text::Line;

/// What a soak came to.
#[derive(Clone, Copy)]
pub(crate) struct Counts {
    pub rounds: u64,
    pub frames: u64,
    pub stops: u64,
    pub refused: u64,
    pub pairs: u64,
}

/// Writes the six lines.
pub(crate) fn write_counts<K: Sink>(counts: Counts, sink: &mut K) -> Result<(), Failed>
    ensures told { WritesLast (K.written sink.old) [] (K.written sink.new)
        (lines_of counts) result }
    ensures cause { HasCause (K.faults sink.old) (K.faults sink.new) result }
    ensures kept { OnOk result (K.faults sink.new ≡ K.faults sink.old) }
{
    let lines = lines(counts);
    let mut output = Output::new();
    output.last(sink, lines.as_bytes())
}

fn lines(counts: Counts) -> Line
    ensures short { length result ≤ 400 }
    ensures text { result ≡ lines_of counts }
{
    let mut lines = Line::new();
    lines.text(b"rounds ");
    lines.number(counts.rounds);
    lines.text(b"\nframes ");
    lines.number(counts.frames);
    lines.text(b"\nstops ");
    lines.number(counts.stops);
    lines.text(b"\nrefused ");
    lines.number(counts.refused);
    lines.text(b"\npairs ");
    lines.number(counts.pairs);
    lines.text(b"\nend ");
    lines.number(counts.rounds);
    lines.text(b"\n");
    lines
}
