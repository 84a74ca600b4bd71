//! The last steps of all allocators, as the report tells them.

ghost use Rattle.std.specs.Prelude.{◌≡◌, ◌<◌, ◌≤◌, ◌+◌, ◌++◌, [], ◌∷◌, suc, ℕ};
ghost use Rattle.std.specs.Prelude.{List, length, map, IfSome, OnOk};
ghost use Rattle.outside.specs.Faults.{HasCause};
ghost use Rattle.cmd_io.specs.Output.{Grows, Writes, WritesLast};
ghost use Rattle.bus_rows.specs.ReportLine.{report_line_of};
ghost use Rattle.replay_text.specs.ReportText.{text_of_line};
ghost use Rattle.cmd_node.specs.Report.{joined, report};
ghost use Rattle.cmd_node.specs.Kept.{kept_line};

use crate::step::NumberedStep;
use bus_rows::Told;
use circular_buffer::HeapCircularBuffer;
use cmd_io::{Output, number_line};
use outside::{Failed, Sink};
use replay_text::write_told;
use std::alloc::Global;

/// How many steps are kept.
const MOST_KEPT: usize = 256;

/// The last steps, and how many there were in all.
#[derive(Drop)]
pub(crate) struct LastSteps {
    ring: HeapCircularBuffer<NumberedStep>,
    made: u64,
    ghost kept: { ring.capacity ≡ 256 },
}

impl LastSteps {
    ghost use Rattle.cmd_node.specs.Steps.{Keeps, steps_made};

    /// No step was made yet. All memory is taken here; `None` where there is too little.
    pub fn new(alloc: Global) -> Option<LastSteps>
        ensures keeps { IfSome result (λ steps. Keeps steps []) }
        ensures made { IfSome result (λ steps. steps_made steps ≡ 0) }
    {
        match HeapCircularBuffer::with_capacity(alloc, MOST_KEPT) {
            Ok(ring) => Some(LastSteps { ring, made: 0 }),
            Err(_) => None,
        }
    }

    /// The number of the next step: they are numbered from 1.
    pub fn next_number(&self) -> u64
        requires { steps_made self.now < 18446744073709551615 }
        ensures { result ≡ steps_made self.now + 1 }
    {
        self.made + 1
    }

    /// The next step was made, and told this.
    pub fn push(&mut self, told: Told)
        requires { steps_made self.old < 18446744073709551615 }
        ensures keeps { (lines : List (List ℕ)) → Keeps self.old lines →
            Keeps self.new (lines ++ text_of_line (suc (length lines)) (report_line_of told) ∷ []) }
        ensures made { steps_made self.new ≡ steps_made self.old + 1 }
    {
        self.made += 1;
        let step = NumberedStep {
            number: self.made,
            told,
        };
        self.ring.push_back(step);
    }

    /// Writes the lines of the steps that were kept, and how many turns there were.
    pub fn write<K: Sink>(self, turns: u64, sink: &mut K) -> Result<(), Failed>
        ensures told { (lines : List (List ℕ)) → Keeps self lines →
            WritesLast (K.written sink.old) [] (K.written sink.new) (report turns lines) result }
        ensures cause { HasCause (K.faults sink.old) (K.faults sink.new) result }
        ensures kept { OnOk result (K.faults sink.new ≡ K.faults sink.old) }
    {
        let mut output = Output::new();
        write_steps(self.ring, &mut output, sink)?;
        output.last(sink, number_line(b"end ", turns).as_bytes())
    }
}

/// Writes the lines of these steps.
fn write_steps<K: Sink>(
    ring: HeapCircularBuffer<NumberedStep>,
    output: &mut Output,
    sink: &mut K,
) -> Result<(), Failed>
    ensures told { Writes (K.written sink.old) output.old (K.written sink.new) output.new
        (joined (map kept_line ring.items)) result }
    ensures grew { Grows (K.written sink.old) (K.written sink.new) }
    ensures cause { HasCause (K.faults sink.old) (K.faults sink.new) result }
    ensures kept { OnOk result (K.faults sink.new ≡ K.faults sink.old) }
{
    let mut ring = ring;
    'steps: loop {
        let Some(step) = ring.pop_front() else {
            break 'steps;
        };
        output.line(sink, &write_told(step.number, &step.told))?;
    }
    Ok(())
}
