//! Laws of the definitions, each the contract of a function that does nothing.

ghost use Rattle.std.specs.Prelude.{◌≡◌, ℕ, List, Option, Some, ◌<◌, ◌^◌};
ghost use Rattle.hex.specs.Hex.{IsBytes};
ghost use Rattle.arrayvec.specs.ArrayVec.{ArrayVec};
ghost use Rattle.can_frame.specs.declared.frame.Frame.{Frame};
ghost use Rattle.can_logs.specs.declared.candump.LogLine.{LogLine};
ghost use Rattle.can_logs.specs.declared.form.Form.{Form};
ghost use Rattle.can_logs.specs.declared.form.Line.{Line};
ghost use Rattle.can_logs.specs.declared.slcan.SlLine.{SlLine};
ghost use Rattle.can_logs.specs.Candump as candump;
ghost use Rattle.can_logs.specs.Forms.{IsLineWritable, Says};
ghost use Rattle.can_logs.specs.Slcan as slcan;

use can_frame::laws::frames_are_their_parts;

/// A line reads as one value.
pub fn a_line_has_one_reading()
    ensures candump { (a b : LogLine) (line : List ℕ) → candump.Reads a line →
        candump.Reads b line → a ≡ b }
    ensures slcan { (a b : SlLine) (line : List ℕ) → slcan.Reads a line → slcan.Reads b line →
        a ≡ b }
{
    frames_are_their_parts();
}

/// A line that is written reads as its value.
#[tactic(auto, using(crate::proofs::Written::candump_again, crate::proofs::Written::slcan_again))]
pub fn written_lines_are_read_again()
    ensures candump { (sec micros : ℕ) (iface : ArrayVec ℕ) (frame : Frame) →
        candump.IsWritable (LogLine.Data sec micros iface frame) → IsBytes frame.bytes.items →
        candump.Reads (LogLine.Data sec micros iface frame)
        (candump.candump_text (LogLine.Data sec micros iface frame)) }
    ensures slcan { (frame : Frame) (stamp : Option ℕ) → slcan.IsStamp stamp →
        IsBytes frame.bytes.items →
        slcan.Reads (SlLine.Data frame stamp) (slcan.slcan_text (SlLine.Data frame stamp)) }
{}

/// What a line reads as may be written.
pub fn read_lines_are_writable()
    ensures { (sec micros : ℕ) (iface : ArrayVec ℕ) (frame : Frame) (line : List ℕ) →
        candump.Reads (LogLine.Data sec micros iface frame) line →
        candump.IsWritable (LogLine.Data sec micros iface frame) }
{}

/// A line of a form says one thing.
pub fn a_line_says_one_thing()
    ensures { (form : Form) (a b : Line) (text : List ℕ) → Says form a text → Says form b text →
        a ≡ b }
{
    a_line_has_one_reading();
}

/// What a line of a form says may be written.
pub fn said_lines_are_writable()
    ensures { (form : Form) (said : Line) (text : List ℕ) → Says form said text →
        IsLineWritable said }
{
    read_lines_are_writable();
}
