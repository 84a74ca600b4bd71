//! What holds of every run, each the contract of a function that does nothing.

ghost use Rattle.std.specs.Prelude.{◌≡◌, ℕ, List};
ghost use Rattle.cmd_decode.specs.Report.{IsReport};
ghost use Rattle.cmd_io.specs.declared.status.Status.{Status};

use dsdl_text::laws::a_line_has_one_value;

/// A text and a payload have one report, with one status.
pub fn a_text_has_one_report()
    ensures { (name : List ℕ) (part : ℕ) (payload bytes report other : List ℕ) (status ending : Status) →
        IsReport name part payload bytes report status → IsReport name part payload bytes other ending →
        (report ≡ other) × (status ≡ ending) }
{
    a_line_has_one_value();
}
