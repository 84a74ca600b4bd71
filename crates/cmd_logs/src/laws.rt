//! Laws of the definitions, each the contract of a function that does nothing.

ghost use Rattle.std.specs.Prelude.{◌≡◌, ℕ, List, Option};
ghost use Rattle.cmd_io.specs.declared.status.Status.{Status};
ghost use Rattle.can_logs.specs.declared.form.Form.{Form};
ghost use Rattle.can_logs.specs.declared.form.Line.{Line};
ghost use Rattle.cmd_logs.specs.Report.{IsReport, IsWrittenInPart, TellsMore};
ghost use Rattle.cmd_logs.specs.Converted.{converted};
ghost use Rattle.cmd_logs.specs.Watched.{watched};
ghost use Rattle.cmd_io.specs.Output.{WritesFront};

use can_logs::laws::a_line_says_one_thing;

/// A log has one report, with one status, whatever its lines tell.
pub fn a_log_has_one_report()
    ensures { (listing : List Line → List ℕ) (end : ℕ → List ℕ) (form : Form) (limit : ℕ)
        (bytes report other : List ℕ) (status ending : Status) →
        IsReport listing end form limit bytes report status →
        IsReport listing end form limit bytes other ending →
        (report ≡ other) × (status ≡ ending) }
{
    a_line_says_one_thing();
}

/// What a sink has that failed is a front of the log's report.
pub fn what_was_written_begins_the_report()
    ensures { (listing : List Line → List ℕ) (end : ℕ → List ℕ) (form : Form) (limit : ℕ)
        (bytes report : List ℕ) (status : Status) (left sink_before sink_now : Option (List ℕ)) →
        TellsMore listing → IsWrittenInPart listing end form limit bytes left sink_before sink_now →
        IsReport listing end form limit bytes report status →
        WritesFront sink_before sink_now report }
{
    a_line_says_one_thing();
}

/// A conversion of further lines stands behind that of some lines.
pub fn conversions_tell_more()
    ensures { (to : Form) → TellsMore (converted to) }
{}

/// A watch of further lines lists what it does behind the transfers of some lines.
pub fn watches_tell_more()
    ensures { (ids : List ℕ) → TellsMore (watched ids) }
{}
