ghost use Rattle.std.specs.Prelude.{◌≡◌};
ghost use Rattle.bus_rows.specs.ReportLine.{report_line_of};
ghost use Rattle.bus_spec.specs.Report.{line_of_outcome};

use alloc_spec::{Outcome, View};
use bus_rows::Told;

/// What a step of member `n` tells: the numbers after it, what it saw, and the transfers that it offered.
pub fn told_of_step(n: u8, view: View, outcome: Outcome) -> Told
    ensures { report_line_of result ≡ line_of_outcome n view outcome.seen outcome.sent.items }
{
    Told::Stepped {
        n,
        role: view.role,
        term: view.term,
        last: view.last,
        commit: view.commit,
        queued: view.queued,
        seen: outcome.seen,
        sent: outcome.sent,
    }
}
