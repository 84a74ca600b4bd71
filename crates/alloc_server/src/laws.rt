//! Laws of the definitions, each the contract of a function that does nothing.

ghost use Rattle.raft_model.specs.Runs.{InEveryRun};
ghost use Rattle.alloc_server.specs.OneLog.{ContradictsNothing, RepeatsNothing};

use raft_model::laws::{law_commit, law_matching, law_one_log, law_stored, law_votes};

/// In a run of the Raft model no append request contradicts what a member has stored. And in one of the member's own
/// term or a later one no entry repeats a node ID or a unique ID that the member has committed. Whoever is sent such
/// a call is sent it from another log.
pub fn no_call_contradicts()
    ensures repeats { InEveryRun RepeatsNothing }
    ensures contradicts { InEveryRun ContradictsNothing }
{
    law_stored();
    law_votes();
    law_matching();
    law_commit();
    law_one_log();
}
