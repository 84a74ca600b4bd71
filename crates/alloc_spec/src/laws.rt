//! Laws of the definitions, each the contract of a function that does nothing.

ghost use Rattle.std.specs.Prelude.{◌≡◌, ◌++◌, ℕ, None, List, Some};
ghost use Rattle.can_frame.specs.Zeros.{zeros};
ghost use Rattle.raft_core.specs.Proposing.{entry_puts};
ghost use Rattle.raft_core.specs.StoredPuts.{with_origin};
ghost use Rattle.raft_core.specs.Taken.{proposal};
ghost use Rattle.transfer_rx.specs.Reassembly.{Answer};
ghost use Rattle.alloc_spec.specs.Ending.{call_phase, commit_phase, end_phase, tell_phase};
ghost use Rattle.alloc_spec.specs.Exchange.{records_at};
ghost use Rattle.alloc_spec.specs.Extends.{Extends};
ghost use Rattle.alloc_spec.specs.StepState.{StepState};
ghost use Rattle.alloc_spec.specs.Step.{with_answer};
ghost use Rattle.alloc_spec.specs.Tick.{query_phase, record_phase, records_as, clock_phase};

/// A phase of a step adds puts behind those that the step has made, and takes no frame; it goes on
/// under the same node ID.
pub fn phases_add_puts()
    ensures ticks { (step word : ℕ) (g : StepState) → Extends g (clock_phase step word g) }
    ensures records { (step : ℕ) (g : StepState) → Extends g (query_phase step (record_phase step g)) }
    ensures query { (step : ℕ) (g : StepState) → Extends g (query_phase step g) }
    ensures answers { (step : ℕ) (answer : Answer) (g : StepState) →
        Extends g (with_answer step answer g).step_state }
    ensures ends { (step : ℕ) (g : StepState) → Extends g (end_phase step g) }
    ensures commit { (step : ℕ) (g : StepState) → Extends g (commit_phase step g) }
    ensures tell { (step : ℕ) (g : StepState) → Extends g (call_phase step (tell_phase step g)) }
{}

/// An entry that a leader records has the origin by which the leader got it: 1 for a pair of the
/// exchange, 2 for a node that told its unique ID by GetNodeInfo, 3 for a reservation.
pub fn entries_have_their_origin()
    ensures exchange { (step : ℕ) (uid : List ℕ) (node : ℕ) (g : StepState) →
        (records_at step uid (Some node) g).puts
        ≡ g.puts ++ with_origin 1 (entry_puts (proposal g.allocator.raft_server.store.term uid node)) }
    ensures told { (step node : ℕ) (uid : List ℕ) (g : StepState) →
        (records_as step node (Some uid) g).puts
        ≡ g.puts ++ with_origin 2 (entry_puts (proposal g.allocator.raft_server.store.term uid node)) }
    ensures reserved { (step node : ℕ) (g : StepState) →
        (records_as step node None g).puts
        ≡ g.puts ++ with_origin 3 (entry_puts (proposal g.allocator.raft_server.store.term zeros node)) }
{}
