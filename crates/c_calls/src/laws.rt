//! Laws of the definitions, each the contract of a function that does nothing.

ghost use Rattle.std.specs.Prelude.{◌≡◌, ◌∷◌, ℕ, suc, List, MatchOption, length};
ghost use Rattle.alloc_server.specs.Server.{durable_of};
ghost use Rattle.alloc_spec.specs.AllocatorState.{AllocatorState, opening};
ghost use Rattle.alloc_spec.specs.Rules.{opening_by, rules_by};
ghost use Rattle.raft_core.specs.StoredPuts.{store_of};
ghost use Rattle.raft_log.specs.DurableViews.{durable_state};
ghost use Rattle.c_calls.specs.declared.node.Node.{Node};
ghost use Rattle.c_calls.specs.At.{Calls, IsAt, first_bytes, low};
ghost use Rattle.c_calls.specs.Runs.{Call, Learns, Run, after_calls};

/// Calls of a node, none of whose steps is refused or fails, are steps of the definition, in the same order, with the
/// frames that go out between them: so from the opening on, if the call before them opened it; and from the opening by
/// the rules that it was told, if the first of them told it who its members are.
pub fn calls_are_steps()
    ensures steps { (calls : List Call) (at : ℕ → Node) (t : AllocatorState) → Run calls at → IsAt (at 0) t →
        IsAt (at (length calls)) (after_calls calls (at 0).steps t) }
    ensures opened { (calls : List Call) (at : ℕ → Node) (closed : Node) (now a b : ℕ) →
        Calls closed (at 0) 1 now a b 0 → Run calls at →
        MatchOption (at 0).server ⊥ (λ server. IsAt (at (length calls)) (after_calls calls (at 0).steps
        (opening closed.id closed.size (store_of (durable_state (durable_of server))) now (low a)))) }
    ensures told { (calls : List Call) (at : ℕ → Node) (closed : Node) (now a b later list count : ℕ) →
        Calls closed (at 0) 1 now a b 0 → Run (Learns later list count ∷ calls) at →
        MatchOption (at 0).server ⊥ (λ server. IsAt (at (suc (length calls))) (after_calls calls (at 0).steps
        (opening_by closed.id (rules_by closed.size (first_bytes count list))
        (store_of (durable_state (durable_of server))) now (low a)))) }
{}
