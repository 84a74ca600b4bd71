//! Laws of runs with replacements, each the contract of a function that does nothing.
//!
//! A run with replacements is any list of changes that may come, from empty stores on: events of the Raft model, and
//! copies of a leader's store to a lost member, any number of each. A law of every such run holds after each change.

ghost use Rattle.std.specs.Prelude.{ℕ, true, false, List, [], ◌∷◌, ◌≡◌, ◌≤◌, ◌==◌, ◌&&◌, length};
ghost use Rattle.raft_model.specs.Invariants.{Invariants};
ghost use Rattle.raft_model.specs.Lists.{In, how_many};
ghost use Rattle.raft_model.specs.Messages.{Message};
ghost use Rattle.raft_model.specs.Runs.{Event, Lawful, World, initial_world, run};
ghost use Rattle.raft_model.specs.Safety.{IsSafe, Lasts};
ghost use Rattle.raft_model.specs.Server.{committed, quorum};
ghost use Rattle.raft_replaced.specs.Changes.{MayComeInTurn, FromEachThroughReplacements, ThroughReplacements};
ghost use Rattle.raft_replaced.specs.Changes.{changed, only_events};
ghost use Rattle.raft_replaced.specs.Replacement.{MayBeCopied, is_of_logs, is_vote_for, stores_of, world_copied};
ghost use Rattle.raft_replaced.specs.Worlds.{world_with_stale_vote};

/// Every run with replacements keeps the nine invariants and is safe, at each moment; and what lasts from one moment of
/// a run to later ones lasts through replacements too: the ledger, and each member's committed list, also that of a
/// member whose store was lost.
pub fn law_replacements()
    ensures invariants { ThroughReplacements Invariants }
    ensures safe { ThroughReplacements IsSafe }
    ensures lasts { FromEachThroughReplacements Lasts }
{}

/// A run of the Raft model is one without a replacement.
pub fn law_plain_runs()
    ensures world { (world : World) (events : List Event) →
        changed world (only_events events) ≡ run world events }
    ensures allowed { (world : World) (events : List Event) → Lawful world events →
        MayComeInTurn world (only_events events) }
{}

/// After a replacement the lost member has the leader's store, and all that is committed. Each append request, answer
/// to one and pair of before may still come.
pub fn law_copy()
    ensures store { (world : World) (lost leader : ℕ) →
        stores_of (world_copied world lost leader) lost ≡ stores_of world leader }
    ensures all { ThroughReplacements (λ world. (lost leader : ℕ) → MayBeCopied world lost leader →
        committed (stores_of (world_copied world lost leader) lost) ≡ world.ledger.entries) }
    ensures bag { (world : World) (lost leader : ℕ) (message : Message) → In message world.bag →
        is_of_logs message ≡ true → In message (world_copied world lost leader).bag }
{}

/// Replacements come: of three members one is lost, where the leader led its term, and where it only stood in it. Both
/// times an entry is committed.
pub fn law_example()
    ensures led { (events : List Event) × Lawful (initial_world (1 ∷ 2 ∷ 3 ∷ [])) events
        × MayBeCopied (run (initial_world (1 ∷ 2 ∷ 3 ∷ [])) events) 3 1
        × (length (run (initial_world (1 ∷ 2 ∷ 3 ∷ [])) events).ledger.entries ≡ 1)
        × ((run (initial_world (1 ∷ 2 ∷ 3 ∷ [])) events).history.led
        (stores_of (run (initial_world (1 ∷ 2 ∷ 3 ∷ [])) events) 1).term ≡ true) }
    ensures stood { (events : List Event) × Lawful (initial_world (1 ∷ 2 ∷ 3 ∷ [])) events
        × MayBeCopied (run (initial_world (1 ∷ 2 ∷ 3 ∷ [])) events) 3 1
        × (length (run (initial_world (1 ∷ 2 ∷ 3 ∷ [])) events).ledger.entries ≡ 1)
        × ((run (initial_world (1 ∷ 2 ∷ 3 ∷ [])) events).history.led
        (stores_of (run (initial_world (1 ∷ 2 ∷ 3 ∷ [])) events) 1).term ≡ false) }
{}

/// Where a vote is stale none may come, though a quorum has the leader's term and a vote for it.
pub fn law_stale_vote()
    ensures votes { quorum world_with_stale_vote.members
        ≤ how_many (λ member. ((stores_of world_with_stale_vote member).term == 3)
        && is_vote_for (stores_of world_with_stale_vote member).vote 1) world_with_stale_vote.members }
    ensures refused { MayBeCopied world_with_stale_vote 5 1 → ⊥ }
{}
