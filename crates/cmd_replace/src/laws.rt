//! Laws of the definitions, each the contract of a function that does nothing.

ghost use Rattle.std.specs.Prelude.{◌≡◌, ℕ, List, slice_index};
ghost use Rattle.cmd_replace.specs.Guard.{IsElected, MayReplace, StandsInWay};
ghost use Rattle.cmd_replace.specs.declared.guard.Obstacle.{Obstacle};
ghost use Rattle.cmd_replace.specs.Modelled.{HasTheStores};
ghost use Rattle.raft_log.specs.declared.stored.Stored.{Stored};
ghost use Rattle.raft_model.specs.Lists.{In};
ghost use Rattle.raft_model.specs.Runs.{World};
ghost use Rattle.raft_replaced.specs.Replacement.{MayBeCopied};
ghost use Rattle.store_audit.specs.Stores.{store_at};

/// Where something stands in the way, no member's store may be taken.
pub fn an_obstacle_refuses_all()
    ensures { (ids : List ℕ) (lost : ℕ) (stores : List Stored) (why : Obstacle) (place : ℕ) →
        StandsInWay ids lost stores why → MayReplace ids lost stores place → ⊥ }
{}

/// Two places that are elected have one node ID and one term, so there is one leader.
pub fn one_member_is_elected()
    ensures node { (ids : List ℕ) (lost : ℕ) (stores : List Stored) (a b : ℕ) →
        IsElected ids lost stores a → IsElected ids lost stores b →
        slice_index ids a ≡ slice_index ids b }
    ensures term { (ids : List ℕ) (lost : ℕ) (stores : List Stored) (a b : ℕ) →
        IsElected ids lost stores a → IsElected ids lost stores b →
        (store_at stores a).term ≡ (store_at stores b).term }
{}

/// Where the guard allows a copy, the Raft model allows the copy, so runs go on safely behind it (`law_replacements` of
/// `raft_replaced`). That is so in any world in which those that support the leader have these stores, whatever the
/// lost member and all others have stored.
pub fn the_model_allows_it()
    ensures { (world : World) (ids : List ℕ) (lost : ℕ) (stores : List Stored) →
        (place : ℕ) → HasTheStores world ids lost stores place → MayReplace ids lost stores place →
        In lost ids → MayBeCopied world lost (slice_index ids place) }
{}
