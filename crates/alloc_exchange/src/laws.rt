//! Laws of the definitions, each the contract of a function that does nothing.

ghost use Rattle.std.specs.Prelude.{◌≡◌, ◌≤◌, ◌+◌, ◌++◌, ℕ, List, [], length, Bool, true, false};
ghost use Rattle.can_frame.specs.Timing.{stage_timeout};
ghost use Rattle.dsdl_codec.specs.declared.allocation.Allocation.{Allocation};
ghost use Rattle.alloc_exchange.specs.declared.heard.Ignore.{Ignore};
ghost use Rattle.alloc_exchange.specs.declared.heard.Heard.TheVariants.{Ignored, Denied, Whole};
ghost use Rattle.alloc_exchange.specs.Exchange.{Accepted, answer, after, recent_requests};

/// A request that is ignored changes nothing but that what is too old is forgotten.
#[tactic(auto, unfolding(crate::specs::Exchange::answer, crate::specs::Exchange::after))]
pub fn ignored_requests_change_nothing()
    ensures { (accepted : List Accepted) (message : Allocation) (now : ℕ) (may_follow : Bool)
        (why : Ignore) →
        answer accepted message now may_follow ≡ Ignored why →
        after accepted message now may_follow ≡ recent_requests accepted now }
{}

/// Where the unique ID is whole, and where a follow-up is denied, nothing is kept.
#[tactic(auto, unfolding(crate::specs::Exchange::answer, crate::specs::Exchange::after))]
pub fn the_end_clears()
    ensures denied { (accepted : List Accepted) (message : Allocation) (now : ℕ)
        (may_follow : Bool) →
        answer accepted message now may_follow ≡ Denied →
        after accepted message now may_follow ≡ [] }
    ensures whole { (accepted : List Accepted) (message : Allocation) (now : ℕ) (may_follow : Bool)
        (uid : List ℕ)
        (preferred : ℕ) →
        answer accepted message now may_follow ≡ Whole uid preferred →
        after accepted message now may_follow ≡ [] }
{}

/// Three requests, each at most 500 ms after the one before, tell the unique ID, and the last one what
/// is preferred.
#[tactic(auto, unfolding(crate::specs::Exchange::answer, crate::specs::Exchange::after))]
pub fn three_requests_tell_the_unique_id()
    ensures { (a b c : Allocation) (x y z : ℕ) → a.first_part ≡ true → b.first_part ≡ false →
        c.first_part ≡ false →
        length a.uid.items ≡ 6 → length b.uid.items ≡ 6 → length c.uid.items ≡ 4 → y ≤ x + stage_timeout →
        z ≤ y + stage_timeout →
        answer (after (after [] a x true) b y true) c z true
        ≡ Whole ((a.uid.items ++ b.uid.items) ++ c.uid.items) c.node }
{}
