//! What the definitions mean for a member, in laws, each the contract of a function that does nothing.

ghost use Rattle.std.specs.Prelude.{◌≡◌, ◌⊎◌, ◌∷◌, ◌<◌, ◌+◌, ℕ, Contains, List, true, false, length};
ghost use Rattle.can_frame.specs.Timing.{discovery_interval};
ghost use Rattle.dsdl_codec.specs.declared.discovery.Discovery.{Discovery};
ghost use Rattle.can_frame.specs.Log.{IsPrefix};
ghost use Rattle.cluster_discovery.specs.Members.{Event, Heard, Sent, IsMemberList, IsStart, Names, Start, counts, is_complete, is_due, learns, members, owes};

/// Who is known stays known, in its place.
pub fn members_stay()
    ensures { (start : Start) (events : List Event) (from : ℕ) (message : Discovery) →
        IsPrefix (members start events) (members start (Heard from message ∷ events)) }
{}

/// Whatever was heard, the list begins with the member itself, has node IDs of 1 to 125 alone and none
/// twice, and is no longer than the size.
pub fn members_are_a_list()
    ensures { (start : Start) (events : List Event) → IsStart start →
        IsMemberList start.me start.size (members start events) }
{}

/// Who is new was named: it is the source of the message, or the message lists it; and the message
/// counts.
pub fn new_members_were_named()
    ensures { (start : Start) (events : List Event) (from : ℕ) (message : Discovery) (node : ℕ) →
        Contains (members start (Heard from message ∷ events)) node →
        Contains (members start events) node ⊎ Names start from message node }
{}

/// A complete list stays as it is, whatever is heard, and nothing is learnt any more.
pub fn a_complete_list_stays()
    ensures members { (start : Start) (events : List Event) (from : ℕ) (message : Discovery) →
        is_complete start events ≡ true →
        members start (Heard from message ∷ events) ≡ members start events }
    ensures complete { (start : Start) (events : List Event) (from : ℕ) (message : Discovery) →
        is_complete start events ≡ true →
        is_complete start (Heard from message ∷ events) ≡ true }
    ensures learns { (start : Start) (events : List Event) (from : ℕ) (message : Discovery) →
        is_complete start events ≡ true →
        learns start events from message ≡ false }
{}

/// A message of another cluster size, or from the member itself, teaches nothing and is owed nothing.
pub fn what_does_not_count_changes_nothing()
    ensures members { (start : Start) (events : List Event) (from : ℕ) (message : Discovery) →
        counts start from message ≡ false →
        members start (Heard from message ∷ events) ≡ members start events }
    ensures owes { (start : Start) (events : List Event) (from : ℕ) (message : Discovery) →
        counts start from message ≡ false →
        owes start (Heard from message ∷ events) ≡ owes start events }
    ensures learns { (start : Start) (events : List Event) (from : ℕ) (message : Discovery) →
        counts start from message ≡ false →
        learns start events from message ≡ false }
{}

/// A list that is shorter than the size is owed a Discovery, also where nothing was learnt from it.
pub fn a_shorter_list_is_owed_a_discovery()
    ensures { (start : Start) (events : List Event) (from : ℕ) (message : Discovery) →
        counts start from message ≡ true →
        length message.known.items < start.size → owes start (Heard from message ∷ events) ≡ true }
{}

/// A Discovery ends what is owed, and the next is not due for 1,000 ms.
pub fn a_discovery_ends_what_is_owed()
    ensures owes { (start : Start) (events : List Event) (moment : ℕ) →
        owes start (Sent moment ∷ events) ≡ false }
    ensures waits { (start : Start) (events : List Event) (moment now : ℕ) → now < moment + discovery_interval →
        is_due start (Sent moment ∷ events) now ≡ false }
{}
