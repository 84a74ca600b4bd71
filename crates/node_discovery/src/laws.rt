//! What the definitions mean for a node, in laws, each the contract of a function that does nothing.

ghost use Rattle.std.specs.Prelude.{◌≡◌, ◌∷◌, ◌<◌, ◌+◌, [], ℕ, suc, List, Bool, true, false, Option, Some};
ghost use Rattle.can_frame.specs.Timing.{query_interval};
ghost use Rattle.node_discovery.specs.History.{Event, Status, Asked, Taken, IsSilent, counted, identity, is_nameless, is_online, is_silent, may_be_asked, query_count, spell, takes, unique_id};
ghost use Rattle.node_discovery.specs.declared.counting.Counting.{Counting};
ghost use Rattle.node_discovery.specs.declared.counting.Counting.TheVariants.{OfSpell, SinceAnswer};
ghost use Rattle.node_discovery.specs.Watch.{HearsDevicesAlone, IsNextQuery, IsSomeUnknown, NoneIsUnknown, Watched, next_query, some_unknown};

/// A spell begins with a status that comes while the node is not online; each other status belongs
/// to the spell in which it comes. A spell begins with no unique ID, and with no query: none is
/// counted, and the answer to none would be taken.
pub fn a_spell_begins_anew()
    ensures begins { (events : List Event) (moment : ℕ) → is_online events moment ≡ false →
        spell (Status moment ∷ events) ≡ Status moment ∷ [] }
    ensures goes_on { (events : List Event) (moment : ℕ) → is_online events moment ≡ true →
        spell (Status moment ∷ events) ≡ Status moment ∷ spell events }
    ensures nameless { (events : List Event) (moment : ℕ) → is_online events moment ≡ false →
        is_nameless (Status moment ∷ events) moment ≡ true }
    ensures unasked { (events : List Event) (moment : ℕ) → is_online events moment ≡ false →
        query_count (spell (Status moment ∷ events)) ≡ 0 }
    ensures unanswered { (events : List Event) (moment transfer_id now : ℕ) →
        is_online events moment ≡ false → takes (Status moment ∷ events) transfer_id now ≡ false }
{}

/// A node that was asked is not asked again for 1,000 ms, whatever statuses come and whatever it
/// answers.
pub fn a_query_waits()
    ensures once { (events : List Event) (transfer_id moment now : ℕ) → now < moment + query_interval →
        may_be_asked (Asked transfer_id moment ∷ events) now ≡ false }
    ensures status { (events : List Event) (moment now : ℕ) →
        may_be_asked (Status moment ∷ events) now ≡ may_be_asked events now }
    ensures answer { (events : List Event) (uid : List ℕ) (moment now : ℕ) →
        may_be_asked (Taken uid moment ∷ events) now ≡ may_be_asked events now }
{}

/// A query is answered once.
pub fn an_answer_ends_the_query()
    ensures { (events : List Event) (uid : List ℕ) (moment transfer_id now : ℕ) →
        takes (Taken uid moment ∷ events) transfer_id now ≡ false }
{}

/// What a node told is its identity while it is online, and stays its unique ID while its spell goes on.
pub fn an_answer_is_the_identity()
    ensures told { (events : List Event) (uid : List ℕ) (moment now : ℕ) →
        is_online events now ≡ true →
        identity (Taken uid moment ∷ events) now ≡ Some uid }
    ensures stays { (events : List Event) (moment : ℕ) → is_online events moment ≡ true →
        unique_id (Status moment ∷ events) ≡ unique_id events }
{}

/// What is computed is what it is to be silent; and who told its unique ID is not silent.
pub fn silence_is_computed()
    ensures is { (counting : Counting) (events : List Event) (now : ℕ) →
        is_silent counting events now ≡ true → IsSilent counting events now }
    ensures only { (counting : Counting) (events : List Event) (now : ℕ) →
        IsSilent counting events now → is_silent counting events now ≡ true }
    ensures told { (counting : Counting) (events : List Event) (uid : List ℕ) (moment now : ℕ) →
        is_silent counting (Taken uid moment ∷ events) now ≡ false }
{}

/// Where the queries since the last answer count, an answer alone forgets them: a status does not,
/// whether it begins a spell or not. Then at least those are silent who are by the queries of their spell.
pub fn an_answer_alone_forgets()
    ensures status { (events : List Event) (moment : ℕ) →
        query_count (counted SinceAnswer (Status moment ∷ events))
        ≡ query_count (counted SinceAnswer events) }
    ensures asked { (events : List Event) (transfer_id moment : ℕ) →
        query_count (counted SinceAnswer (Asked transfer_id moment ∷ events))
        ≡ suc (query_count (counted SinceAnswer events)) }
    ensures answer { (events : List Event) (uid : List ℕ) (moment : ℕ) →
        query_count (counted SinceAnswer (Taken uid moment ∷ events)) ≡ 0 }
    ensures more { (events : List Event) (now : ℕ) → is_silent OfSpell events now ≡ true →
        is_silent SinceAnswer events now ≡ true }
{}

/// The next query that is computed is the least node that is due, and nothing else is; and what is
/// computed of the unknown is that there is one.
pub fn what_is_computed_of_the_unknown()
    ensures next { (events : List Watched) (known : List Bool) (now : ℕ) →
        HearsDevicesAlone events →
        IsNextQuery events known now (next_query events known now) }
    ensures only { (events : List Watched) (known : List Bool) (now : ℕ) (other : Option ℕ) →
        HearsDevicesAlone events →
        IsNextQuery events known now other → other ≡ next_query events known now }
    ensures some { (events : List Watched) (known : List Bool) (now : ℕ) →
        some_unknown events known now ≡ true → IsSomeUnknown events known now }
    ensures none { (events : List Watched) (known : List Bool) (now : ℕ) →
        HearsDevicesAlone events →
        some_unknown events known now ≡ false → NoneIsUnknown events known now }
{}
