//! Laws of the definitions, each the contract of a function that does nothing.

ghost use Rattle.std.specs.Prelude.{◌≡◌, ℕ, ◌+◌, ◌*◌, ◌%◌, ◌++◌, ◌∷◌, ◌⊎◌, ◌↔◌, ◌<◌, ◌≤◌, ◌≢◌, [], length, max, slice_index_or};
ghost use Rattle.std.specs.Prelude.{Contains, IfSome, List, None, Option, Some, false, true};
ghost use Rattle.can_frame.specs.DataTypes.{allocation, node_status};
ghost use Rattle.can_frame.specs.Kinds.{is_anonymous};
ghost use Rattle.can_frame.specs.Sizes.{node_ids};
ghost use Rattle.can_frame.specs.Timing.{stage_timeout};
ghost use Rattle.can_frame.specs.Zeros.{zeros};
ghost use Rattle.can_frame.specs.declared.entry.Entry.{Entry};
ghost use Rattle.can_frame.specs.declared.identifier.Ident.{Ident};
ghost use Rattle.can_frame.specs.declared.identifier.Kind.TheVariants.{Anonymous, Message};
ghost use Rattle.cluster_discovery.specs.Members.{is_on_list};
ghost use Rattle.outside.specs.declared.received.RawFrame.{RawFrame};
ghost use Rattle.outside.specs.declared.received.Received.{Received};
ghost use Rattle.outside.specs.declared.received.Received.TheVariants.{Frame};
ghost use Rattle.told_link.specs.Following.{byte_of};
ghost use Rattle.told_link.specs.Voice.{fields_of};
ghost use Rattle.newcomer_link.specs.Approach.{approach_in, part_in};
ghost use Rattle.newcomer_link.specs.Partials.{has_all_told, has_part, untold_yet, with_part};
ghost use Rattle.newcomer_link.specs.Run.{Occurrence, HappenUntil, found_in_all, found_more, standing_behind};
ghost use Rattle.newcomer_link.specs.Run.Occurrence.{IsReadThen};
ghost use Rattle.newcomer_link.specs.Standing.{IsKnownPart, Standing, between_exchanges, is_lately};
ghost use Rattle.newcomer_link.specs.Standing.{is_logged, places_taken, rule_ask, rule_show, standing_at, told_since};
ghost use Rattle.newcomer_link.specs.Standing.{without_logged};
ghost use Rattle.newcomer_link.specs.declared.approach.Approach.TheVariants.{Asks, Shows};
ghost use Rattle.newcomer_link.specs.declared.partial.Part.{Part};
ghost use Rattle.newcomer_link.specs.declared.partial.Part.TheVariants.{First, Second, Third};
ghost use Rattle.newcomer_link.specs.declared.partial.Partial.{Partial};

/// Which frames count: the NodeStatus of a node of 1 to 125 that is not on the list, and a request that brings a part
/// of a unique ID. No other frame does, and to a member that is told no list none.
pub fn newcomers_are_seen()
    ensures shows { (ids : List ℕ) (raw : RawFrame) (ident : Ident) → ids ≢ [] → fields_of raw ≡ Some ident →
        ident.kind ≡ Message → ident.number ≡ node_status.number → ident.source ≤ 125 →
        is_on_list ids ident.source ≡ false → approach_in ids (Frame raw) ≡ Some (Shows ident.source) }
    ensures asks { (ids : List ℕ) (raw : RawFrame) (ident : Ident) (part : Part) → ids ≢ [] →
        fields_of raw ≡ Some ident → ident.kind ≡ Anonymous → ident.number ≡ allocation.number →
        part_in raw ≡ Some part → approach_in ids (Frame raw) ≡ Some (Asks part) }
    // All frames of 8 bytes bring such a part, and those of 6 without the flag.
    ensures eight { (ids : List ℕ) (raw : RawFrame) (ident : Ident) → ids ≢ [] → fields_of raw ≡ Some ident →
        ident.kind ≡ Anonymous → ident.number ≡ allocation.number → raw.len ≡ 8 → approach_in ids (Frame raw) ≢ None }
    ensures six { (ids : List ℕ) (raw : RawFrame) (ident : Ident) → ids ≢ [] → fields_of raw ≡ Some ident →
        ident.kind ≡ Anonymous → ident.number ≡ allocation.number → raw.len ≡ 6 → byte_of raw 0 % 2 ≡ 0 →
        approach_in ids (Frame raw) ≢ None }
    ensures listed { (ids : List ℕ) (raw : RawFrame) (ident : Ident) → fields_of raw ≡ Some ident →
        is_anonymous ident.kind ≡ false → is_on_list ids ident.source ≡ true → approach_in ids (Frame raw) ≡ None }
    ensures untold { (item : Received) → approach_in [] item ≡ None }
{}

/// Along all that comes and is read, more places than the limit at first, or than were taken then, are taken only by
/// one newcomer each ten minutes, and by entries that came into the log otherwise.
pub fn places_go_slowly()
    ensures first { (now : ℕ) → (standing_at now).limit ≡ 100 }
    ensures places { (first last now : ℕ) (standing : Standing) (happenings : List Occurrence) →
        standing.is_read ≡ true → HappenUntil first last happenings → last ≤ now → standing.since ≤ first →
        (rises : ℕ) × (standing.since + rises * 600000 ≤ last) ×
        (places_taken now (standing_behind standing happenings) ≤
        max standing.limit (places_taken first standing) + found_in_all standing happenings + rises) }
{}

/// What was let in and came into the log is counted once: a log that has so many entries more as requests were whole
/// since it was read takes no place more, nor does one that has the entry of a node that was counted.
pub fn what_was_let_in_is_counted_once()
    ensures asked { (now : ℕ) (standing : Standing) (added : List Entry) → length added ≤ standing.asked →
        found_more (IsReadThen now (standing.log ++ added)) standing ≡ 0 }
    ensures heard { (now : ℕ) (standing : Standing) (entry : Entry) → entry.node < length standing.heard →
        entry.node < node_ids → without_logged standing.log standing.heard ≡ standing.heard →
        is_lately now (slice_index_or standing.heard entry.node None) ≡ true →
        found_more (IsReadThen now (standing.log ++ entry ∷ [])) standing ≡ 0 }
{}

/// While there is room nobody is turned away, but for a device while a node is turned away, or while the log cannot be
/// read.
pub fn who_has_room_is_let_in()
    ensures shows { (now node : ℕ) (standing : Standing) → places_taken now standing < standing.limit →
        (rule_show now node standing).is_let_in ≡ true }
    ensures asks { (now : ℕ) (part : Part) (standing : Standing) → standing.is_read ≡ true →
        places_taken now standing < standing.limit → is_lately now standing.turned_away ≡ false →
        (rule_ask now part standing).is_let_in ≡ true }
{}

/// Where as many places are taken as the limit says, less than ten minutes after it was set or rose, few are let in: a
/// request only as a part of a unique ID of the log, and a node only where it stands in the log, is counted, or the log
/// cannot be read.
pub fn who_has_no_room_waits()
    ensures asks { (now : ℕ) (part : Part) (standing : Standing) → standing.limit ≤ places_taken now standing →
        now < standing.since + 600000 → (rule_ask now part standing).is_let_in ≡ true →
        IsKnownPart now part standing }
    ensures shows { (now node : ℕ) (standing : Standing) → standing.limit ≤ places_taken now standing →
        now < standing.since + 600000 → (rule_show now node standing).is_let_in ≡ true →
        (is_logged node standing ≡ true) ⊎ ((standing.is_read ≡ false) ⊎
        (is_lately now (slice_index_or standing.heard node None) ≡ true)) }
    ensures logged { (node : ℕ) (standing : Standing) → is_logged node standing ≡ true →
        (standing.is_read ≡ true) × ((entry : Entry) × Contains standing.log entry × (entry.node ≡ node)) }
{}

/// Who is let in takes a place: a request with a last part that is of no unique ID of the log, and a node that neither
/// stands in the log nor is counted.
pub fn who_is_let_in_takes_a_place()
    ensures asks { (now : ℕ) (bytes : List ℕ) (standing : Standing) → standing.asked < 255 →
        (rule_ask now (Third bytes) standing).is_let_in ≡ true →
        IsKnownPart now (Third bytes) standing ⊎
        (places_taken now (rule_ask now (Third bytes) standing).behind ≡ places_taken now standing + 1) }
    ensures shows { (now node : ℕ) (standing : Standing) → node < length standing.heard → standing.is_read ≡ true →
        (rule_show now node standing).is_let_in ≡ true →
        (is_logged node standing ≡ true) ⊎ ((is_lately now (slice_index_or standing.heard node None) ≡ true) ⊎
        (places_taken now (rule_show now node standing).behind ≡ places_taken now standing + 1)) }
    // A node counts for 4,000 ms, from the reading at which it showed itself.
    ensures lately { (now last : ℕ) → (is_lately now (Some last) ≡ true) ↔ (now ≤ last + 4000) }
{}

/// What a request told that was let in counts for 1,600 ms. Parts go on from it only where it was of a unique ID of the
/// log, with all that was told since a pause, and then all of that counts.
pub fn what_was_told_counts()
    ensures { (now later : ℕ) (part : Part) (standing : Standing) (told : Partial) →
        (rule_ask now part standing).is_let_in ≡ true → later < now + 1600 →
        told_since later (rule_ask now part standing).behind.requests ≡ Some told →
        (known : IsKnownPart now part standing) × (told ≡ with_part known.told part) }
{}

/// Three parts of 6, 6 and 4 bytes that fit a unique ID of 16 are all of it.
pub fn three_parts_are_a_unique_id()
    ensures { (uid first second third : List ℕ) → length uid ≡ 16 → length first ≡ 6 → length second ≡ 6 →
        length third ≡ 4 → has_all_told uid (with_part (with_part (with_part untold_yet (First first)) (Second second))
        (Third third)) ≡ true → uid ≡ first ++ second ++ third }
{}

/// A node of the log is never turned away. Nor is a device of the log, where nobody else asks between its requests:
/// each of its parts is let in behind a pause, or behind other parts of its unique ID, and those are known then.
pub fn who_is_logged_is_let_in()
    ensures shows { (now node : ℕ) (standing : Standing) → is_logged node standing ≡ true →
        ((rule_show now node standing).is_let_in ≡ true) × ((rule_show now node standing).behind ≡ standing) }
    ensures asks { (now : ℕ) (part : Part) (standing : Standing) (entry : Entry) (told : Partial) →
        standing.is_read ≡ true → Contains standing.log entry → entry.uid ≢ zeros → has_part entry.uid part ≡ true →
        told_since now standing.requests ≡ Some told → has_all_told entry.uid told ≡ true →
        (rule_ask now part standing).is_let_in ≡ true }
    ensures goes_on { (now later : ℕ) (part : Part) (standing : Standing) (entry : Entry) (told : Partial) →
        standing.is_read ≡ true → Contains standing.log entry → entry.uid ≢ zeros → has_part entry.uid part ≡ true →
        told_since now standing.requests ≡ Some told → has_all_told entry.uid told ≡ true →
        (told : Partial) × (told_since later (rule_ask now part standing).behind.requests ≡ Some told)
        × (has_all_told entry.uid told ≡ true) }
    ensures pause { (now : ℕ) (standing : Standing) →
        IfSome standing.requests (λ requests. requests.last + 1600 ≤ now) →
        told_since now standing.requests ≡ Some untold_yet }
    // A member forgets parts after its timeout, behind a turn of 1,000 ms at the longest.
    ensures forgotten { stage_timeout + 1000 < between_exchanges }
    ensures no_pause { (now last : ℕ) (told : Option Partial) → now < last + 1600 →
        told_since now (Some (record { last = last; told = told })) ≡ told }
    ensures nothing_told { (uid : List ℕ) → has_all_told uid untold_yet ≡ true }
{}

/// Behind a NodeStatus that was turned away no new device is let in for 4,000 ms, whatever comes and is read. A request
/// is let in then only as a part of a unique ID of the log, of which all is that requests told since a pause.
pub fn who_is_turned_away_is_given_no_ids()
    ensures { (first now : ℕ) (standing : Standing) (happenings : List Occurrence) (part : Part) →
        standing.turned_away ≡ Some first → HappenUntil first now happenings → now ≤ first + 4000 →
        (rule_ask now part (standing_behind standing happenings)).is_let_in ≡ true →
        IsKnownPart now part (standing_behind standing happenings) }
{}

/// What is turned away changes nothing, but that of a node is remembered.
pub fn who_is_turned_away_takes_nothing()
    ensures shows { (now node : ℕ) (standing : Standing) → (rule_show now node standing).is_let_in ≡ false →
        (rule_show now node standing).behind ≡ record standing { turned_away = Some now } }
    ensures asks { (now : ℕ) (part : Part) (standing : Standing) → (rule_ask now part standing).is_let_in ≡ false →
        (rule_ask now part standing).behind ≡ standing }
    ensures unread { (now node : ℕ) (part : Part) (standing : Standing) → standing.is_read ≡ false →
        ((rule_show now node standing).is_let_in ≡ true) × ((rule_ask now part standing).is_let_in ≡ false) }
{}
