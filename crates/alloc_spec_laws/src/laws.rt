//! Laws of a step that ends, each the contract of a function that does nothing.

ghost use Rattle.std.specs.Prelude.{Some, false, ◌≡◌, ◌≢◌, ◌⊎◌, ◌<◌, ◌≤◌, ℕ, true, List, length, max};
ghost use Rattle.can_frame.specs.Log.{IsBlank};
ghost use Rattle.can_frame.specs.declared.entry.Entry.{Entry};
ghost use Rattle.can_frame.specs.declared.step.What.TheVariants.{Disc};
ghost use Rattle.can_frame.specs.Sizes.{most_members};
ghost use Rattle.cluster_discovery.specs.Members.{is_due};
ghost use Rattle.dsdl_codec.specs.Discovery.{discovery_bytes, discovery_of};
ghost use Rattle.dsdl_codec.specs.declared.discovery.Discovery.{Discovery};
ghost use Rattle.raft_core.specs.Times.{has_waited};
ghost use Rattle.raft_model.specs.Duty.{CommitDuty, TickDuty, WinDuty};
ghost use Rattle.raft_model.specs.Lists.{In};
ghost use Rattle.raft_model.specs.Messages.{Message};
ghost use Rattle.raft_model.specs.Moves.Elections.{term_limit};
ghost use Rattle.raft_model.specs.Moves.Move.{ProposeEntry};
ghost use Rattle.raft_model.specs.Server.{Store, committed};
ghost use Rattle.raft_model.specs.Server.Role.{Leader};
ghost use Rattle.raft_model.specs.Stops.{LocalState};
ghost use Rattle.alloc_spec_laws.specs.Apart.{AreAllApart, OneByName};
ghost use Rattle.alloc_spec_laws.specs.Blanks.{AddsBlank};
ghost use Rattle.alloc_spec_laws.specs.Calls.{CallsAreMade, KeepsCalls};
ghost use Rattle.alloc_spec_laws.specs.Coming.{Begins, IsOfTheMachine, KeepsOrder, WhereItMayStep};
ghost use Rattle.alloc_spec_laws.specs.Giving.{Gives, IsGivenIn};
ghost use Rattle.alloc_spec_laws.specs.LawsBelow.{Laws};
ghost use Rattle.alloc_spec_laws.specs.Listing.{IsNamed};
ghost use Rattle.alloc_spec_laws.specs.Phases.{InEveryStep, TellsDuly, when_committed, when_seen, when_told};
ghost use Rattle.alloc_spec_laws.specs.Proposals.{HasUids, RecordsUids};
ghost use Rattle.alloc_spec_laws.specs.Responses.{ResponsesAnswer};
ghost use Rattle.alloc_spec_laws.specs.Saying.{IsSaid};
ghost use Rattle.alloc_spec_laws.specs.Sound.{FromSound, IsInRange, IsSound};
ghost use Rattle.alloc_spec.specs.Ending.{call_phase};
ghost use Rattle.alloc_spec.specs.StepState.{pairs};
ghost use Rattle.alloc_spec.specs.Step.{Event, after_pop, step};
ghost use Rattle.alloc_spec.specs.Step.Event.{Tick};
ghost use Rattle.alloc_spec.specs.Tick.{discovery_of as own_discovery};
ghost use Rattle.alloc_spec.specs.AllocatorState.{AllocatorState, knows_all, members_of, start_of};
ghost use Rattle.alloc_spec.specs.Rules.{IsToldAll, Rules, opening_by, tells};
ghost use Rattle.alloc_spec.specs.Transfers.{GivenPair, Offer};

use can_frame::laws::{identifiers_both_ways, logs_stay_injective};
use cluster_discovery::laws::{a_complete_list_stays, members_stay, new_members_were_named};
use id_selector::laws::chosen_is_the_choice;
use raft_core::laws::noted_puts_are_the_puts;
use raft_model::laws::{law_decisions, law_duty, law_fit, law_handlers, law_joined, law_members};
use transfer_rx::laws::deliveries_are_whole_transfers;

/// The transfers of a step are told apart by their kind, their destination and their transfer ID:
/// two that fitted, of one kind and to one node, are Allocations with different transfer IDs; so
/// there is one of each name. They are at most eight.
pub fn transfers_of_a_step_are_apart()
    ensures apart { InEveryStep (λ step_state. AreAllApart step_state.offers) }
    ensures one { InEveryStep (λ step_state. OneByName step_state.offers) }
    ensures few { (t : AllocatorState) (number : ℕ) (event : Event) → t.size ≤ most_members →
        length (step t number event).step_state.offers ≤ 8 }
{}

/// A server that opens is sound, each step keeps it sound, and so does handing out a frame. The
/// transfers of a sound server have transfer IDs below 32, and a node as their destination, or 0
/// for messages. Its own node ID, the size of its cluster and which queries count never change.
pub fn steps_stay_in_range()
    ensures opening { (me : ℕ) (rules : Rules) (store : Store) (now word : ℕ) → rules.size ≤ most_members →
        IsSound (opening_by me rules store now word) }
    ensures step { FromSound (λ step_state. IsSound step_state.allocator) }
    ensures popped { (t : AllocatorState) → IsSound t → IsSound (after_pop t) }
    ensures transfers { FromSound (λ step_state. (offer : Offer) → In offer step_state.offers →
        IsInRange offer) }
    ensures me { (t : AllocatorState) (number : ℕ) (event : Event) →
        (step t number event).step_state.allocator.me ≡ t.me }
    ensures size { (t : AllocatorState) (number : ℕ) (event : Event) →
        (step t number event).step_state.allocator.size ≡ t.size }
    ensures counting { (t : AllocatorState) (number : ℕ) (event : Event) →
        (step t number event).step_state.allocator.counting ≡ t.counting }
{
    identifiers_both_ways();
    deliveries_are_whole_transfers();
}

/// Requests and answers of Raft are said by their bytes: each transfer of a step that carries one
/// is made by this member in this step, goes to the node that the request is for or that asked, and
/// has its bytes; a response names the step of the request that it answers. No other transfer says
/// any, and what an Allocation says is read from its payload.
pub fn what_transfers_say()
    ensures { (t : AllocatorState) (number : ℕ) (event : Event) (offer : Offer) →
        In offer (step t number event).step_state.offers →
        IsSaid number t.me offer.what offer.to offer.re offer.payload offer.says }
{}

/// A response answers the request of its service that the step was delivered: it goes to the node
/// that made the request, under the request's transfer ID, and names the step that made it. One of
/// Raft is for a node on the list of members, and what it says answers the very request that the
/// delivered bytes are.
pub fn responses_answer_what_was_delivered()
    ensures { (t : AllocatorState) (number : ℕ) (event : Event) → ResponsesAnswer t number event }
{
    deliveries_are_whole_transfers();
}

/// With each pending call its transfer ID and its moment are kept, and with nothing else. A call
/// that is pending after a step was pending before it, with the same of both; or the step made it,
/// by offering this very request to the peer in a transfer that fitted, and keeps the ID of that
/// transfer with its own moment.
pub fn calls_of_a_step()
    ensures made { (t : AllocatorState) (number : ℕ) (event : Event) →
        CallsAreMade number t (step t number event).step_state }
    ensures kept { (t : AllocatorState) (number : ℕ) (event : Event) → KeepsCalls t →
        KeepsCalls (step t number event).step_state.allocator }
    ensures opening { (me : ℕ) (rules : Rules) (store : Store) (now word : ℕ) →
        KeepsCalls (opening_by me rules store now word) }
    ensures popped { (t : AllocatorState) → KeepsCalls t → KeepsCalls (after_pop t) }
{}

/// A step is one of the Raft model, where what is delivered to it was said by a member: its
/// moves may come, one after another; its puts, but for their origins, are theirs, in order; they
/// leave its server; and the requests, answers and pairs of the transfers that fitted are offered
/// by them. Each entry that they propose is a blank, or has a node ID that no member has. What of this the
/// next step asks for, each step keeps.
pub fn moves_of_a_step()
    ensures moves { WhereItMayStep (λ members bag t number event. (local_state : LocalState) →
        Begins t local_state → IsOfTheMachine members t.me number bag local_state (step t number event).step_state) }
    ensures keeps { WhereItMayStep (λ members bag t number event.
        KeepsOrder (step t number event).step_state.allocator) }
    ensures opening { (me : ℕ) (rules : Rules) (store : Store) (now word : ℕ) →
        KeepsOrder (opening_by me rules store now word) }
    ensures popped { (t : AllocatorState) → KeepsOrder t → KeepsOrder (after_pop t) }
{
    laws_below();
}

/// At an opening the list of members has the member itself and whom it is told alone. A member that is told all
/// knows all, and no Discovery of its own is due at any moment. After a step: who is new on the list was named by
/// the Discovery that the step was delivered, who was on it stays, and a list that is complete does not change. A
/// Discovery that a step offers has the size of the cluster and the list as it was before the step.
pub fn members_of_a_step()
    ensures opening { (me : ℕ) (rules : Rules) (store : Store) (now word node : ℕ) →
        In node (members_of (opening_by me rules store now word)) → (node ≡ me) ⊎ In node rules.told }
    ensures all { (me : ℕ) (rules : Rules) (store : Store) (now word : ℕ) → 1 ≤ me → IsToldAll me rules →
        knows_all (opening_by me rules store now word) ≡ true }
    ensures quiet { (me : ℕ) (rules : Rules) (store : Store) (now word moment : ℕ) → 1 ≤ me →
        IsToldAll me rules → let t = opening_by me rules store now word in
        is_due (start_of t) t.heard moment ≡ false }
    ensures named { (t : AllocatorState) (number : ℕ) (event : Event) (node : ℕ) →
        In node (members_of (step t number event).step_state.allocator) →
        In node (members_of t) ⊎ IsNamed t number event node }
    ensures stay { (t : AllocatorState) (number : ℕ) (event : Event) (node : ℕ) →
        In node (members_of t) → In node (members_of (step t number event).step_state.allocator) }
    ensures complete { (t : AllocatorState) (number : ℕ) (event : Event) → knows_all t ≡ true →
        members_of (step t number event).step_state.allocator ≡ members_of t }
    ensures told { (t : AllocatorState) (number : ℕ) (event : Event) (offer : Offer) →
        In offer (step t number event).step_state.offers → offer.what ≡ Disc →
        offer.payload ≡ discovery_bytes (own_discovery t) }
    ensures told_nodes { (t : AllocatorState) (number : ℕ) (event : Event) (offer : Offer)
        (message : Discovery) (node : ℕ) →
        In offer (step t number event).step_state.offers → offer.what ≡ Disc →
        discovery_of offer.payload ≡ Some message →
        In node message.known.items → In node (members_of t) }
{
    a_complete_list_stays();
    members_stay();
    new_members_were_named();
}

/// Each entry that a step records has a unique ID of 16 bytes, where those that nodes told have;
/// and a step takes no other from a node.
pub fn proposals_of_a_step()
    ensures uids { (t : AllocatorState) (number : ℕ) (event : Event) → HasUids t.watch →
        RecordsUids (step t number event).step_state }
    ensures keeps { (t : AllocatorState) (number : ℕ) (event : Event) → HasUids t.watch →
        HasUids (step t number event).step_state.allocator.watch }
    ensures opening { (me : ℕ) (rules : Rules) (store : Store) (now word : ℕ) →
        HasUids (opening_by me rules store now word).watch }
    ensures popped { (t : AllocatorState) → HasUids t.watch → HasUids (after_pop t).watch }
{}

/// Where the commit index lies within the log, it does so after each step; and what the step gives to
/// a device is then that of an entry that is committed when the step is over, and its unique ID is not
/// zeros, so that the entry keeps no node ID back: each Allocation with a node ID that the step offers,
/// with however many bytes of a unique ID, and so each pair of those that fitted.
pub fn pairs_of_a_step()
    ensures offered { (t : AllocatorState) (number : ℕ) (event : Event) →
        t.raft_server.store.commit ≤ length t.raft_server.store.log →
        (offer : Offer) (given : GivenPair) → In offer (step t number event).step_state.offers →
        Gives offer.what offer.payload given →
        let store = (step t number event).step_state.allocator.raft_server.store in
        IsGivenIn (committed store) given }
    ensures committed { (t : AllocatorState) (number : ℕ) (event : Event) →
        t.raft_server.store.commit ≤ length t.raft_server.store.log →
        (given : GivenPair) → In given (pairs (step t number event).step_state) →
        IsGivenIn (committed (step t number event).step_state.allocator.raft_server.store) given }
    ensures inside { (t : AllocatorState) (number : ℕ) (event : Event) →
        t.raft_server.store.commit ≤ length t.raft_server.store.log →
        let store = (step t number event).step_state.allocator.raft_server.store in
        store.commit ≤ length store.log }
{
    law_decisions();
}

/// What a step owes that ends. A leader has committed as far as the members let it, counted over
/// all of them, and tells one place of its log at most, where there is room for its frames. Whoever
/// has waited for an election, knows all members and does not lead, is Candidate or Leader of the
/// next term when the step is over, where there is a next term; and whoever is Candidate then counts no
/// quorum, where that was so before.
pub fn duty_of_a_step()
    ensures phases { (t : AllocatorState) (number : ℕ) (event : Event) →
        (step t number event).step_state ≡ call_phase number (when_told t number event) }
    ensures commit { WhereItMayStep (λ members bag t number event.
        let seen = when_seen t number event in seen.allocator.raft_server.memory.role ≡ Leader →
        CommitDuty members t.me seen.allocator.raft_server (when_committed t number event).allocator.raft_server) }
    ensures tell { (t : AllocatorState) (number : ℕ) (event : Event) →
        TellsDuly number (when_committed t number event) (when_told t number event) }
    ensures tick { (t : AllocatorState) (number now word : ℕ) → knows_all t ≡ true →
        has_waited t.times (max t.now now) ≡ true → t.raft_server.memory.role ≢ Leader →
        t.raft_server.store.term < term_limit →
        TickDuty t.raft_server (step t number (Tick now word)).step_state.allocator.raft_server }
    ensures win { WhereItMayStep (λ members bag t number event. WinDuty members t.raft_server →
        WinDuty members (step t number event).step_state.allocator.raft_server) }
{
    laws_below();
}

/// When a leader's blank comes. A member that is told who its members are waits with it, no other does,
/// and a step changes nothing of that. A blank among the moves of a step stands behind moves after which
/// the server leads, and is of its term. At a member that waits, the last entry of the log is then of an
/// earlier term, and a quorum of the members that it knows, itself included, has matched its whole log.
/// Any other did not lead before the step.
pub fn blanks_wait_to_be_heard()
    ensures opening { (me : ℕ) (rules : Rules) (store : Store) (now word : ℕ) →
        (opening_by me rules store now word).times.waits ≡ tells rules }
    ensures kept { (t : AllocatorState) (number : ℕ) (event : Event) →
        (step t number event).step_state.allocator.times.waits ≡ t.times.waits }
    ensures added { (t : AllocatorState) (number : ℕ) (event : Event) (entry : Entry) →
        In (ProposeEntry entry) (step t number event).step_state.moves → IsBlank entry →
        AddsBlank t number event entry }
{
    chosen_is_the_choice();
}

/// The laws of the crates below that the moves and the duty of a step stand on.
fn laws_below()
    ensures { Laws }
{
    logs_stay_injective();
    chosen_is_the_choice();
    a_complete_list_stays();
    noted_puts_are_the_puts();
    law_decisions();
    law_duty();
    law_fit();
    law_handlers();
    law_joined();
    law_members();
}
