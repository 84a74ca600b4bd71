//! Laws of progress, each the contract of a function that does nothing.

ghost use Rattle.std.specs.Prelude.{◌≡◌, ℕ, List};
ghost use Rattle.dsdl_codec.specs.declared.allocation.Allocation.{Allocation};
ghost use Rattle.transfer_rx.specs.Reassembly.{Arrival, Gives, answer};
ghost use Rattle.transfer_rx.specs.Sessions.{Session};
ghost use Rattle.alloc_spec.specs.Accepted.{setting_for};
ghost use Rattle.service_steps.specs.CatchingUp.{PeersCatchUp, PeersCatchUpInRuns};
ghost use Rattle.service_steps.specs.ComingBack.{CanStillTell, ComesBack, NewPairsCanBeTold};
ghost use Rattle.service_steps.specs.Devices.{HoldsWhatIsGiven, OffersFirst, OffersFollowUps, RequestsAreRequests, WaitsToFollowUp};
ghost use Rattle.service_steps.specs.InTime.{FollowsOn, FramesLeaveFollowers, NoCallIsOld, StandsInTime, StaysFollower, StaysInTouch, WaitsAnew};
ghost use Rattle.service_steps.specs.Leading.{LeadsOnAtFrames, LeadsOnAtTicks};
ghost use Rattle.service_steps.specs.Recording.{RecordsNodes, RecordsSilentNodes};
ghost use Rattle.service_steps.specs.Requests.{IsRequest, delivery_of};
ghost use Rattle.service_steps.specs.Serving.{
  AnswersInThree,
  GivesFollowUps,
  RecordsPairs,
  ServesInThree,
  TellsPairsAtOnce,
};

use alloc_spec_laws::laws::duty_of_a_step;
use can_frame::laws::{frames_read_as_their_pieces, identifiers_both_ways, logs_stay_injective};
use dsdl_codec::laws::allocations_both_ways;
use node_discovery::laws::silence_is_computed;
use raft_model::laws::{law_decisions, law_duty, law_every_run, law_fit};

/// A request of a device is delivered, whatever sessions the receiver has: it needs none of its own.
pub fn requests_are_delivered()
    ensures { (me : ℕ) (sessions : List Session) (arrival : Arrival) (message : Allocation)
        (request : IsRequest arrival message) →
        answer (setting_for me) sessions arrival ≡ Gives (delivery_of arrival request.ident) }
{}

/// A leader whose log is committed gives a follow-up to a request that comes in time, where its queue has
/// room for it, and stays as ready for the next one.
pub fn a_leader_follows_up()
    ensures { GivesFollowUps }
{}

/// A leader whose log has room records the pair of a whole unique ID that is new, where a node ID is free, and each
/// node that is online is known.
pub fn a_leader_records_the_pair()
    ensures { RecordsPairs }
{}

/// Alone, it commits the pair and tells it in the same step.
pub fn who_is_alone_tells_at_once()
    ensures { TellsPairsAtOnce }
{}

/// Three requests of one device that come in time to such a leader are answered by two follow-ups, and put its pair
/// into the log, whatever went out of the queue meanwhile. Alone, with all told before, it answers the third with the
/// pair.
pub fn three_requests_are_served()
    ensures serves { ServesInThree }
    ensures answers { AnswersInThree }
{}

/// A peer whose log differs in any way from the leader's, but in what it committed, has the leader's whole log after
/// at most 255 calls of which the answers come; and then the leader knows so.
pub fn peers_catch_up()
    ensures { PeersCatchUp }
{
    law_decisions();
}

/// So it is at each moment of every run of the Raft model.
pub fn peers_catch_up_in_runs()
    ensures { PeersCatchUpInRuns }
{
    law_every_run();
    law_fit();
    peers_catch_up();
}

/// At each moment of every run of the Raft model, whatever was lost, repeated or late and wherever members
/// stopped: any majority of the members that has room in its logs, and a next term, can come back to a leader whose
/// log is committed, by events that may come one after another.
pub fn a_majority_comes_back()
    ensures { ComesBack }
{
    law_decisions();
    law_duty();
    law_every_run();
    law_fit();
    logs_stay_injective();
}

/// From a leader whose log is committed each pair that it may propose can be committed and told.
pub fn a_leader_can_still_tell()
    ensures { CanStillTell }
{
    law_decisions();
    law_every_run();
    law_fit();
}

/// So the Raft model is never stuck: at each moment of every run, each pair of a unique ID and a node ID that
/// stand in no log of a majority can still be told, where these logs have room for two entries more.
pub fn new_pairs_can_be_told()
    ensures { NewPairsCanBeTold }
{
    law_decisions();
    law_duty();
    law_every_run();
    law_fit();
    logs_stay_injective();
}

/// A device that asks offers its first request when its timer has passed, a follow-up behind each answer to a part of
/// its unique ID, and holds the node ID that an answer to the whole of it gives.
pub fn a_device_goes_on()
    ensures first { OffersFirst }
    ensures waits { WaitsToFollowUp }
    ensures follows_up { OffersFollowUps }
    ensures holds { HoldsWhatIsGiven }
{}

/// What a device offers is one frame, and a request to every allocator that it reaches, at any moment.
pub fn requests_of_devices_are_requests()
    ensures { RequestsAreRequests }
{
    allocations_both_ways();
    frames_read_as_their_pieces();
    identifiers_both_ways();
}

/// Whoever knows all members and heard no leader for the longest wait stands for election at its next tick, where there
/// is a next term. When a step of a leader is over, each peer of its list has a call pending, or there is nothing new
/// for the peer and it was called within the heartbeat interval, or its call found no room in the queue. When any step
/// is over, no pending call is as old as the call timeout. Where a listed leader's append request comes, the wait
/// begins anew; and a follower does not stand before the least wait is over.
pub fn steps_are_in_time()
    ensures stands { StandsInTime }
    ensures in_touch { StaysInTouch }
    ensures calls { NoCallIsOld }
    ensures waits { WaitsAnew }
    ensures follows { StaysFollower }
{
    duty_of_a_step();
}

/// No frame makes a follower anything else. So a follower follows on, whatever frames come, as long as each tick comes
/// before the least wait is over.
pub fn followers_follow_on()
    ensures frames { FramesLeaveFollowers }
    ensures steps { FollowsOn }
{}

/// A leader leads on at each tick, and at each frame that does not complete a message of Raft with a higher term.
pub fn leaders_lead_on()
    ensures ticks { LeadsOnAtTicks }
    ensures frames { LeadsOnAtFrames }
{}

/// At each tick a leader whose log has room puts into it a node that it does not know, and that told its unique ID or
/// is silent: the least such node. So a node that answers nothing is set aside at the first such tick after the fifth
/// query that counts has waited for its answer, or after one tick more for each such node below it.
pub fn a_leader_records_nodes()
    ensures candidates { RecordsNodes }
    ensures silent { RecordsSilentNodes }
{
    silence_is_computed();
}
