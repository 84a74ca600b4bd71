ghost use Rattle.std.specs.Prelude.{◌≡◌, ◌≢◌, ◌≤◌, ◌<◌, ◌∷◌, [], ℕ, List, true, false, Option, Some, None, IsNone, IfSome, length, ◌+◌};
ghost use Rattle.can_frame.specs.Log.{log_limit};
ghost use Rattle.can_frame.specs.Sizes.{node_ids};
ghost use Rattle.raft_log.specs.DurableViews.{durable_state};
ghost use Rattle.raft_log.specs.Stored.{Stored};
ghost use Rattle.raft_core.specs.Requests.{append_call, vote_call};
ghost use Rattle.raft_core.specs.Handled.{moves_of_expire};
ghost use Rattle.raft_model.specs.Handlers.{server_after_all};
ghost use Rattle.raft_model.specs.Lists.{In};
ghost use Rattle.raft_model.specs.Messages.{Request, items, reach};
ghost use Rattle.raft_model.specs.Moves.{Move};
ghost use Rattle.raft_model.specs.Moves.Elections.{memory_without_call};
ghost use Rattle.raft_model.specs.Server.{RaftServer};
ghost use Rattle.raft_core.specs.Peers.{WaitSince};
ghost use Rattle.raft_core.specs.Times as clock;
ghost use Rattle.raft_core.specs.Times.{Sending, Times, given_at, given_call, is_awaited, overdue, times_after_all};
ghost use Rattle.can_frame.specs.declared.step.Role.TheVariants.{Leader};

use crate::peer::{Asked, Peer, Waiting};
use crate::raft::Raft;
use can_frame::Role;
use can_frame::sizes::NODE_IDS;
use can_frame::timing::CALL_TIMEOUT;
use disk_model::Disk;
use dsdl_codec::{AppendRequest, VoteRequest};
use raft_log::Durable;
use raft_log::laws::a_durable_state_is_kept;

/// A request to a peer.
#[derive(Clone, Copy, Debug, PartialEq, Eq)]
pub enum Call {
    Vote(VoteRequest),
    Append(AppendRequest),
}

/// A call that waits for its answer.
#[derive(Clone, Copy, Debug, PartialEq, Eq)]
pub struct Pending {
    /// 31 for a vote request, 30 for an append request
    /// (`uavcan.protocol.dynamic_node_id.server.RequestVote`, `AppendEntries`).
    pub service: u8,

    /// The transfer ID of the request, and of its answer.
    pub id: u8,

    /// The step that made the call.
    pub step: u64,

    /// When it was made, in milliseconds.
    pub sent: u64,
}

impl Raft {
    ghost use Rattle.raft_core.specs.Calls.{IsPending, IsWritable, Owes, OwesNone, owed};
    ghost use Rattle.raft_core.specs.Fits.{Fits};
    ghost use Rattle.raft_core.specs.RaftViews.{raft_me, raft_size};
    ghost use Rattle.raft_core.specs.Stands.{StandsFor};

    /// Calls that were made 1,000 ms ago, or earlier, are given up.
    pub fn expire(&mut self, now: u64)
        ensures moves { (members : List ℕ) (step : ℕ) (state : Stored)
            (server : RaftServer) (times : Times) →
            StandsFor self.old members state server times →
            (nodes : List ℕ) → ((node : ℕ) → node < node_ids → server.memory.pending node ≢ None →
            In node nodes) → let moves = moves_of_expire (overdue times now nodes) in
            StandsFor self.new members state
            (server_after_all members (raft_me self.old) step server moves)
            (times_after_all members (raft_me self.old) step (given_at now) server moves times) }
        ensures fits { (state : Stored) → Fits self.old state → Fits self.new state }
        ensures me { raft_me self.new ≡ raft_me self.old }
        ensures size { raft_size self.new ≡ raft_size self.old }
    {
        if now.saturating_sub(self.calls_since) < CALL_TIMEOUT {
            return;
        }
        for peer in &mut self.peers {
            peer.expire(now);
        }
        self.calls_since = first_call(&self.peers);
    }

    /// The call that is owed to a peer. A candidate asks each peer for its vote until it answers. A leader
    /// sends the next entry, where there is one; and where there is none, it says each heartbeat interval
    /// that it leads. None is owed while a call to the peer is pending.
    pub fn call<D: Disk>(&self, d: &Durable<D>, peer: u8, now: u64) -> Option<Call>
        requires most { peer ≤ 125 }
        requires fits { Fits self.now (durable_state d.now) }
        ensures some { IfSome result (λ call. Owes self.now (durable_state d.now) peer now call) }
        ensures none { IsNone result → OwesNone self.now (durable_state d.now) peer now }
        ensures writable { IfSome result IsWritable }
    {
        a_durable_state_is_kept::<D>();
        let kept = &self.peers[peer as usize];
        if kept.call.is_some() {
            return None;
        }
        match self.role {
            Role::Follower => None,
            Role::Candidate if kept.answered => None,
            Role::Candidate => Some(Call::Vote(vote_request(d))),
            Role::Leader if kept.next > d.last() && !kept.is_silent(now) => None,
            Role::Leader => Some(Call::Append(append_request(d, kept.next))),
        }
    }

    /// The call that was owed was made in a step, under a transfer ID.
    pub fn called<D: Disk>(
        &mut self,
        d: &Durable<D>,
        peer: u8,
        what: &Call,
        id: u8,
        step: u64,
        now: u64,
    )
        requires most { peer ≤ 125 }
        requires fits { Fits self.old (durable_state d.now) }
        requires owed { Owes self.old (durable_state d.now) peer now what.now }
        ensures moves { (members : List ℕ) (server : RaftServer) (times : Times) →
            StandsFor self.old members (durable_state d.now) server times →
            (move : Move) → owed server times peer now ≡ Some move →
            StandsFor self.new members (durable_state d.now)
            (server_after_all members (raft_me self.old) step server (move ∷ []))
            (times_after_all members (raft_me self.old) step
            (given_call now id) server (move ∷ []) times) }
        ensures fits { Fits self.new (durable_state d.now) }
        ensures me { raft_me self.new ≡ raft_me self.old }
        ensures size { raft_size self.new ≡ raft_size self.old }
    {
        a_durable_state_is_kept::<D>();
        self.calls_since = self.calls_since.min(now);
        let kept = &mut self.peers[peer as usize];
        let asked = match what {
            Call::Vote(_) => Asked::Vote,
            Call::Append(request) => {
                kept.appended = Some(now);
                Asked::Append(last_place(request))
            }
        };
        kept.call = Some(Waiting {
            asked,
            id,
            step,
            sent: now,
        });
    }

    /// The call to a peer that waits for its answer.
    pub fn pending(&self, peer: u8) -> Option<Pending>
        requires { peer ≤ 125 }
        ensures some { IfSome result (λ pending. (members : List ℕ) (state : Stored)
            (server : RaftServer) (times : Times) →
            StandsFor self.now members state server times →
            (request : Request) × (sending : Sending) ×
            (server.memory.pending peer ≡ Some request) × (times.sending peer ≡ Some sending) ×
            IsPending pending request sending) }
        ensures none { IsNone result →
            (members : List ℕ) (state : Stored) (server : RaftServer) (times : Times) →
            StandsFor self.now members state server times → server.memory.pending peer ≡ None }
    {
        let call = self.peers[peer as usize].call?;
        Some(Pending {
            service: match call.asked {
                Asked::Vote => 31,
                Asked::Append(_) => 30,
            },
            id: call.id,
            step: call.step,
            sent: call.sent,
        })
    }

    /// Whether the call to a node that waits under a transfer ID asks for its vote.
    pub(crate) fn awaits_vote(&self, from: u8, id: u8) -> bool
        requires { from ≤ 125 }
        ensures { (members : List ℕ) (state : Stored) (server : RaftServer) (times : Times) →
            StandsFor self.now members state server times →
            result ≡ is_awaited server times from false id }
    {
        matches!(self.peers[from as usize].asked_under(id), Some(Asked::Vote))
    }

    /// The place up to which the append call to a node goes that waits under a transfer ID.
    pub(crate) fn awaited_reach(&self, from: u8, id: u8) -> Option<u8>
        requires { from ≤ 125 }
        ensures some { IfSome result (λ place. (members : List ℕ) (state : Stored)
            (server : RaftServer) (times : Times) →
            StandsFor self.now members state server times →
            (is_awaited server times from true id ≡ true) × ((request : Request) →
            server.memory.pending from ≡ Some request → reach request ≡ place)) }
        ensures none { IsNone result →
            (members : List ℕ) (state : Stored) (server : RaftServer) (times : Times) →
            StandsFor self.now members state server times →
            is_awaited server times from true id ≡ false }
        ensures within { IfSome result (λ place. (state : Stored) → Fits self.now state →
            self.now.role ≡ Leader → place ≤ length state.log) }
    {
        match self.peers[from as usize].asked_under(id) {
            Some(Asked::Append(place)) => Some(place),
            _ => None,
        }
    }

    /// The call to a node waits no more.
    pub(crate) fn end_call(&mut self, from: u8)
        requires { from ≤ 125 }
        ensures stands { (members : List ℕ) (state : Stored) (server : RaftServer) (times : Times) →
            StandsFor self.old members state server times →
            StandsFor self.new members state (record server { memory = memory_without_call server.memory from })
            (clock.end_call from times) }
        ensures fits { (state : Stored) → Fits self.old state → Fits self.new state }
        ensures me { raft_me self.new ≡ raft_me self.old }
        ensures size { raft_size self.new ≡ raft_size self.old }
        ensures role { self.new.role ≡ self.old.role }
    {
        self.peers[from as usize].call = None;
    }
}

/// When the first of the calls that wait was made; the last moment there is where none waits.
fn first_call(peers: &[Peer; NODE_IDS]) -> u64
    ensures { WaitSince result peers.now }
{
    let mut first = u64::MAX;
    for peer in peers {
        first = peer.since(first);
    }
    first
}

fn vote_request<D: Disk>(d: &Durable<D>) -> VoteRequest
    ensures { result ≡ vote_call (durable_state d.now) }
{
    VoteRequest {
        term: d.term(),
        last_term: d.entry(d.last()).term,
        last_index: d.last(),
    }
}

/// The append request with the entry at a place, where there is one.
fn append_request<D: Disk>(d: &Durable<D>, next: u8) -> AppendRequest
    requires least { 1 ≤ next }
    requires most { next ≤ length (durable_state d.now).log + 1 }
    ensures { result ≡ append_call (durable_state d.now) next }
{
    AppendRequest {
        term: d.term(),
        prev_term: d.entry(next - 1).term,
        prev_index: next - 1,
        commit: d.commit(),
        entry: if next <= d.last() {
            Some(d.entry(next))
        } else {
            None
        },
    }
}

/// The last place that an append request speaks of.
fn last_place(request: &AppendRequest) -> u8
    requires { request.now.prev_index ≤ log_limit }
    ensures { result ≡ request.now.prev_index + items request.now.entry }
{
    match request.entry {
        Some(_) => request.prev_index + 1,
        None => request.prev_index,
    }
}
