ghost use Rattle.std.specs.Prelude.{◌≡◌, ◌==◌, ◌↔◌, ◌≤◌, ◌∷◌, [], ℕ, List, true, false, IsTrue, OnOk, IfOk, Some, Ok, length, if◌then◌else◌};
ghost use Rattle.std.specs.Result.{result_err};
ghost use Rattle.can_frame.specs.declared.step.Role.TheVariants.{Candidate};
ghost use Rattle.can_frame.specs.Log.{last_term};
ghost use Rattle.raft_log.specs.declared.origin.TheConstants.{LEADER};
ghost use Rattle.raft_log.specs.DurableViews.{durable_state};
ghost use Rattle.raft_log.specs.Stored.{Stored};
ghost use Rattle.raft_model.specs.Decisions.{grants};
ghost use Rattle.raft_model.specs.Messages.{Answer, Request};
ghost use Rattle.raft_model.specs.Lists.{at};
ghost use Rattle.raft_model.specs.Log.{NotAbove};
ghost use Rattle.raft_model.specs.Moves.Elections.{MayGrant, counts, has_quorum, vote_puts, win_memory, with_term};
ghost use Rattle.raft_model.specs.Moves.Move.{TakeVoteRequest, TakeVoteAnswer};
ghost use Rattle.raft_model.specs.Server.{RaftServer};
ghost use Rattle.raft_core.specs.Handled.{answer_of, vote_request_of};
ghost use Rattle.raft_core.specs.StoredPuts.{CallWrites, CallFaultIsSticky, with_origin, store_of};
ghost use Rattle.raft_core.specs.Times as clock;
ghost use Rattle.raft_core.specs.Times.{Times, given_at, is_awaited};

use crate::laws::puts_in_turn;
use crate::raft::{Cause, Raft};
use can_frame::Role;
use disk_model::Disk;
use dsdl_codec::{VoteAnswer, VoteRequest};
use kv_store::Fault;
use raft_log::Durable;
use raft_model::laws::law_decisions;

impl Raft {
    ghost use Rattle.raft_core.specs.Fits.{Fits};
    ghost use Rattle.raft_core.specs.Handled.{MakesMoves, with_blank};
    ghost use Rattle.raft_core.specs.RaftViews.{raft_me, raft_size};
    ghost use Rattle.raft_core.specs.Stands.{StandsFor, role_of};

    /// A candidate's vote request came from the node `from`. The vote is granted in the member's own term
    /// to a candidate whose log is not behind, where it has not voted for another; a grant begins the
    /// wait, also a repeated one.
    pub fn on_vote_request<D: Disk>(
        &mut self,
        d: &mut Durable<D>,
        from: u8,
        req: &VoteRequest,
        now: u64,
    ) -> Result<VoteAnswer, Fault>
        requires least { 1 ≤ from }
        requires most { from ≤ 125 }
        requires fits { Fits self.old (durable_state d.old) }
        ensures moves { (members : List ℕ) (step : ℕ) (server : RaftServer) (times : Times) →
            StandsFor self.old members (durable_state d.old) server times →
            (made_in : ℕ) → let request = vote_request_of req.now made_in from (raft_me self.old) in
            let granted = grants (with_term server.store request.term) request in
            MakesMoves members (raft_me self.old) step (given_at now)
            (TakeVoteRequest request granted ∷ []) server times
            d.old d.new self.new (result_err result) ×
            IfOk result (λ answer. (answer.term ≡ (with_term server.store request.term).term) ×
            (answer.granted ≡ granted)) }
        ensures fault { CallFaultIsSticky d.old d.new (result_err result) }
        ensures fits { OnOk result (Fits self.new (durable_state d.new)) }
        ensures me { raft_me self.new ≡ raft_me self.old }
        ensures size { raft_size self.new ≡ raft_size self.old }
    {
        puts_in_turn::<D>();
        law_decisions();
        self.raise(d, req.term, now)?;
        if !may_grant(d, from, req) {
            return Ok(VoteAnswer {
                term: d.term(),
                granted: false,
            });
        }
        vote(d, from)?;
        self.since = now;
        Ok(VoteAnswer {
            term: d.term(),
            granted: true,
        })
    }

    /// An answer to a vote request came from the node `from` under a transfer ID. Whether it was taken:
    /// where the vote call to that node waits under this transfer ID. Else nothing changes.
    ///
    /// Behind the move a blank is added where one is due.
    pub fn on_vote_answer<D: Disk>(
        &mut self,
        d: &mut Durable<D>,
        from: u8,
        id: u8,
        ans: &VoteAnswer,
        now: u64,
    ) -> Result<bool, Fault>
        requires most { from ≤ 125 }
        requires fits { Fits self.old (durable_state d.old) }
        ensures refused { (members : List ℕ) (server : RaftServer) (times : Times) →
            StandsFor self.old members (durable_state d.old) server times →
            is_awaited server times from false id ≡ false → (result ≡ Ok false) ×
            (self.new ≡ self.old) × (d.new ≡ d.old) }
        ensures moves { (members : List ℕ) (step : ℕ) (server : RaftServer) (times : Times) →
            StandsFor self.old members (durable_state d.old) server times →
            is_awaited server times from false id ≡ true → (made_in : ℕ) (request : Request) →
            server.memory.pending from ≡ Some request →
            let answer = answer_of made_in from request ans.now.term ans.now.granted in
            MakesMoves members (raft_me self.old) step (given_at now)
            (with_blank members (raft_me self.old) step times server (TakeVoteAnswer answer ∷ []))
            server times d.old d.new self.new (result_err result) ×
            IfOk result (λ taken. IsTrue taken) }
        ensures fault { CallFaultIsSticky d.old d.new (result_err result) }
        ensures fits { OnOk result (Fits self.new (durable_state d.new)) }
        ensures me { raft_me self.new ≡ raft_me self.old }
        ensures size { raft_size self.new ≡ raft_size self.old }
    {
        puts_in_turn::<D>();
        if !self.awaits_vote(from, id) {
            return Ok(false);
        }
        let led = self.role == Role::Leader;
        self.take_vote_answer(d, from, ans, now)?;
        self.add_blank_if_due(d, led)?;
        Ok(true)
    }

    /// The answer ends the call to the node. A term above the member's own makes it a Follower; in its own term
    /// a granted vote counts.
    fn take_vote_answer<D: Disk>(
        &mut self,
        d: &mut Durable<D>,
        from: u8,
        ans: &VoteAnswer,
        now: u64,
    ) -> Result<(), Fault>
        requires most { from ≤ 125 }
        requires fits { Fits self.old (durable_state d.old) }
        ensures moves { (members : List ℕ) (step : ℕ) (server : RaftServer) (times : Times) →
            StandsFor self.old members (durable_state d.old) server times →
            (made_in : ℕ) (request : Request) →
            MakesMoves members self.old.me step (given_at now)
            (TakeVoteAnswer (answer_of made_in from request ans.now.term ans.now.granted) ∷ [])
            server times d.old d.new self.new (result_err result) }
        ensures fault { CallFaultIsSticky d.old d.new (result_err result) }
        ensures fits { OnOk result (Fits self.new (durable_state d.new)) }
        ensures me { raft_me self.new ≡ raft_me self.old }
        ensures size { raft_size self.new ≡ raft_size self.old }
    {
        self.end_call(from);
        self.note_answer(from);
        self.raise(d, ans.term, now)?;
        if self.counts(d.term(), ans) {
            self.count_vote(d, from);
        }
        Ok(())
    }

    /// Whether an answer counts: a grant, for a candidate of this term.
    fn counts(&self, term: u32, ans: &VoteAnswer) -> bool
        ensures counts { (server : RaftServer) (answer : Answer) →
            server.memory.role ≡ role_of self.now.role → server.store.term ≡ term →
            answer.term ≡ ans.now.term → answer.success ≡ ans.now.granted →
            result ≡ counts server answer }
        ensures candidate { result ≡ true → self.now.role ≡ Candidate }
    {
        self.role == Role::Candidate && ans.term == term && ans.granted
    }

    /// A node answered the vote request of this term: it is not asked again.
    fn note_answer(&mut self, from: u8)
        requires { from ≤ 125 }
        ensures stands { (members : List ℕ) (state : Stored) (server : RaftServer) (times : Times) →
            StandsFor self.old members state server times →
            StandsFor self.new members state server
            (record times { answered = at times.answered from true }) }
        ensures fits { (state : Stored) → Fits self.old state → Fits self.new state }
        ensures me { raft_me self.new ≡ raft_me self.old }
        ensures size { raft_size self.new ≡ raft_size self.old }
    {
        self.peers[from as usize].answered = true;
    }

    /// The vote of a node counts.
    fn count(&mut self, from: u8)
        requires { from ≤ 125 }
        ensures stands { (members : List ℕ) (state : Stored) (server : RaftServer) (times : Times) →
            StandsFor self.old members state server times →
            StandsFor self.new members state
            (record server {
              memory = record server.memory {
                votes =
                    at server.memory.votes from true;
              };
            }) times }
        ensures fits { (state : Stored) → Fits self.old state → Fits self.new state }
        ensures me { raft_me self.new ≡ raft_me self.old }
        ensures size { raft_size self.new ≡ raft_size self.old }
        ensures role { self.new.role ≡ self.old.role }
    {
        self.peers[from as usize].voted = true;
    }

    /// A candidate counts the vote of a node, and wins with those of a quorum.
    fn count_vote<D: Disk>(&mut self, d: &Durable<D>, from: u8)
        requires most { from ≤ 125 }
        requires role { self.old.role ≡ Candidate }
        requires fits { Fits self.old (durable_state d.now) }
        ensures stands { (members : List ℕ) (server : RaftServer) (times : Times) →
            StandsFor self.old members (durable_state d.now) server times →
            let counted = record server.memory { votes = at server.memory.votes from true } in
            let wins = has_quorum members counted.votes in
            StandsFor self.new members (durable_state d.now)
            (record server { memory = if wins then win_memory server.store counted else counted })
            (if wins then clock.win times else times) }
        ensures fits { Fits self.new (durable_state d.now) }
        ensures me { raft_me self.new ≡ raft_me self.old }
        ensures size { raft_size self.new ≡ raft_size self.old }
    {
        self.count(from);
        if self.has_quorum(Cause::Candidacy) {
            self.win(d);
        }
    }
}

/// Votes for a node, where it has not voted in this term.
fn vote<D: Disk>(d: &mut Durable<D>, node: u8) -> Result<(), Fault>
    requires least { 1 ≤ node }
    requires most { node ≤ 125 }
    ensures puts { CallWrites (with_origin LEADER (vote_puts (store_of (durable_state d.old)).vote node))
        d.old d.new (result_err result) }
    ensures state { OnOk result (durable_state d.new
        ≡ record (durable_state d.old) {
          vote = if (durable_state d.old).vote == 0 then node
              else (durable_state d.old).vote;
        }) }
{
    puts_in_turn::<D>();
    if d.vote() == 0 {
        d.set_vote(node)?;
    }
    Ok(())
}

/// Whether a vote may be granted in the member's term.
fn may_grant<D: Disk>(d: &Durable<D>, from: u8, req: &VoteRequest) -> bool
    requires { 1 ≤ from }
    ensures { (step to : ℕ) → IsTrue result ↔
        MayGrant (store_of (durable_state d.now)) (vote_request_of req.now step from to) }
{
    let free = d.vote() == 0 || d.vote() == from;
    req.term == d.term() && free && is_not_behind(d, req)
}

/// The candidate's log is not behind: its last term is above the member's, or is the same and its last
/// place not below.
fn is_not_behind<D: Disk>(d: &Durable<D>, req: &VoteRequest) -> bool
    ensures { IsTrue result ↔
        NotAbove (last_term (durable_state d.now).log)
        (length (durable_state d.now).log) req.now.last_term req.now.last_index }
{
    let last_term = d.entry(d.last()).term;
    last_term < req.last_term || last_term == req.last_term && d.last() <= req.last_index
}
