ghost use Rattle.std.specs.Prelude.{◌≡◌, ◌↔◌, ◌⊎◌, ◌≤◌, ◌<◌, ◌+◌, ◌++◌, ◌∷◌, ◌==◌, ◌&&◌, [], ℕ, List, IsTrue, true, false, OnOk, IfOk, Ok, Some, length, slice_index_or, take};
ghost use Rattle.std.specs.Result.{result_err};
ghost use Rattle.can_frame.specs.declared.step.Role.TheVariants.{Leader};
ghost use Rattle.can_frame.specs.Log.{log_limit};
ghost use Rattle.raft_log.specs.declared.origin.TheConstants.{LEADER};
ghost use Rattle.raft_log.specs.DurableViews.{durable_state};
ghost use Rattle.raft_log.specs.MayFollow.{MayFollow};
ghost use Rattle.raft_log.specs.Stored.{Stored};
ghost use Rattle.raft_model.specs.Log.{term_at};
ghost use Rattle.raft_model.specs.Moves.Appending.{IsRuled, Verdict, append_puts, is_accepted, matched_after, next_after};
ghost use Rattle.raft_model.specs.Moves.Elections.{is_leader, with_term};
ghost use Rattle.raft_model.specs.Decisions.{verdict_on};
ghost use Rattle.raft_model.specs.Messages.{Answer, Request};
ghost use Rattle.raft_model.specs.Messages as messages;
ghost use Rattle.raft_model.specs.Lists.{at};
ghost use Rattle.raft_model.specs.Moves.Move.{TakeAppendAnswer, TakeAppendRequest};
ghost use Rattle.raft_model.specs.Server.{RaftServer};
ghost use Rattle.raft_core.specs.Appending.{commit_puts, cut_to, write_puts};
ghost use Rattle.raft_core.specs.Handled.{answer_of, append_request_of};
ghost use Rattle.raft_core.specs.StoredPuts.{CallWrites, CallFaultIsSticky, with_origin, store_of};
ghost use Rattle.raft_core.specs.Times.{Times, given_at, is_awaited};

use crate::laws::puts_in_turn;
use crate::raft::Raft;
use can_frame::laws::logs_stay_injective;
use can_frame::sizes::LOG_LIMIT;
use can_frame::{Entry, Role};
use disk_model::Disk;
use dsdl_codec::{AppendAnswer, AppendRequest};
use kv_store::Fault;
use raft_log::laws::a_durable_state_is_kept;
use raft_log::{Durable, may_follow, origin};
use raft_model::laws::law_decisions;

impl Raft {
    ghost use Rattle.raft_core.specs.declared.peer.Peer.{Peer};
    ghost use Rattle.raft_core.specs.Fits.{Fits};
    ghost use Rattle.raft_core.specs.Handled.{MakesMoves, with_blank};
    ghost use Rattle.raft_core.specs.RaftViews.{raft_me, raft_size};
    ghost use Rattle.raft_core.specs.Stands.{StandsFor, role_of};

    /// A leader's append request came from the node `from`. A request of a lower term is refused, and one
    /// of the member's own term while it leads. Any other resets the wait for an election and makes the
    /// member a Follower, even if the rules on the log refuse it then.
    pub fn on_append_request<D: Disk>(
        &mut self,
        d: &mut Durable<D>,
        from: u8,
        req: &AppendRequest,
        now: u64,
    ) -> Result<AppendAnswer, Fault>
        requires fits { Fits self.old (durable_state d.old) }
        ensures moves { (members : List ℕ) (step : ℕ) (server : RaftServer) (times : Times) →
            StandsFor self.old members (durable_state d.old) server times →
            (made_in : ℕ) →
            let request = append_request_of req.now made_in from (raft_me self.old) in
            let verdict = verdict_on server request in
            MakesMoves members (raft_me self.old) step (given_at now)
            (TakeAppendRequest request verdict ∷ []) server times
            d.old d.new self.new (result_err result) ×
            IfOk result (λ answer. (answer.term ≡ (with_term server.store request.term).term) ×
            (answer.success ≡ is_accepted verdict)) }
        ensures fault { CallFaultIsSticky d.old d.new (result_err result) }
        ensures fits { OnOk result (Fits self.new (durable_state d.new)) }
        ensures me { raft_me self.new ≡ raft_me self.old }
        ensures size { raft_size self.new ≡ raft_size self.old }
    {
        puts_in_turn::<D>();
        law_decisions();
        if self.is_outdated(d.term(), req.term) {
            return Ok(AppendAnswer {
                term: d.term(),
                success: false,
            });
        }
        self.raise(d, req.term, now)?;
        self.role = Role::Follower;
        self.since = now;
        let success = accept(d, req)?;
        Ok(AppendAnswer {
            term: req.term,
            success,
        })
    }

    /// An answer to an append request came from the node `from` under a transfer ID. Returns whether it was
    /// taken, which is so if the append call to that node waits under this transfer ID. Else nothing changes.
    ///
    /// Behind the move a blank is added where one is due.
    pub fn on_append_answer<D: Disk>(
        &mut self,
        d: &mut Durable<D>,
        from: u8,
        id: u8,
        ans: &AppendAnswer,
        now: u64,
    ) -> Result<bool, Fault>
        requires most { from ≤ 125 }
        requires fits { Fits self.old (durable_state d.old) }
        ensures refused { (members : List ℕ) (server : RaftServer) (times : Times) →
            StandsFor self.old members (durable_state d.old) server times →
            is_awaited server times from true id ≡ false → (result ≡ Ok false) ×
            (self.new ≡ self.old) × (d.new ≡ d.old) }
        ensures moves { (members : List ℕ) (step : ℕ) (server : RaftServer) (times : Times) →
            StandsFor self.old members (durable_state d.old) server times →
            is_awaited server times from true id ≡ true → (made_in : ℕ) (request : Request) →
            server.memory.pending from ≡ Some request →
            let answer = answer_of made_in from request ans.now.term ans.now.success in
            MakesMoves members (raft_me self.old) step (given_at now)
            (with_blank members (raft_me self.old) step times server (TakeAppendAnswer answer ∷ []))
            server times d.old d.new self.new (result_err result) ×
            IfOk result (λ taken. IsTrue taken) }
        ensures fault { CallFaultIsSticky d.old d.new (result_err result) }
        ensures fits { OnOk result (Fits self.new (durable_state d.new)) }
        ensures me { raft_me self.new ≡ raft_me self.old }
        ensures size { raft_size self.new ≡ raft_size self.old }
    {
        puts_in_turn::<D>();
        let Some(reach) = self.awaited_reach(from, id) else {
            return Ok(false);
        };
        let led = self.role == Role::Leader;
        self.take_append_answer(d, from, reach, ans, now)?;
        self.add_blank_if_due(d, led)?;
        Ok(true)
    }

    /// The answer ends the call to the node, which went up to a place. A term above the member's own makes it a
    /// Follower; in its own term a leader learns what the node has of its log.
    fn take_append_answer<D: Disk>(
        &mut self,
        d: &mut Durable<D>,
        from: u8,
        reach: u8,
        ans: &AppendAnswer,
        now: u64,
    ) -> Result<(), Fault>
        requires most { from ≤ 125 }
        requires reach { self.old.role ≡ Leader → reach ≤ length (durable_state d.old).log }
        requires fits { Fits self.old (durable_state d.old) }
        ensures moves { (members : List ℕ) (step : ℕ) (server : RaftServer) (times : Times) →
            StandsFor self.old members (durable_state d.old) server times →
            (made_in : ℕ) (request : Request) → messages.reach request ≡ reach →
            MakesMoves members self.old.me step (given_at now)
            (TakeAppendAnswer (answer_of made_in from request ans.now.term ans.now.success) ∷ [])
            server times d.old d.new self.new (result_err result) }
        ensures fault { CallFaultIsSticky d.old d.new (result_err result) }
        ensures fits { OnOk result (Fits self.new (durable_state d.new)) }
        ensures me { raft_me self.new ≡ raft_me self.old }
        ensures size { raft_size self.new ≡ raft_size self.old }
    {
        puts_in_turn::<D>();
        a_durable_state_is_kept::<D>();
        self.end_call(from);
        self.raise(d, ans.term, now)?;
        if self.leads(d.term(), ans) {
            self.move_on(from, reach, ans.success);
        }
        Ok(())
    }

    /// Whether the answer is to a leader of this term.
    fn leads(&self, term: u32, ans: &AppendAnswer) -> bool
        ensures leads { (server : RaftServer) (answer : Answer) →
            server.memory.role ≡ role_of self.now.role → server.store.term ≡ term →
            answer.term ≡ ans.now.term →
            result ≡ (is_leader server.memory.role && (answer.term == server.store.term)) }
        ensures leader { result ≡ true → self.now.role ≡ Leader }
    {
        self.role == Role::Leader && ans.term == term
    }

    /// Updates the matched and the next index of a peer from its answer.
    fn move_on(&mut self, from: u8, reach: u8, success: bool)
        requires most { from ≤ 125 }
        requires reach { reach ≤ log_limit }
        requires matched { (none : Peer) → (slice_index_or self.old.peers from none).matched ≤ log_limit }
        ensures stands { (members : List ℕ) (state : Stored) (server : RaftServer) (times : Times) →
            StandsFor self.old members state server times → self.old.role ≡ Leader →
            (answer : Answer) → answer.from ≡ from → answer.success ≡ success →
            messages.reach answer.request ≡ reach →
            StandsFor self.new members state
            (record server {
              memory = record server.memory {
                matched =
                    at server.memory.matched from (matched_after server.memory answer);
                next =
                    at server.memory.next from (next_after server.memory answer);
              };
            }) times }
        ensures fits { (state : Stored) → Fits self.old state → reach ≤ length state.log →
            Fits self.new state }
        ensures me { raft_me self.new ≡ raft_me self.old }
        ensures size { raft_size self.new ≡ raft_size self.old }
    {
        self.peers[from as usize].move_on(reach, success);
    }

    /// Whether a request is refused for its term.
    fn is_outdated(&self, own: u32, term: u32) -> bool
        ensures { IsTrue result ↔ ((term < own) ⊎ ((term ≡ own) × (self.now.role ≡ Leader))) }
    {
        term < own || term == own && self.role == Role::Leader
    }
}

/// Applies the rules on the log to the request, and makes their puts. Returns whether it is accepted.
fn accept<D: Disk>(d: &mut Durable<D>, req: &AppendRequest) -> Result<bool, Fault>
    requires { req.now.term ≡ (durable_state d.old).term }
    ensures puts { (step from to : ℕ) (verdict : Verdict) →
        let request = append_request_of req.now step from to in
        IsRuled (store_of (durable_state d.old)) request verdict →
        CallWrites (with_origin LEADER (append_puts (store_of (durable_state d.old)) request verdict))
        d.old d.new (result_err result) ×
        IfOk result (λ success. success ≡ is_accepted verdict) }
    ensures fault { CallFaultIsSticky d.old d.new (result_err result) }
    ensures commit { OnOk result ((durable_state d.old).commit ≤ (durable_state d.new).commit) }
{
    puts_in_turn::<D>();
    if !has_previous(d, req) {
        return Ok(false);
    }
    match req.entry {
        Some(entry) => take_entry(d, req, entry),
        None => hold(d, req.commit.min(req.prev_index)),
    }
}

/// Takes the entry of a request whose previous entry is in the log. Returns whether it is accepted.
fn take_entry<D: Disk>(d: &mut Durable<D>, req: &AppendRequest, entry: Entry) -> Result<bool, Fault>
    requires term { req.now.term ≡ (durable_state d.old).term }
    requires entry { req.now.entry ≡ Some entry }
    requires previous { req.now.prev_index ≤ length (durable_state d.old).log }
    requires previous_term { term_at (durable_state d.old).log req.now.prev_index
        ≡ req.now.prev_term }
    ensures puts { (step from to : ℕ) (verdict : Verdict) →
        let request = append_request_of req.now step from to in
        IsRuled (store_of (durable_state d.old)) request verdict →
        CallWrites (with_origin LEADER (append_puts (store_of (durable_state d.old)) request verdict))
        d.old d.new (result_err result) ×
        IfOk result (λ success. success ≡ is_accepted verdict) }
    ensures fault { CallFaultIsSticky d.old d.new (result_err result) }
    ensures commit { OnOk result ((durable_state d.old).commit ≤ (durable_state d.new).commit) }
{
    puts_in_turn::<D>();
    a_durable_state_is_kept::<D>();
    logs_stay_injective();
    let previous = req.prev_index;
    if is_there(d, previous, entry.term) {
        return hold(d, req.commit.min(previous + 1));
    }
    if !may_add(d, previous, &entry) {
        return Ok(false);
    }
    write(d, previous, entry)?;
    hold(d, req.commit.min(previous + 1))
}

/// Whether the log has the previous entry of the request.
fn has_previous<D: Disk>(d: &Durable<D>, req: &AppendRequest) -> bool
    ensures { IsTrue result ↔ ((req.now.prev_index ≤ length (durable_state d.now).log) ×
        (term_at (durable_state d.now).log req.now.prev_index ≡ req.now.prev_term)) }
{
    req.prev_index <= d.last() && d.entry(req.prev_index).term == req.prev_term
}

/// The log has an entry of this term after the previous place.
fn is_there<D: Disk>(d: &Durable<D>, previous: u8, term: u32) -> bool
    ensures { IsTrue result ↔ ((previous < length (durable_state d.now).log) ×
        (term_at (durable_state d.now).log (previous + 1) ≡ term)) }
{
    previous < d.last() && d.entry(previous + 1).term == term
}

/// Whether the log may be cut after the previous place and the entry appended.
fn may_add<D: Disk>(d: &Durable<D>, previous: u8, entry: &Entry) -> bool
    requires { previous ≤ length (durable_state d.now).log }
    ensures { IsTrue result ↔ ((previous < log_limit) × ((durable_state d.now).commit ≤ previous) ×
        MayFollow (take previous (durable_state d.now).log) (durable_state d.now).term entry.now) }
{
    (previous as usize) < LOG_LIMIT
        && d.commit() <= previous
        && may_follow(&d.log()[..previous as usize], d.term(), entry)
}

/// The log is accepted as it is: what the request commits of it is committed. Answers true.
fn hold<D: Disk>(d: &mut Durable<D>, place: u8) -> Result<bool, Fault>
    requires { place ≤ length (durable_state d.old).log }
    ensures puts { CallWrites (with_origin LEADER (commit_puts (store_of (durable_state d.old)) place))
        d.old d.new (result_err result) }
    ensures commit { OnOk result ((durable_state d.old).commit ≤ (durable_state d.new).commit) }
    ensures accepted { IfOk result (λ success. IsTrue success) }
{
    puts_in_turn::<D>();
    if d.commit() < place {
        d.set_commit(place)?;
    }
    Ok(true)
}

/// The log is cut after the previous place, and the entry written there, as one that a leader sent.
fn write<D: Disk>(d: &mut Durable<D>, previous: u8, entry: Entry) -> Result<(), Fault>
    requires inside { previous ≤ length (durable_state d.old).log }
    requires room { previous < log_limit }
    requires kept { (durable_state d.old).commit ≤ previous }
    requires follows { MayFollow (take previous (durable_state d.old).log)
        (durable_state d.old).term entry }
    ensures puts { CallWrites
        (with_origin LEADER (write_puts (store_of (durable_state d.old)) previous entry))
        d.old d.new (result_err result) }
    ensures log { OnOk result ((durable_state d.new).log
        ≡ take previous (durable_state d.old).log ++ (entry ∷ [])) }
    ensures commit { OnOk result ((durable_state d.new).commit ≡ (durable_state d.old).commit) }
{
    puts_in_turn::<D>();
    cut(d, previous)?;
    d.append(entry, origin::LEADER)
}

/// The log is cut after the previous place, where it is longer.
fn cut<D: Disk>(d: &mut Durable<D>, previous: u8) -> Result<(), Fault>
    requires inside { previous ≤ length (durable_state d.old).log }
    requires kept { (durable_state d.old).commit ≤ previous }
    ensures puts { CallWrites (with_origin LEADER (cut_to (store_of (durable_state d.old)) previous))
        d.old d.new (result_err result) }
    ensures state { OnOk result (durable_state d.new
        ≡ record (durable_state d.old) {
          log = take previous (durable_state d.old).log;
          origins = take previous (durable_state d.old).origins;
        }) }
{
    puts_in_turn::<D>();
    if previous < d.last() {
        d.truncate(previous)?;
    }
    Ok(())
}
