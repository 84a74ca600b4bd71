ghost use Rattle.std.specs.Prelude.{◌≡◌, ◌≢◌, ◌≤◌, ◌<◌, ◌+◌, ◌∷◌, [], ℕ, List, ◌&&◌, not, nat_lt, true, OnOk, length, replicate, slice_index_or, slice_set};
ghost use Rattle.std.specs.Result.{result_err};
ghost use Rattle.arrayvec.specs.ArrayVec.{array_vec_len};
ghost use Rattle.can_frame.specs.declared.step.Role.TheVariants.{Follower, Candidate};
ghost use Rattle.can_frame.specs.Sizes.{most_members, node_ids};
ghost use Rattle.raft_log.specs.DurableViews.{durable_state};
ghost use Rattle.raft_model.specs.Moves.Elections.{is_leader, stand_memory, stand_puts, term_limit, win_memory};
ghost use Rattle.raft_model.specs.Moves.Move.{TimeOut};
ghost use Rattle.raft_model.specs.Server.{RaftServer, put_all};
ghost use Rattle.raft_core.specs.Peers.{fresh, voter};
ghost use Rattle.raft_core.specs.StoredPuts.{CallWrites, CallFaultIsSticky, with_origin, store_of};
ghost use Rattle.raft_core.specs.Times as clock;
ghost use Rattle.raft_core.specs.Times.{Times, given_tick};

use crate::laws::puts_in_turn;
use crate::peer::Peer;
use crate::raft::{Cause, Raft};
use arrayvec::ArrayVec;
use can_frame::Role;
use can_frame::sizes::{MOST_MEMBERS, NODE_IDS};
use can_frame::timing::{ELECTION_SPREAD, ELECTION_WAIT};
use disk_model::Disk;
use kv_store::Fault;
use raft_log::Durable;

impl Raft {
    ghost use Rattle.raft_core.specs.Fits.{Fits};
    ghost use Rattle.raft_core.specs.Handled.{MakesMoves, counted_at, moves_of_tick};
    ghost use Rattle.raft_core.specs.RaftViews.{raft_me, raft_size};
    ghost use Rattle.raft_core.specs.Stands.{StandsFor, role_of};

    /// Time has passed. A member that is no leader begins an election where its wait has passed and its
    /// term is not the highest, once it knows all members: `peers` are the others that it knows, and
    /// `complete` says whether they are all. `word` is for the next wait. A member that begins no election
    /// counts the members of its last one, whatever list it is handed.
    ///
    /// Behind the move a blank is added where one is due.
    pub fn tick<D: Disk>(
        &mut self,
        d: &mut Durable<D>,
        peers: &[u8],
        complete: bool,
        now: u64,
        word: u32,
    ) -> Result<(), Fault>
        requires peers { (i : ℕ) → i < length peers.now → slice_index_or peers.now i 0 ≤ 125 }
        requires complete { complete ≡ true → length peers.now + 1 ≡ raft_size self.old }
        requires fits { Fits self.old (durable_state d.old) }
        ensures moves { (members : List ℕ) (step : ℕ) (server : RaftServer) (times : Times) →
            StandsFor self.old members (durable_state d.old) server times →
            let known = raft_me self.old ∷ peers.now in
            let moves = moves_of_tick known (raft_me self.old) step complete now server times in
            MakesMoves (counted_at moves members known) (raft_me self.old) step (given_tick now word)
            moves server times d.old d.new self.new (result_err result) }
        ensures fault { CallFaultIsSticky d.old d.new (result_err result) }
        ensures fits { OnOk result (Fits self.new (durable_state d.new)) }
        ensures me { raft_me self.new ≡ raft_me self.old }
        ensures size { raft_size self.new ≡ raft_size self.old }
    {
        puts_in_turn::<D>();
        if !self.may_stand(complete, d.term(), now) {
            return Ok(());
        }
        self.begin_election(d, peers, now, word)?;
        self.add_blank_if_due(d, false)
    }

    /// Whether the wait for an election has passed, of one that knows all members, is no leader and is
    /// below the highest term.
    fn may_stand(&self, complete: bool, term: u32, now: u64) -> bool
        ensures stands { (server : RaftServer) (times : Times) →
            server.memory.role ≡ role_of self.now.role → server.store.term ≡ term →
            times.since ≡ self.now.since → times.word ≡ self.now.word →
            result ≡ ((complete && clock.has_waited times now)
            && (not (is_leader server.memory.role) && nat_lt server.store.term term_limit)) }
        ensures complete { result ≡ true → complete ≡ true }
        ensures term { result ≡ true → term < 4294967295 }
    {
        let wait = ELECTION_WAIT + u64::from(self.word) % ELECTION_SPREAD;
        complete
            && now.saturating_sub(self.since) >= wait
            && self.role != Role::Leader
            && term < u32::MAX
    }

    /// It stands for election, and wins at once where its own vote is that of a quorum.
    fn begin_election<D: Disk>(
        &mut self,
        d: &mut Durable<D>,
        peers: &[u8],
        now: u64,
        word: u32,
    ) -> Result<(), Fault>
        requires term { (durable_state d.old).term < 4294967295 }
        requires peers { (i : ℕ) → i < length peers.now → slice_index_or peers.now i 0 ≤ 125 }
        requires complete { length peers.now + 1 ≡ self.old.size }
        requires fits { Fits self.old (durable_state d.old) }
        ensures moves { (members : List ℕ) (step : ℕ) (server : RaftServer) (times : Times) →
            StandsFor self.old members (durable_state d.old) server times →
            MakesMoves (self.old.me ∷ peers.now) self.old.me step (given_tick now word)
            (TimeOut ∷ []) server times d.old d.new self.new (result_err result) }
        ensures fault { CallFaultIsSticky d.old d.new (result_err result) }
        ensures fits { OnOk result (Fits self.new (durable_state d.new)) }
        ensures me { raft_me self.new ≡ raft_me self.old }
        ensures size { raft_size self.new ≡ raft_size self.old }
    {
        self.stand(d, peers, now, word)?;
        if self.has_quorum(Cause::Candidacy) {
            self.win(d);
        }
        Ok(())
    }

    /// It is a candidate of the next term, and votes for itself.
    fn stand<D: Disk>(
        &mut self,
        d: &mut Durable<D>,
        peers: &[u8],
        now: u64,
        word: u32,
    ) -> Result<(), Fault>
        requires term { (durable_state d.old).term < 4294967295 }
        requires peers { (i : ℕ) → i < length peers.now → slice_index_or peers.now i 0 ≤ 125 }
        requires complete { length peers.now + 1 ≡ self.old.size }
        requires fits { Fits self.old (durable_state d.old) }
        // These puts have no entry, and so no origin.
        ensures puts { (origin : ℕ) → CallWrites
            (with_origin origin (stand_puts self.old.me (store_of (durable_state d.old))))
            d.old d.new (result_err result) }
        ensures stands { (members : List ℕ) (server : RaftServer) (times : Times) →
            StandsFor self.old members (durable_state d.old) server times →
            OnOk result (StandsFor self.new (self.old.me ∷ peers.now) (durable_state d.new)
            (record {
              store = put_all server.store (stand_puts self.old.me server.store);
              memory = stand_memory self.old.me server.memory;
            })
            (clock.stand (given_tick now word) times)) }
        ensures fits { OnOk result (Fits self.new (durable_state d.new)) }
        ensures role { OnOk result (self.new.role ≡ Candidate) }
        ensures me { raft_me self.new ≡ raft_me self.old }
        ensures size { raft_size self.new ≡ raft_size self.old }
    {
        vote_for_itself(d, self.me)?;
        self.role = Role::Candidate;
        self.since = now;
        self.word = word;
        self.members = all_members(self.me, peers);
        self.peers = peers_of_candidate(self.me);
        Ok(())
    }

    /// A candidate leads from now on. It knows nothing yet of what the others have of its log.
    pub(crate) fn win<D: Disk>(&mut self, d: &Durable<D>)
        requires role { self.old.role ≢ Follower }
        requires fits { Fits self.old (durable_state d.now) }
        ensures stands { (members : List ℕ) (server : RaftServer) (times : Times) →
            StandsFor self.old members (durable_state d.now) server times →
            StandsFor self.new members (durable_state d.now)
            (record server { memory = win_memory server.store server.memory }) (clock.win times) }
        ensures fits { Fits self.new (durable_state d.now) }
        ensures me { raft_me self.new ≡ raft_me self.old }
        ensures size { raft_size self.new ≡ raft_size self.old }
    {
        self.role = Role::Leader;
        self.told = d.commit();
        self.peers = [Peer::new(d.last() + 1); NODE_IDS];
    }
}

/// Takes the next term, and votes for the member itself.
fn vote_for_itself<D: Disk>(d: &mut Durable<D>, me: u8) -> Result<(), Fault>
    requires term { (durable_state d.old).term < 4294967295 }
    requires least { 1 ≤ me }
    requires most { me ≤ 125 }
    // These puts have no entry, and so no origin.
    ensures puts { (origin : ℕ) →
        CallWrites (with_origin origin (stand_puts me (store_of (durable_state d.old))))
        d.old d.new (result_err result) }
    ensures state { OnOk result (durable_state d.new
        ≡ record (durable_state d.old) { term = (durable_state d.old).term + 1; vote = me }) }
{
    puts_in_turn::<D>();
    d.set_term(d.term() + 1)?;
    d.set_vote(me)
}

/// A candidate has its own vote, and knows nothing of the others.
fn peers_of_candidate(me: u8) -> [Peer; NODE_IDS]
    requires { me < node_ids }
    ensures { result ≡ slice_set (replicate node_ids (fresh 1)) me voter }
{
    let mut peers = [Peer::new(1); NODE_IDS];
    peers[me as usize] = Peer::voter();
    peers
}

/// All members: the member itself and its peers.
fn all_members(me: u8, peers: &[u8]) -> ArrayVec<u8, MOST_MEMBERS>
    requires { length peers.now < most_members }
    ensures items { result.items ≡ me ∷ peers.now }
    ensures len { array_vec_len result ≡ length peers.now + 1 }
{
    let mut members = ArrayVec::new();
    members.push(me);
    members.try_extend_from_slice(peers).unwrap();
    members
}
