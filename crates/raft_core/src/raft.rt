ghost use Rattle.std.specs.Prelude.{◌≡◌, ◌≢◌, ◌<◌, ◌≤◌, ℕ, List, Bool, false, true, OnOk, length, nat_le, slice_index_or};
ghost use Rattle.std.specs.Result.{result_err};
ghost use Rattle.arrayvec.specs.ArrayVec.{array_vec_len};
ghost use Rattle.can_frame.specs.declared.step.Role.TheVariants.{Follower};
ghost use Rattle.can_frame.specs.Sizes.{most_members, node_ids};
ghost use Rattle.raft_log.specs.DurableViews.{durable_state};
ghost use Rattle.raft_log.specs.Stored.{Stored};
ghost use Rattle.raft_model.specs.Lists.{how_many};
ghost use Rattle.raft_model.specs.Moves.Elections.{term_memory, term_puts, with_term};
ghost use Rattle.raft_model.specs.Server.{RaftServer, quorum, memory_when_opened};
ghost use Rattle.raft_core.specs.Peers.{WaitSince};

use crate::laws::puts_in_turn;
use crate::peer::Peer;
use arrayvec::ArrayVec;
use can_frame::Role;
use can_frame::sizes::{MOST_MEMBERS, NODE_IDS};
use disk_model::Disk;
use kv_store::Fault;
use raft_log::Durable;

/// What a member of the cluster keeps in memory. Moments are milliseconds, and may fall.
///
/// A `Raft` stands for a server of the Raft model and for the times that the model does not know: waits, and the
/// moments and transfer IDs of calls. A call that makes moves says it for each of these (`moves`): the moves are those
/// of the model, with exactly their puts, and where no put fails, what is left stands for the server and the times
/// after them. `Err` comes only where a call on the stored state in this call answered it (`fault`). Then the puts
/// before it are made, and the member is not to be used again.
#[derive(Drop)]
pub struct Raft {
    /// The member's own node ID.
    pub(crate) me: u8,

    /// How many members the cluster has.
    pub(crate) size: u8,

    pub(crate) role: Role,

    /// A leader has told the pairs of the entries up to this place.
    pub(crate) told: u8,

    /// When the wait for an election began.
    pub(crate) since: u64,

    /// The word that the wait takes.
    pub(crate) word: u32,

    /// Whether a leader's blank waits until a quorum has the leader's log.
    pub(crate) waits: bool,

    /// All members, itself first, since the last election.
    pub(crate) members: ArrayVec<u8, MOST_MEMBERS>,

    /// By node ID.
    pub(crate) peers: [Peer; NODE_IDS],

    /// No call that waits was made before this moment.
    pub(crate) calls_since: u64,

    ghost least: { 1 ≤ me },
    ghost most: { me ≤ 125 },
    ghost five: { size ≤ most_members },
    ghost short: { array_vec_len members ≤ most_members },
    ghost table: { length peers ≡ node_ids },
    ghost young: { WaitSince calls_since peers },
    ghost numbered: { (i : ℕ) → i < length members.items → slice_index_or members.items i 0 < node_ids },
    ghost complete: { role ≢ Follower → array_vec_len members ≡ size },
}

/// What a member may stand behind.
#[derive(Clone, Copy)]
pub(crate) enum Cause {
    /// The candidacy, by its vote.
    Candidacy,

    /// The log up to this place, by having it.
    Place(u8),
}

impl Raft {
    ghost use Rattle.raft_core.specs.Backs.{Backs};
    ghost use Rattle.raft_core.specs.Fits.{Fits};
    ghost use Rattle.raft_core.specs.RaftViews.{raft_me, raft_role, raft_size};
    ghost use Rattle.raft_core.specs.Roles.{StepsDown};
    ghost use Rattle.raft_core.specs.Stands.{StandsFor, role_of};
    ghost use Rattle.raft_core.specs.StoredPuts.{CallWrites, CallFaultIsSticky, with_origin, store_of};
    ghost use Rattle.raft_core.specs.Times as clock;
    ghost use Rattle.raft_core.specs.Times.{Times, opened_times};

    /// A member that opens now, in a cluster of 1 to [`MOST_MEMBERS`] members. The word makes its wait for
    /// an election differ from the others'.
    pub fn new(me: u8, size: u8, now: u64, word: u32) -> Raft
        requires least { 1 ≤ me }
        requires most { me ≤ 125 }
        requires some { 1 ≤ size }
        requires five { size ≤ most_members }
        ensures stands { (members : List ℕ) (state : Stored) →
            StandsFor result members state (record { store = store_of state; memory = memory_when_opened })
            (opened_times now word) }
        ensures fits { (state : Stored) → Fits result state }
        ensures me { raft_me result ≡ me }
        ensures size { raft_size result ≡ size }
    {
        Raft {
            me,
            size,
            role: Role::Follower,
            told: 0,
            since: now,
            word,
            waits: false,
            members: ArrayVec::new(),
            peers: [Peer::new(1); NODE_IDS],
            calls_since: u64::MAX,
        }
    }

    /// From now on a leader adds its blank only once a quorum of the members, the leader included, has
    /// answered that it has the leader's whole log. So an election whose leader cannot reach a quorum takes
    /// no room in the log. Else the blank is added as soon as the member leads.
    pub fn wait_until_heard(&mut self)
        ensures stands { (members : List ℕ) (state : Stored) (server : RaftServer) (times : Times) →
            StandsFor self.old members state server times →
            StandsFor self.new members state server (record times { waits = true }) }
        ensures fits { (state : Stored) → Fits self.old state → Fits self.new state }
        ensures me { raft_me self.new ≡ raft_me self.old }
        ensures size { raft_size self.new ≡ raft_size self.old }
    {
        self.waits = true;
    }

    pub fn role(&self) -> Role
        ensures role { result ≡ raft_role self.now }
        ensures stands { (members : List ℕ) (state : Stored) (server : RaftServer) (times : Times) →
            StandsFor self.now members state server times → server.memory.role ≡ role_of result }
    {
        self.role
    }

    /// It is a Follower from now on; the wait begins where it was none.
    pub(crate) fn step_down(&mut self, now: u64)
        ensures { StepsDown self.old self.new now }
    {
        if self.role != Role::Follower {
            self.since = now;
        }
        self.role = Role::Follower;
    }

    /// A term above its own is stored, with no vote in it, and makes it Follower.
    pub(crate) fn raise<D: Disk>(
        &mut self,
        d: &mut Durable<D>,
        term: u32,
        now: u64,
    ) -> Result<(), Fault>
        // These puts have no entry, and so no origin.
        ensures puts { (origin : ℕ) →
            CallWrites (with_origin origin (term_puts (store_of (durable_state d.old)) term))
            d.old d.new (result_err result) }
        ensures fault { CallFaultIsSticky d.old d.new (result_err result) }
        ensures stands { (members : List ℕ) (server : RaftServer) (times : Times) →
            StandsFor self.old members (durable_state d.old) server times →
            OnOk result (StandsFor self.new members (durable_state d.new)
            (record { store = with_term server.store term; memory = term_memory server term })
            (clock.raise now term server times)) }
        ensures fits { Fits self.old (durable_state d.old) →
            OnOk result (Fits self.new (durable_state d.new)) }
        ensures me { raft_me self.new ≡ raft_me self.old }
        ensures size { raft_size self.new ≡ raft_size self.old }
        ensures role { OnOk result (self.new.role ≢ Follower → self.new.role ≡ self.old.role) }
        ensures term { OnOk result (term ≤ (durable_state d.new).term) }
        ensures raised { OnOk result ((durable_state d.old).term ≤ term →
            (durable_state d.new).term ≡ term) }
        ensures log { OnOk result ((durable_state d.new).log ≡ (durable_state d.old).log) }
    {
        puts_in_turn::<D>();
        if d.term() < term {
            d.set_term(term)?;
            self.step_down(now);
        }
        Ok(())
    }

    /// Whether more than half of the members stand behind it.
    #[tactic(auto, using(crate::proofs::Counting::one_more_counted))]
    pub(crate) fn has_quorum(&self, cause: Cause) -> bool
        requires { self.now.role ≢ Follower }
        ensures { (test : ℕ → Bool) → Backs self.now.me self.now.peers cause test →
            result ≡ nat_le (quorum self.now.members.items) (how_many test self.now.members.items) }
    {
        let mut count = 0;
        for node in self.members.as_slice() {
            count += u8::from(self.backs(*node, cause));
        }
        count > self.size / 2
    }

    fn backs(&self, node: u8, cause: Cause) -> bool
        requires { node < node_ids }
        ensures { (test : ℕ → Bool) → Backs self.now.me self.now.peers cause test →
            result ≡ test node }
    {
        match cause {
            Cause::Candidacy => self.peers[node as usize].voted,
            Cause::Place(place) => node == self.me || place <= self.peers[node as usize].matched,
        }
    }
}
