ghost use Rattle.std.specs.Prelude.{◌≡◌, ◌≢◌, ◌≤◌, ◌<◌, ◌∷◌, [], ℕ, true, None, Some, is_ok, OnOk, OnErr, IfOk, IfErr, IfSome, IsErr, IsSome, length};
ghost use Rattle.std.specs.Result.{result_err};
ghost use Rattle.std.proofs.Props.{props};
ghost use Rattle.can_frame.specs.Log.{entry_at, log_limit};
ghost use Rattle.can_frame.specs.OneKind.{IsWellFormed-prop};
ghost use Rattle.disk_model.specs.Contents.{AddsNoImage};
ghost use Rattle.disk_model.specs.Device.{Makes};
ghost use Rattle.kv_store.specs.Image.{chosen_copy, key_count, open_calls};
ghost use Rattle.kv_store.specs.StoreViews.{store_fault, store_map};
ghost use Rattle.outside.specs.Faults.{Rose};
ghost use Rattle.raft_log.specs.Allowed.{AreAllowed};
ghost use Rattle.raft_log.specs.MayFollow.{HaveOrigins, IsStorable, MayFollow};
ghost use Rattle.raft_log.specs.Rules.{AlwaysStandsForState, IsDamagedAt, StandsForState, Stores};
ghost use Rattle.raft_log.specs.StateViews.{stored_of};
ghost use Rattle.raft_log.specs.Stored.{first_state, opening_puts, origin_at, origin_limit, origin_puts, puts_of_append, puts_of_cut, puts_of_term};
ghost use Rattle.raft_log.specs.Stored.Put.{PutVote, PutCommit};

use crate::change::Change;
use crate::laws::a_state_is_durable;
use crate::state::State;
use crate::values::NEWEST;
use can_frame::Entry;
use disk_model::{Disk, MemoryDisk};
use kv_store::{Fault, OpenFault, OpenRefused, Store};
use outside::Pattern;

/// The stored state of a member, on a disk.
///
/// Of each call that changes the stored state, `Err` comes only where the count of faults of the disk rose in this
/// call, or where the stored state had failed before. Then it is the same fault again, and nothing changes (`fault`).
#[derive(Drop)]
pub struct Durable<D: Disk> {
    store: Store<D>,
    state: State,
    ghost stored: { store_fault store ≡ None → Stores (store_map store) (stored_of state) } by { Prim.hlevel (props, IsWellFormed-prop) },
    ghost storable: { IsStorable (stored_of state) } by { Prim.hlevel (props, IsWellFormed-prop) },
}

impl<D: Disk> Durable<D> {
    ghost use Rattle.kv_store.specs.declared.fault.Fault.{Fault};
    ghost use Rattle.kv_store.specs.declared.fault.OpenFault.TheVariants.{Fault as DiskFault, Damaged};
    ghost use Rattle.raft_log.specs.DurableViews.{durable_state, durable_disk, durable_fault, durable_copies};
    ghost use Rattle.raft_log.specs.Calls.{FaultIsSticky, WritesInOrder};
    ghost use Rattle.raft_log.specs.Changes.{FitsBytes, MayMake};
    ghost use Rattle.raft_log.specs.Making.{HasNext, LeavesNext, MakesChange, put_at};
    ghost use Rattle.raft_log.specs.Opening.{FailsToOpen, IsNotRead, OpensTo};

    /// Opens the store of a disk: a sync and one read find its state. One that was stored before origins
    /// were is then brought to version 2: each entry that has no origin is put again with the origin 0, in
    /// order, and then the version.
    ///
    /// The disk comes back with a refusal. A key is damaged also where its value breaks a rule of the stored state.
    pub fn open(disk: D) -> Result<Durable<D>, OpenRefused<D>>
        // What reads give is found and its puts are made, and a stop leaves the state after them.
        ensures opens { IfOk result (λ durable. OpensTo disk durable) }
        ensures durable { IfOk result (λ durable. D.tells disk ≡ true →
            AlwaysStandsForState (D.contents (durable_disk durable)) (durable_state durable)) }
        ensures version { IfOk result (λ durable. (durable_state durable).version ≡ 2) }
        ensures works { IfOk result (λ durable. durable_fault durable ≡ None) }

        // A disk of which a key is damaged is refused, and nothing is put there.
        ensures damaged { IfErr result (λ refused. (key : ℕ) → refused.why ≡ Damaged key →
            D.tells disk ≡ true → IsDamagedAt (D.contents disk).seen key) }
        ensures damaged_made { IfErr result (λ refused. (key : ℕ) → refused.why ≡ Damaged key →
            Makes D.does open_calls true disk refused.disk) }
        ensures damaged_images { IfErr result (λ refused. (key : ℕ) → refused.why ≡ Damaged key →
            D.tells disk ≡ true → AddsNoImage (D.contents disk) (D.contents refused.disk)) }

        // A disk that failed in this call, before a put or in one, is refused too.
        ensures fault { IfErr result (λ refused. (fault : Fault) → refused.why ≡ DiskFault fault →
            (fault.count ≡ D.faults refused.disk) × Rose (D.faults disk) (D.faults refused.disk)) }
        ensures failed { IfErr result (λ refused. (fault : Fault) → refused.why ≡ DiskFault fault →
            FailsToOpen D.Disk disk refused.disk) }

        ensures tells { IfOk result (λ durable. D.tells (durable_disk durable) ≡ D.tells disk) }
        ensures refused_tells { IfErr result (λ refused. D.tells refused.disk ≡ D.tells disk) }
        ensures later { IfOk result (λ durable. D.faults disk ≤ D.faults (durable_disk durable)) }
        ensures refused_later { IfErr result (λ refused. D.faults disk ≤ D.faults refused.disk) }
    {
        let mut durable = Durable::closed(disk);
        match durable.reopen() {
            Ok(()) => Ok(durable),
            Err(why) => Err(OpenRefused {
                disk: durable.into_disk(),
                why,
            }),
        }
    }

    /// A stored state on a disk that was not read yet. It is closed: its state is the first one, and every
    /// change answers a fault until it is opened.
    pub fn closed(disk: D) -> Durable<D>
        ensures disk { durable_disk result ≡ disk }
        ensures state { durable_state result ≡ first_state }
        ensures copies { (key : ℕ) → durable_copies result key ≡ 0 }
        ensures closed { IsSome (durable_fault result) }
        ensures count { IfSome (durable_fault result) (λ fault. fault.count ≡ D.faults disk) }
    {
        Durable {
            store: Store::closed(disk),
            state: State::first(),
        }
    }

    /// Opens the store of its disk where it stands, as `open` does, whatever state it had before. After a
    /// refusal it is closed: every change answers a fault until it is opened, and its state is not that of
    /// the disk.
    pub fn reopen(&mut self) -> Result<(), OpenFault>
        // What reads give is found and its puts are made, and a stop leaves the state after them.
        ensures opens { OnOk result (OpensTo (durable_disk self.old) self.new) }
        ensures durable { OnOk result (D.tells (durable_disk self.old) ≡ true →
            AlwaysStandsForState (D.contents (durable_disk self.new)) (durable_state self.new)) }
        ensures version { OnOk result ((durable_state self.new).version ≡ 2) }
        ensures works { OnOk result (durable_fault self.new ≡ None) }

        // A disk of which a key is damaged is refused, and nothing is put there.
        ensures damaged { IfErr result (λ why. (key : ℕ) → why ≡ Damaged key →
            D.tells (durable_disk self.old) ≡ true →
            IsDamagedAt (D.contents (durable_disk self.old)).seen key) }
        ensures damaged_made { IfErr result (λ why. (key : ℕ) → why ≡ Damaged key →
            Makes D.does open_calls true (durable_disk self.old) (durable_disk self.new)) }
        ensures damaged_images { IfErr result (λ why. (key : ℕ) → why ≡ Damaged key →
            D.tells (durable_disk self.old) ≡ true →
            AddsNoImage (D.contents (durable_disk self.old)) (D.contents (durable_disk self.new))) }

        // A disk that failed in this call, before a put or in one, is refused too.
        ensures fault { IfErr result (λ why. (fault : Fault) → why ≡ DiskFault fault →
            (fault.count ≡ D.faults (durable_disk self.new))
            × Rose (D.faults (durable_disk self.old)) (D.faults (durable_disk self.new))) }
        ensures failed { IfErr result (λ why. (fault : Fault) → why ≡ DiskFault fault →
            FailsToOpen D.Disk (durable_disk self.old) (durable_disk self.new)) }

        ensures closed { IsErr result → IsSome (durable_fault self.new) }

        // What it keeps after a refusal is the fault that it answers, and it has the count of the disk.
        ensures kept { IfErr result (λ why. (fault : Fault) → why ≡ DiskFault fault →
            durable_fault self.new ≡ Some fault) }
        ensures count { OnErr result (IfSome (durable_fault self.new) (λ fault.
            fault.count ≡ D.faults (durable_disk self.new))) }

        ensures tells { D.tells (durable_disk self.new) ≡ D.tells (durable_disk self.old) }
        ensures later { D.faults (durable_disk self.old) ≤ D.faults (durable_disk self.new) }
    {
        a_state_is_durable::<D>();
        self.read()?;
        if self.state.version == NEWEST {
            return Ok(());
        }
        match self.migrate() {
            Ok(()) => Ok(()),
            Err(fault) => Err(OpenFault::Fault(fault)),
        }
    }

    /// The fault that every change answers. None while it is open and no put has failed.
    pub fn fault(&self) -> Option<Fault>
        ensures { result ≡ durable_fault self.now }
    {
        self.store.fault()
    }

    /// The stored term.
    pub fn term(&self) -> u32
        ensures { result ≡ (durable_state self.now).term }
    {
        self.state.term
    }

    /// The node that it voted for in this term, 0 for none.
    pub fn vote(&self) -> u8
        ensures vote { result ≡ (durable_state self.now).vote }
        ensures range { result ≤ 125 }
    {
        self.state.vote
    }

    /// The place of the last entry, 0 where the log is empty.
    pub fn last(&self) -> u8
        ensures last { result ≡ length (durable_state self.now).log }
        ensures range { result ≤ log_limit }
    {
        self.state.log.len() as u8
    }

    /// The entries up to this place are committed.
    pub fn commit(&self) -> u8
        ensures commit { result ≡ (durable_state self.now).commit }
        ensures range { result ≤ length (durable_state self.now).log }
    {
        self.state.commit
    }

    /// The entry at a place of 0 to last. At place 0 stands the blank of term 0.
    pub fn entry(&self, place: u8) -> Entry
        requires { place ≤ length (durable_state self.now).log }
        ensures { result ≡ entry_at (durable_state self.now).log place }
    {
        if place == 0 {
            return Entry::default();
        }
        self.state.log[place as usize - 1]
    }

    /// How the entry at a place of 1 to last came into this log: a number of [`crate::origin`]. One that was
    /// stored before origins were is 0.
    pub fn origin(&self, place: u8) -> u8
        requires least { 1 ≤ place }
        requires most { place ≤ length (durable_state self.now).log }
        ensures origin { result ≡ origin_at (durable_state self.now) place }
        ensures range { result ≤ origin_limit }
    {
        self.state.origins[place as usize - 1].unwrap_or(0)
    }

    /// The entries at places 1 to last.
    pub fn log(&self) -> &[Entry]
        ensures { result.now ≡ (durable_state self.now).log }
    {
        &self.state.log
    }

    /// Takes a later term, with no vote in it. It puts the term, and then the vote 0.
    pub fn set_term(&mut self, term: u32) -> Result<(), Fault>
        requires { (durable_state self.old).term < term }
        ensures allowed { AreAllowed (puts_of_term term) (durable_state self.old) None }
        ensures puts { WritesInOrder (puts_of_term term) self.old self.new (is_ok result) }
        ensures fault { FaultIsSticky self.old self.new (result_err result) }
    {
        self.make(Change::Term(term))?;
        self.make(Change::Vote(0))
    }

    /// Votes, where it has not voted in this term.
    pub fn set_vote(&mut self, node: u8) -> Result<(), Fault>
        requires none { (durable_state self.old).vote ≡ 0 }
        requires least { 1 ≤ node }
        requires most { node ≤ 125 }
        ensures allowed { AreAllowed (PutVote node ∷ []) (durable_state self.old) None }
        ensures puts { WritesInOrder (PutVote node ∷ []) self.old self.new (is_ok result) }
        ensures fault { FaultIsSticky self.old self.new (result_err result) }
    {
        self.make(Change::Vote(node))
    }

    /// Appends an entry that may follow the log, with its origin, a number of [`crate::origin`]. It puts the
    /// entry, and then last.
    pub fn append(&mut self, entry: Entry, origin: u8) -> Result<(), Fault>
        requires room { length (durable_state self.old).log < log_limit }
        requires follows { MayFollow (durable_state self.old).log
            (durable_state self.old).term entry }
        requires origin { origin ≤ origin_limit }
        ensures allowed { AreAllowed (puts_of_append entry origin (durable_state self.old))
            (durable_state self.old) None }
        ensures puts { WritesInOrder (puts_of_append entry origin (durable_state self.old))
            self.old self.new (is_ok result) }
        ensures fault { FaultIsSticky self.old self.new (result_err result) }
    {
        self.make(Change::Next(entry, origin))?;
        self.make(Change::Longer(entry, origin))
    }

    /// Keeps the entries up to a place, the committed ones among them.
    pub fn truncate(&mut self, place: u8) -> Result<(), Fault>
        requires kept { (durable_state self.old).commit ≤ place }
        requires shorter { place < length (durable_state self.old).log }
        ensures allowed { AreAllowed (puts_of_cut place (durable_state self.old))
            (durable_state self.old) None }
        ensures puts { WritesInOrder (puts_of_cut place (durable_state self.old)) self.old self.new
            (is_ok result) }
        ensures fault { FaultIsSticky self.old self.new (result_err result) }
    {
        self.make(Change::Shorter(place))
    }

    /// Commits the entries up to a place.
    pub fn set_commit(&mut self, place: u8) -> Result<(), Fault>
        requires later { (durable_state self.old).commit < place }
        requires there { place ≤ length (durable_state self.old).log }
        ensures allowed { AreAllowed (PutCommit place ∷ []) (durable_state self.old) None }
        ensures puts { WritesInOrder (PutCommit place ∷ []) self.old self.new (is_ok result) }
        ensures fault { FaultIsSticky self.old self.new (result_err result) }
    {
        self.make(Change::Commit(place))
    }

    /// Lets the stored state go and returns its disk, unchanged.
    pub fn into_disk(self) -> D
        ensures { result ≡ durable_disk self }
    {
        self.store.into_disk()
    }

    /// Takes the state that its disk stands for, found by a sync and one read.
    fn read(&mut self) -> Result<(), OpenFault>
        // The state is that of what reads give, and of whatever a stop may leave from now on.
        ensures state { OnOk result (D.tells (durable_disk self.old) ≡ true →
            StandsForState (D.contents (durable_disk self.old)).seen (durable_state self.new)) }
        ensures durable { OnOk result (D.tells (durable_disk self.old) ≡ true →
            AlwaysStandsForState (D.contents (durable_disk self.new)) (durable_state self.new)) }
        ensures copies { OnOk result (D.tells (durable_disk self.old) ≡ true → (key : ℕ) →
            key < key_count →
            durable_copies self.new key ≡ chosen_copy (D.contents (durable_disk self.old)).seen key) }
        ensures works { OnOk result (durable_fault self.new ≡ None) }

        // A disk of which a key is damaged is refused, and one that failed in this call.
        ensures damaged { IfErr result (λ why. (key : ℕ) → why ≡ Damaged key →
            D.tells (durable_disk self.old) ≡ true →
            IsDamagedAt (D.contents (durable_disk self.old)).seen key) }
        ensures damaged_made { IfErr result (λ why. (key : ℕ) → why ≡ Damaged key →
            Makes D.does open_calls true (durable_disk self.old) (durable_disk self.new)) }
        ensures fault { IfErr result (λ why. (fault : Fault) → why ≡ DiskFault fault →
            (fault.count ≡ D.faults (durable_disk self.new))
            × Rose (D.faults (durable_disk self.old)) (D.faults (durable_disk self.new))) }
        ensures failed { IfErr result (λ why. (fault : Fault) → why ≡ DiskFault fault →
            IsNotRead D.Disk (durable_disk self.old) (durable_disk self.new)) }
        ensures closed { IsErr result → IsSome (durable_fault self.new) }
        ensures kept { IfErr result (λ why. (fault : Fault) → why ≡ DiskFault fault →
            durable_fault self.new ≡ Some fault) }
        ensures count { OnErr result (IfSome (durable_fault self.new) (λ fault.
            fault.count ≡ D.faults (durable_disk self.new))) }

        // No image is added, also where the disk is refused.
        ensures images { D.tells (durable_disk self.old) ≡ true →
            AddsNoImage (D.contents (durable_disk self.old)) (D.contents (durable_disk self.new)) }
        ensures made { OnOk result
            (Makes D.does open_calls true (durable_disk self.old) (durable_disk self.new)) }
        ensures tells { D.tells (durable_disk self.new) ≡ D.tells (durable_disk self.old) }
        ensures later { D.faults (durable_disk self.old) ≤ D.faults (durable_disk self.new) }
    {
        self.store.reopen()?;
        match State::read(self.store.table()) {
            Ok(state) => {
                self.state = state;
                Ok(())
            }
            Err(key) => {
                self.store.close();
                Err(OpenFault::Damaged(key))
            }
        }
    }

    /// Brings an older store to the newest version: each entry gets its origin first.
    fn migrate(&mut self) -> Result<(), Fault>
        requires older { (durable_state self.old).version ≢ 2 }
        requires works { durable_fault self.old ≡ None }
        ensures puts { WritesInOrder (opening_puts (durable_state self.old)) self.old self.new
            (is_ok result) }
        ensures fault { FaultIsSticky self.old self.new (result_err result) }
        ensures version { OnOk result ((durable_state self.new).version ≡ 2) }
    {
        self.put_origins()?;
        self.make(Change::Version)
    }

    /// Puts each entry that has no origin once more, with the origin 0.
    fn put_origins(&mut self) -> Result<(), Fault>
        requires works { durable_fault self.old ≡ None }
        ensures puts { let state = durable_state self.old in
            WritesInOrder (origin_puts 0 state.log state.origins) self.old self.new (is_ok result) }
        ensures fault { FaultIsSticky self.old self.new (result_err result) }
        ensures have { OnOk result (HaveOrigins (durable_state self.new).origins) }
    {
        a_state_is_durable::<D>();
        for place in 0..self.last() {
            self.put_origin(place)?;
        }
        Ok(())
    }

    /// Puts the entry at an index of the log, counted from 0, once more with the origin 0, if it has none.
    fn put_origin(&mut self, place: u8) -> Result<(), Fault>
        requires works { durable_fault self.old ≡ None }
        requires there { place < length (durable_state self.old).log }
        ensures puts { WritesInOrder (put_at place (durable_state self.old)) self.old self.new
            (is_ok result) }
        ensures fault { FaultIsSticky self.old self.new (result_err result) }
    {
        a_state_is_durable::<D>();
        if self.state.origins[place as usize].is_some() {
            return Ok(());
        }
        self.make(Change::Origin(place))
    }

    /// Makes a change by one put.
    fn make(&mut self, change: Change) -> Result<(), Fault>
        requires may { MayMake change (durable_state self.old) }
        requires next { HasNext change self.old }
        ensures puts { MakesChange change self.old self.new (is_ok result) }
        ensures fault { FaultIsSticky self.old self.new (result_err result) }
        ensures fits { FitsBytes change (durable_state self.old) }
        ensures next { OnOk result (LeavesNext change self.old self.new) }
    {
        let value = change.value(&self.state);
        self.store.put(change.key(&self.state), &value)?;
        self.state.make(change);
        Ok(())
    }
}

impl Durable<MemoryDisk> {
    ghost use Rattle.disk_model.specs.Memory.{Restarts, memory_calls, memory_contents};
    ghost use Rattle.disk_model.specs.Pattern.{IsUsable};
    ghost use Rattle.raft_log.specs.DurableViews.{durable_state, durable_disk, durable_fault, durable_copies};

    /// Calls `MemoryDisk::restart` of the disk, and closes the stored state: it stays, and every change
    /// answers a fault until it is opened again.
    ///
    /// `IsUsable` owes that a pattern of bytes has one byte at least.
    pub fn restart(&mut self, pattern: Pattern)
        requires { IsUsable pattern }
        ensures disk { Restarts pattern (durable_disk self.old) (durable_disk self.new) }
        ensures state { durable_state self.new ≡ durable_state self.old }
        ensures copies { durable_copies self.new ≡ durable_copies self.old }
        ensures closed { IsSome (durable_fault self.new) }
        ensures count { IfSome (durable_fault self.new) (λ fault.
            fault.count ≡ (memory_calls (durable_disk self.old)).faults) }
    {
        self.store.restart(pattern);
    }

    /// Calls `MemoryDisk::stop_at` of the disk; nothing else changes.
    pub fn stop_at(&mut self, call: u64)
        ensures calls { memory_calls (durable_disk self.new) ≡
            record (memory_calls (durable_disk self.old)) { stop_in = call } }
        ensures contents { memory_contents (durable_disk self.new) ≡
            memory_contents (durable_disk self.old) }
        ensures state { durable_state self.new ≡ durable_state self.old }
        ensures copies { durable_copies self.new ≡ durable_copies self.old }
        ensures fault { durable_fault self.new ≡ durable_fault self.old }
    {
        self.store.stop_at(call);
    }

    /// Calls `MemoryDisk::fail_at` of the disk; nothing else changes.
    pub fn fail_at(&mut self, call: u64)
        ensures calls { memory_calls (durable_disk self.new) ≡
            record (memory_calls (durable_disk self.old)) { fail_in = call } }
        ensures contents { memory_contents (durable_disk self.new) ≡
            memory_contents (durable_disk self.old) }
        ensures state { durable_state self.new ≡ durable_state self.old }
        ensures copies { durable_copies self.new ≡ durable_copies self.old }
        ensures fault { durable_fault self.new ≡ durable_fault self.old }
    {
        self.store.fail_at(call);
    }

    /// Whether a device call has stopped the disk.
    pub fn stopped(&self) -> bool
        ensures { result ≡ (memory_calls (durable_disk self.now)).stopped }
    {
        self.store.stopped()
    }
}
