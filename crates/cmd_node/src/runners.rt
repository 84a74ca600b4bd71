//! The allocators that run, each on the disk that it was given.

ghost use Rattle.std.specs.Prelude.{◌≡◌, suc, ◌<◌, ◌≤◌, ◌+◌, ◌*◌, ◌++◌, ◌∷◌};
ghost use Rattle.std.specs.Prelude.{[], ℕ, List, Option, Some, None, IfSome, IfErr, IsSome, OnOk, OnErr, Err};
ghost use Rattle.std.specs.Prelude.{length, slice_index_or, slice_set, vec_capacity};
ghost use Rattle.can_frame.specs.Sizes.{most_members};
ghost use Rattle.alloc_spec.specs.ClusterMembers.{AreMembers};
ghost use Rattle.bus_spec.specs.Receivers.{MemberReceives};
ghost use Rattle.alloc_spec.specs.Rules.{rules_by};
ghost use Rattle.cmd_node.specs.Another.{NoneCallsFor};
ghost use Rattle.cmd_node.specs.Ends.{refusal_of};
ghost use Rattle.cmd_node.specs.Opening.{readings_after};
ghost use Rattle.cmd_node.specs.Stands.{closure_of};
ghost use Rattle.cmd_node.specs.Turns.{Together, all_turns};
ghost use Rattle.cmd_node.specs.declared.runner.Runner.{Runner};

use crate::fault::Fault;
use crate::runner::Runner;
use crate::steps::LastSteps;
use crate::turns::take_turn;
use can_frame::Kind;
use can_frame::sizes::MOST_MEMBERS;
use disk_model::Disk;
use kv_store::OpenFault;
use outside::{Clock, Link};
use std::alloc::Global;

/// The allocators that run, in the order of their places. They receive the same. They are let go by
/// [`Runners::stop`] alone.
pub(crate) struct Runners<D: Disk, F> {
    list: Vec<Runner<D, F>>,
    accept: F,
    ghost five: { length list.items ≤ most_members },
    ghost room: { most_members ≤ vec_capacity list },
    ghost alike: { (i : ℕ) (runner : Runner D F D.Disk) → i < length list.items →
        closure_of (slice_index_or list.items i runner) ≡ accept },
}

impl<D: Disk, F: Fn(Kind, u16) -> Option<u64> + Copy> Runners<D, F> {
    ghost use Rattle.cmd_node.specs.Quiet.{StayQuiet};
    ghost use Rattle.cmd_node.specs.Stands.{AreOpened, AreOpenedAt, AreStanding};
    ghost use Rattle.cmd_node.specs.Stands.{IsOpened, IsOpenedAt, Stand};
    ghost use Rattle.cmd_node.specs.Cut.{AreCutAfterTurns};
    ghost use Rattle.cmd_node.specs.Run.{AreStopped};
    ghost use Rattle.cmd_node.specs.Runners.{accepts, runners_of};
    ghost use Rattle.cmd_node.specs.Taking.{AreWorking, EndsTurn, IsRefused, KeepsLinks, KeepsNodes, WasRefused};
    ghost use Rattle.cmd_node.specs.Steps.{steps_made};

    /// None runs yet. All memory is taken here; `None` where there is too little.
    pub fn new(alloc: Global, accept: F) -> Option<Runners<D, F>>
        ensures none { IfSome result (λ runners. runners_of runners ≡ []) }
        ensures accepts { IfSome result (λ runners. accepts runners ≡ accept) }
    {
        match Vec::with_capacity(alloc, MOST_MEMBERS) {
            Ok(list) => Some(Runners { list, accept }),
            Err(_) => None,
        }
    }

    /// Lets them go, where none runs.
    pub fn discard(self)
        requires { runners_of self ≡ [] }
    {
        let Runners { list, accept: _ } = self;
        list.destroy_empty();
    }

    /// Takes the disk of each of these nodes and opens its server, in order. Each is told how many members its
    /// cluster has, and who they are, where `told` has them. A disk that is refused is
    /// put back, and those behind it stay where they are.
    pub fn open_all<C: Clock>(
        &mut self,
        size: u8,
        told: &[u8],
        ids: &[u8],
        disks: &mut [Option<D>],
        clock: &mut C,
    ) -> Result<(), Fault>
        requires receives { MemberReceives F.row F.IsAlwaysCallable F.post (accepts self.old) }
        requires some { 1 ≤ size }
        requires five { size ≤ most_members }
        requires few_told { length told.now ≤ most_members }
        requires members { AreMembers ids.now }
        requires each { length disks.old ≡ length ids.now }
        requires present { (i : ℕ) → i < length ids.now →
            IsSome (slice_index_or disks.old i None) }
        requires none { runners_of self.old ≡ [] }
        ensures opened { AreOpened (runners_of self.new) disks.old ids.now }
        ensures all { OnOk result (length (runners_of self.new) ≡ length ids.now) }
        ensures count { length (runners_of self.new) ≤ length ids.now }
        ensures refused { (fault : Fault) → result ≡ Err fault →
            WasRefused D.Disk ids.now disks.old disks.new (length (runners_of self.new)) fault }
        ensures behind { (i : ℕ) → length (runners_of self.new) < i →
            slice_index_or disks.new i None ≡ slice_index_or disks.old i None }
        ensures moments { (readings : List ℕ) → C.readings clock.old ≡ Some readings → OnOk result (
            (C.readings clock.new ≡ Some (readings_after (length ids.now) readings)) ×
            AreOpenedAt (rules_by size told.now) (runners_of self.new) readings) }
        ensures clock { OnErr result ((readings : List ℕ) → C.readings clock.old ≡ Some readings →
            C.readings clock.new ≡ Some (readings_after (suc (length (runners_of self.new))) readings)) }
        ensures accepts { accepts self.new ≡ accepts self.old }
        ensures places { length disks.new ≡ length disks.old }
    {
        for place in 0..ids.len() {
            let now = clock.now();
            match self.open_next(size, told, ids[place], &mut disks[place], now) {
                Ok(()) => {}
                Err(fault) => return Err(fault),
            }
        }
        Ok(())
    }

    /// Takes the disk at a place and opens the server of a node. Where it is refused it is put back.
    fn open_next(
        &mut self,
        size: u8,
        told: &[u8],
        id: u8,
        place: &mut Option<D>,
        now: u64,
    ) -> Result<(), Fault>
        requires receives { MemberReceives F.row F.IsAlwaysCallable F.post (accepts self.old) }
        requires some { 1 ≤ size }
        requires five { size ≤ most_members }
        requires few_told { length told.now ≤ most_members }
        requires least { 1 ≤ id }
        requires most { id ≤ 125 }
        requires present { IsSome place.old }
        requires few { length (runners_of self.old) < most_members }
        ensures opened { OnOk result ((runner : Runner D F D.Disk) ×
            (runners_of self.new ≡ runners_of self.old ++ runner ∷ []) ×
            IsOpened runner place.old id × IsOpenedAt (rules_by size told.now) runner now) }
        ensures taken { OnOk result (place.new ≡ None) }
        ensures stays { OnErr result (runners_of self.new ≡ runners_of self.old) }
        ensures put_back { OnErr result (IsSome place.new) }
        ensures refused { (fault : Fault) → result ≡ Err fault →
            IsRefused D.Disk place.old place.new id fault }
        ensures accepts { accepts self.new ≡ accepts self.old }
    {
        let Some(disk) = place.take() else {
            unreachable!()
        };
        match Runner::open(id, size, told, disk, self.accept, now) {
            Ok(runner) => {
                self.push(runner);
                Ok(())
            }
            Err(refused) => {
                *place = Some(refused.disk);
                Err(refusal(id, refused.why))
            }
        }
    }

    fn push(&mut self, runner: Runner<D, F>)
        requires few { length (runners_of self.old) < most_members }
        requires accepts { closure_of runner ≡ accepts self.old }
        ensures runners { runners_of self.new ≡ runners_of self.old ++ runner ∷ [] }
        ensures accepts { accepts self.new ≡ accepts self.old }
    {
        match self.list.push(runner) {
            Ok(()) => {}
            Err(_failed) => unreachable!(),
        }
    }

    /// Each takes so many turns, one after the other, on the link at its place.
    pub fn take_turns<L: Link, C: Clock>(
        &mut self,
        turns: u64,
        links: &mut [L],
        clock: &mut C,
        steps: &mut LastSteps,
    ) -> Result<(), Fault>
        requires receives { MemberReceives F.row F.IsAlwaysCallable F.post (accepts self.old) }
        requires turns { turns ≤ 1000000000 }
        requires each { length links.old ≡ length (runners_of self.old) }
        requires working { AreWorking (runners_of self.old) }
        requires first { steps_made steps.old ≡ 0 }
        ensures turned { OnOk result ((all : Together) → Stand L.coming L.sent (runners_of self.old)
            links.old (C.readings clock.old) steps.old all → Stand L.coming L.sent
            (runners_of self.new) links.new (C.readings clock.new) steps.new
            (all_turns (length (runners_of self.old)) turns all)) }
        ensures uncalled { OnOk result ((all : Together) → Stand L.coming L.sent (runners_of self.old)
            links.old (C.readings clock.old) steps.old all →
            NoneCallsFor (length (runners_of self.old)) turns all) }
        ensures cut { IfErr result (λ fault. (all : Together) →
            Stand L.coming L.sent (runners_of self.old) links.old (C.readings clock.old)
            steps.old all → AreCutAfterTurns L.coming L.sent (runners_of self.new) links.new
            (C.readings clock.new) turns all fault) }
        ensures nodes { KeepsNodes (runners_of self.old) (runners_of self.new) }
        ensures links { KeepsLinks L.faults links.old links.new }
        ensures failed { IfErr result
            (EndsTurn L.faults (runners_of self.old) (runners_of self.new) links.old links.new) }
        ensures quiet { AreStanding (runners_of self.old) → StayQuiet L.faults
            (runners_of self.old) (runners_of self.new) links.old links.new result }
    {
        let mut taken = 0;
        'turns: while taken < turns {
            match take_turn(self.list.as_mut_slice(), links, clock, steps) {
                Ok(()) => {}
                Err(fault) => return Err(fault),
            }
            taken += 1;
        }
        Ok(())
    }

    /// Stops them, and puts each disk back at its place.
    pub fn stop(self, disks: &mut [Option<D>])
        requires { length (runners_of self) ≤ length disks.old }
        ensures stopped { AreStopped (runners_of self) disks.old disks.new }
    {
        let Runners { list, accept: _ } = self;
        let mut list = list;
        'stopping: loop {
            match list.pop() {
                Some(runner) => put_back(disks, list.as_slice().len(), runner.stop()),
                None => break 'stopping,
            }
        }
        list.destroy_empty();
    }
}

/// Puts a disk back at its place.
fn put_back<D: Disk>(disks: &mut [Option<D>], place: usize, disk: D)
    requires { place < length disks.old }
    ensures { disks.new ≡ slice_set disks.old place (Some disk) }
{
    disks[place] = Some(disk);
}

/// Why a run ends whose opening of a node was refused.
fn refusal(id: u8, why: OpenFault) -> Fault
    ensures { result ≡ refusal_of id why }
{
    match why {
        OpenFault::Fault(_) => Fault::Disk(id),
        OpenFault::Damaged(key) => Fault::Damaged(id, key),
    }
}
