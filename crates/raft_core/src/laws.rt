//! Laws of the definitions, each the contract of a function that does nothing.

ghost use Rattle.std.specs.Prelude.{◌≡◌, ◌≤◌, ◌++◌, take, [], ℕ, List, Some, None, Option};
ghost use Rattle.kv_store.specs.declared.fault.Fault.{Fault};
ghost use Rattle.raft_log.specs.declared.durable.Durable.{Durable};
ghost use Rattle.raft_log.specs.DurableViews.{durable_state};
ghost use Rattle.raft_log.specs.Stored.{Stored, after_puts, opening_puts};
ghost use Rattle.raft_model.specs.Handlers.{server_after_all, puts_of_all};
ghost use Rattle.raft_model.specs.Moves.{Move};
ghost use Rattle.raft_model.specs.Server.{RaftServer, put_all};
ghost use Rattle.raft_core.specs.declared.raft.Raft.{Raft};
ghost use Rattle.raft_core.specs.Fits.{Fits};
ghost use Rattle.raft_core.specs.Handled.{LeavesMoves, puts_with_origins};
ghost use Rattle.raft_core.specs.RaftViews.{raft_members};
ghost use Rattle.raft_core.specs.Stands.{StandsFor};
ghost use Rattle.raft_core.specs.StoredPuts.{AreOfNodes, CallWrites, CallFaultIsSticky, PutWithOrigin, VoteForNodes, puts_alone, store_of, stored_puts};
ghost use Rattle.raft_core.specs.Times.{HandedIn, Times, times_after_all};

use disk_model::Disk;

/// Puts that were made by two calls, one after the other, are those of both. Where the first call failed
/// there is no second, and a call without puts changes nothing.
pub fn puts_in_turn<D: Disk>()
    ensures nothing { (durable : Durable D D.Disk) → CallWrites [] durable durable None }
    ensures joined { (xs ys : List PutWithOrigin) (old mid new : Durable D D.Disk) (failed : Option Fault) →
        CallWrites xs old mid None → CallWrites ys mid new failed → CallWrites (xs ++ ys) old new failed }
    ensures faults { (old mid new : Durable D D.Disk) (failed : Option Fault) →
        CallFaultIsSticky old mid None → CallFaultIsSticky mid new failed → CallFaultIsSticky old new failed }
    ensures cut_off { (xs ys : List PutWithOrigin) (old new : Durable D D.Disk) (fault : Fault) →
        CallWrites xs old new (Some fault) → CallWrites (xs ++ ys) old new (Some fault) }
{
    raft_log::laws::puts_in_turn::<D>();
}

/// Moves that were made by two calls of a step, one after the other, are those of both. Each call was
/// given what it was given: its puts have the origins that it says, and the times are those that the second
/// leaves, which began with those of the first. Where the first call failed there is no second, and a call
/// without moves changes nothing.
pub fn moves_in_turn<D: Disk>()
    ensures nothing { (members : List ℕ) (member step : ℕ) (server : RaftServer) (times : Times)
        (durable : Durable D D.Disk) (raft : Raft) →
        StandsFor raft members (durable_state durable) server times →
        LeavesMoves members member step [] server [] times durable durable raft None }
    ensures joined { (members : List ℕ) (member step : ℕ) (xs ys : List Move) (server : RaftServer)
        (one two : List PutWithOrigin) (first second : Times)
        (old mid new : Durable D D.Disk) (before after : Raft) (failed : Option Fault) →
        LeavesMoves members member step xs server one first old mid before None →
        LeavesMoves members member step ys (server_after_all members member step server xs)
        two second mid new after failed →
        LeavesMoves members member step (xs ++ ys) server (one ++ two) second old new after failed }
    ensures cut_off { (members : List ℕ) (member step : ℕ) (xs ys : List Move) (server : RaftServer)
        (one two : List PutWithOrigin) (first second : Times)
        (old new : Durable D D.Disk) (raft after : Raft) (fault : Fault) →
        LeavesMoves members member step xs server one first old new raft (Some fault) →
        puts_alone two
        ≡ puts_of_all members member step (server_after_all members member step server xs) ys →
        LeavesMoves members member step (xs ++ ys) server (one ++ two) second
        old new after (Some fault) }
    ensures times { (members : List ℕ) (member step : ℕ) (given : HandedIn) (xs ys : List Move)
        (server : RaftServer) (times : Times) →
        times_after_all members member step given server (xs ++ ys) times
        ≡ times_after_all members member step given
        (server_after_all members member step server xs) ys
        (times_after_all members member step given server xs times) }
{
    puts_in_turn::<D>();
    raft_model::laws::law_joined();
}

/// Puts that are noted with their origins are the puts of the Raft model, of moves and of moves one after the
/// other.
pub fn noted_puts_are_the_puts()
    ensures raft_server { (members : List ℕ) (member step : ℕ) (given : HandedIn)
        (server : RaftServer) (moves : List Move) →
        puts_alone (puts_with_origins members member step given server moves)
        ≡ puts_of_all members member step server moves }
    ensures both { (xs ys : List PutWithOrigin) → puts_alone (xs ++ ys) ≡ puts_alone xs ++ puts_alone ys }
    ensures front { (puts : List PutWithOrigin) (count : ℕ) →
        puts_alone (take count puts) ≡ take count (puts_alone puts) }
    ensures in_turn { (members : List ℕ) (member step : ℕ) (given : HandedIn)
        (server : RaftServer) (xs ys : List Move) →
        puts_with_origins members member step given server (xs ++ ys)
        ≡ puts_with_origins members member step given server xs ++ puts_with_origins members member step given
        (server_after_all members member step server xs) ys }
{}

/// What is stored after the puts of a member is what the Raft model's server has after them, and so after
/// some of the first of them: a stop leaves the server that the Raft model has then. The Raft model's vote for
/// node 0 would be stored as none; no move of a member makes one.
pub fn puts_are_stored()
    ensures votes { (members : List ℕ) (member step : ℕ) (server : RaftServer) (moves : List Move) →
        1 ≤ member → AreOfNodes moves →
        VoteForNodes (puts_of_all members member step server moves) }
    ensures same { (puts : List PutWithOrigin) (state : Stored) → VoteForNodes (puts_alone puts) →
        store_of (after_puts (stored_puts puts state) state)
        ≡ put_all (store_of state) (puts_alone puts) }
    ensures front { (puts : List PutWithOrigin) (state : Stored) (count : ℕ) →
        VoteForNodes (puts_alone puts) →
        store_of (after_puts (take count (stored_puts puts state)) state)
        ≡ put_all (store_of state) (take count (puts_alone puts)) }
{}

/// An opening that gives a store its second form changes nothing of what the Raft model's server has stored,
/// wherever it is cut: the Raft model knows no origins.
pub fn an_opening_keeps_the_store()
    ensures { (state : Stored) (count : ℕ) →
        store_of (after_puts (take count (opening_puts state)) state) ≡ store_of state }
{}

/// Every member, with whatever it has stored, stands for some server and some times, and counts the
/// members of its last election. So what a call says of each server that the member stands for, and
/// names no server, it says of the member.
pub fn every_member_stands()
    ensures { (raft : Raft) (state : Stored) → (server : RaftServer) × (times : Times) ×
        StandsFor raft (raft_members raft) state server times }
{}

/// That a member fits what it has stored has one proof, as a ghost field of a struct has.
pub fn a_fit_is_one()
    ensures { (raft : Raft) (state : Stored) (a b : Fits raft state) → a ≡ b }
{}
