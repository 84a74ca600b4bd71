//! Laws of the Raft model, each the contract of a function that does nothing.
//!
//! A run is any list of events that may come, from empty stores on: openings, whole steps, and stops between
//! any two puts of a step. A law of every run holds after each event of it, stops included.

ghost use Rattle.std.specs.Prelude.{ℕ, Bool, true, false, List, [], ◌++◌, ◌∷◌, ◌≡◌, ◌≢◌, ◌↔◌, ◌<◌, ◌≤◌, length, take};
ghost use Rattle.std.specs.Prelude.{get_or, Some, None};
ghost use Rattle.can_frame.specs.declared.entry.Entry.{Entry};
ghost use Rattle.can_frame.specs.Log.{IsInjective, blank, last_term, log_limit};
ghost use Rattle.can_frame.specs.Zeros.{zeros};
ghost use Rattle.raft_model.specs.Lists.{In, how_many};
ghost use Rattle.raft_model.specs.Log.{IsRising};
ghost use Rattle.raft_model.specs.Messages.{Answer, Message, Pair, Request};
ghost use Rattle.raft_model.specs.Messages.Message.{Answers, Pairs, Requests};
ghost use Rattle.raft_model.specs.Server.{AreWritten, RaftServer, Store, memory_when_opened, put_all, quorum};
ghost use Rattle.raft_model.specs.Server.Role.{Candidate, Follower, Leader};
ghost use Rattle.raft_model.specs.Moves.{CanCommit, IsEnabled, IsCommitIndex, IsGranted, IsHeard, IsJudged, MayCall, MayPropose};
ghost use Rattle.raft_model.specs.Moves.{Move, Verdict, has_matched, memory_after, puts, term_limit, with_term};
ghost use Rattle.raft_model.specs.Moves.Move.{AnswerAgain, CallForVote, CallToAppend, CommitTo, GiveUp, ProposeEntry};
ghost use Rattle.raft_model.specs.Moves.Move.{TakeAppendAnswer, TakeAppendRequest, TakeVoteAnswer, TakeVoteRequest};
ghost use Rattle.raft_model.specs.Moves.Move.{TellNothing, TellPair, TimeOut};
ghost use Rattle.raft_model.specs.Decisions.{commit_index, grants, verdict_on, may_propose};
ghost use Rattle.raft_model.specs.Members.{IsAll, KnowsEnough, counts_votes};
ghost use Rattle.raft_model.specs.Handlers.{IsBreak, IsCut, calls_of_all, offers_of_all, server_after};
ghost use Rattle.raft_model.specs.Handlers.{server_after_all, puts_of_all};
ghost use Rattle.raft_model.specs.Fit.{IsFit};
ghost use Rattle.raft_model.specs.Duty.{BlankDuty, CommitDuty, TellDuty, TickDuty, WinDuty};
ghost use Rattle.raft_model.specs.Duty.{blank_moves, commit_phase, is_heard, tell_phase, tick_phase};
ghost use Rattle.raft_model.specs.Stops.{AllEnabled, LocalState, state_after_moves};
ghost use Rattle.raft_model.specs.OneLog.{HasOneLog, HasOnePast};
ghost use Rattle.raft_model.specs.Runs.{Event, FromEachMoment, InEveryRun, Lawful, MayOccur, World, after};
ghost use Rattle.raft_model.specs.Runs.{initial_world, run, local_state_after};
ghost use Rattle.raft_model.specs.Runs.Event.{Steps, Stops, StopsWithin};
ghost use Rattle.raft_model.specs.Rows.{IsAtWork, IsReady, MayTake};
ghost use Rattle.raft_model.specs.Invariants.{AcknowledgedKept, AcknowledgedVoted, CallsSound, CommitsSettled};
ghost use Rattle.raft_model.specs.Invariants.{Invariants, LeadersComplete, LeadersElected, LogsMatch, StaysSettled};
ghost use Rattle.raft_model.specs.Invariants.{StoresSound, VotesBound};
ghost use Rattle.raft_model.specs.Safety.{IsGivenOnce, IsSafe, Lasts};

use can_frame::laws::node_ids_are_given_once;

/// Every run keeps the nine invariants and is safe: at each moment, after any number of the puts of a step
/// that may come, and from each moment to every later one.
pub fn law_every_run()
    ensures invariants { InEveryRun Invariants }
    ensures safe { InEveryRun IsSafe }
    ensures prefixes { InEveryRun (λ world. (member step : ℕ) (moves : List Move) (next : Move)
        (rest : List Move) (fitted : List Message) (count : ℕ)
        → MayOccur world (Steps member step (moves ++ (next ∷ rest)) fitted)
        → Invariants (after world (StopsWithin member step moves next count))
        × IsSafe (after world (StopsWithin member step moves next count))) }
    ensures lasts { FromEachMoment Lasts }
{}

/// What is stored is sound, and a vote binds its voter.
pub fn law_stored()
    ensures stores { InEveryRun StoresSound }
    ensures votes { InEveryRun VotesBound }
{}

/// A leader was elected by a quorum, and calls and answers are what they say.
pub fn law_votes()
    ensures leaders { InEveryRun LeadersElected }
    ensures calls { InEveryRun CallsSound }
{}

/// Logs with an entry of one term at one place agree up to there.
pub fn law_matching()
    ensures logs { InEveryRun LogsMatch }
{}

/// What a member acknowledged it keeps, and takes into its later votes, unless a later leader diverges: any
/// number of places up to the reach of its answer, and so just those of its reach.
pub fn law_acknowledged()
    ensures kept { InEveryRun (AcknowledgedKept ◌≤◌) }
    ensures voted { InEveryRun (AcknowledgedVoted ◌≤◌) }
    ensures kept_exactly { InEveryRun (AcknowledgedKept ◌≡◌) }
    ensures voted_exactly { InEveryRun (AcknowledgedVoted ◌≡◌) }
{}

/// What a quorum acknowledged stands in the list of every later leader, and only that is committed. It stays
/// so through the run.
pub fn law_commit()
    ensures complete { InEveryRun LeadersComplete }
    ensures commits { InEveryRun CommitsSettled }
    ensures safe { InEveryRun IsSafe }
    ensures settled { FromEachMoment StaysSettled }
{}

/// What a member has committed is contradicted by no append request whose term is not below its own: one that has an
/// entry for such a place has the entry that stands there, and of a committed place before its entry it names the
/// term that stands there. Whoever is sent another one is sent it from another log.
pub fn law_one_log()
    ensures log { InEveryRun HasOneLog }
    ensures past { InEveryRun HasOnePast }
{
    law_stored();
    law_matching();
    law_commit();
}

/// What a reservation is for. Two pairs of the ledger have different node IDs and different unique IDs, and
/// no pair has a reserved node ID. Whoever is told a node ID is told a pair of the ledger: a reservation is
/// told to nobody, and nobody is told the node ID that it keeps back.
pub fn law_reservations()
    ensures { InEveryRun IsGivenOnce }
{
    node_ids_are_given_once();
}

/// Only a Leader's commit makes the ledger longer, so a stamp is always the term of a leader. Any other move
/// leaves it, whole or cut.
pub fn law_ledger()
    ensures waits { InEveryRun (λ world. (member step : ℕ) (moves : List Move) (next : Move)
        (rest : List Move) (fitted : List Message)
        → MayOccur world (Steps member step (moves ++ (next ∷ rest)) fitted)
        → ((index : ℕ) → next ≢ CommitTo index)
        → (local_state_after world member step (moves ++ (next ∷ []))).ledger
        ≡ (local_state_after world member step moves).ledger) }
    ensures cut { InEveryRun
        (λ world. (member step : ℕ) (moves : List Move) (next : Move) (count : ℕ)
        → MayOccur world (StopsWithin member step moves next count)
        → ((index : ℕ) → next ≢ CommitTo index)
        → (after world (StopsWithin member step moves next count)).ledger
        ≡ (local_state_after world member step moves).ledger) }
    ensures leader { (members : List ℕ) (member : ℕ) (bag : List Message) (called : List ℕ)
        (server : RaftServer) (index : ℕ)
        → IsEnabled members member bag called server (CommitTo index) → server.memory.role ≡ Leader }
{}

/// A step that may come may also be stopped: after any of its moves, and after any number of the puts of
/// the next one. Any number of the puts of a step, up to all of them, ends within one of its moves; a put
/// that failed stands in one of them, and whether a stop finds it undone or done, it is a stop within this
/// move. What is stored then is what was stored before the step, with these puts.
pub fn law_stops()
    ensures stop { (world : World) (member step : ℕ) (moves : List Move) (next : Move)
        (rest : List Move) (fitted : List Message) (count : ℕ)
        → MayOccur world (Steps member step (moves ++ (next ∷ rest)) fitted)
        → MayOccur world (StopsWithin member step moves next count) }
    ensures between { (world : World) (member step : ℕ) (moves rest : List Move)
        (fitted : List Message)
        → MayOccur world (Steps member step (moves ++ rest) fitted)
        → MayOccur world (Stops member step moves) }
    ensures cut { (members : List ℕ) (member step : ℕ) (server : RaftServer) (moves : List Move)
        (count : ℕ)
        → 0 < length (puts_of_all members member step server moves)
        → count ≤ length (puts_of_all members member step server moves)
        → IsCut members member step server moves count }
    ensures failed { (members : List ℕ) (member step : ℕ) (server : RaftServer) (moves : List Move)
        (done : ℕ)
        → done < length (puts_of_all members member step server moves)
        → IsBreak members member step server moves done }
    ensures stored { (world : World) (member step : ℕ) (moves : List Move) (next : Move) (count : ℕ)
        → let server = world.server member in
        ((after world (StopsWithin member step moves next count)).server member).store
        ≡ put_all server.store (puts_of_all world.members member step server moves
        ++ take count (puts world.members member
        (server_after_all world.members member step server moves) next)) }
{}

/// Each move puts an entry just before it raises last by it, and so does a step of many moves.
pub fn law_puts()
    ensures of_move { (members : List ℕ) (member : ℕ) (server : RaftServer) (move : Move)
        → AreWritten None (puts members member server move) }
    ensures of_step { (members : List ℕ) (member step : ℕ) (server : RaftServer) (moves : List Move)
        → AreWritten None (puts_of_all members member step server moves) }
{}

/// A run grows by one event at its end. Two lists of events, one after the other, are one run, which is
/// lawful exactly where each is in its turn.
pub fn law_one_more()
    ensures run { (world : World) (events : List Event) (event : Event)
        → run world (events ++ (event ∷ [])) ≡ after (run world events) event }
    ensures lawful { (world : World) (events : List Event) (event : Event) → Lawful world events
        → MayOccur (run world events) event → Lawful world (events ++ (event ∷ [])) }
    ensures joined { (world : World) (first second : List Event)
        → run world (first ++ second) ≡ run (run world first) second }
    ensures come { (world : World) (first second : List Event) → Lawful world first
        → Lawful (run world first) second → Lawful world (first ++ second) }
    ensures apart { (world : World) (first second : List Event) → Lawful world (first ++ second)
        → Lawful world first × Lawful (run world first) second }
{}

/// Moves told of the plain server alone are those of its step: the server after them, what is stored then,
/// the messages that they offer, and the peers that they call.
pub fn law_handlers()
    ensures raft_server { (members : List ℕ) (member step : ℕ) (moves : List Move) (local_state : LocalState)
        → (state_after_moves members member step local_state moves).raft_server
        ≡ server_after_all members member step local_state.raft_server moves }
    ensures store { (members : List ℕ) (member step : ℕ) (moves : List Move) (server : RaftServer)
        → (server_after_all members member step server moves).store
        ≡ put_all server.store (puts_of_all members member step server moves) }
    ensures offers { (members : List ℕ) (member step : ℕ) (moves : List Move) (local_state : LocalState)
        → (state_after_moves members member step local_state moves).offered
        ≡ offers_of_all members member step local_state.raft_server moves ++ local_state.offered }
    ensures calls { (members : List ℕ) (member step : ℕ) (moves : List Move) (local_state : LocalState)
        → (state_after_moves members member step local_state moves).called ≡ calls_of_all moves ++ local_state.called }
{}

/// Two lists of moves, one after the other, are one: the server after them, their puts and offers; and they
/// may come together exactly where each may come in its turn.
pub fn law_joined()
    ensures server { (members : List ℕ) (member step : ℕ) (first second : List Move)
        (server : RaftServer)
        → server_after_all members member step server (first ++ second)
        ≡ server_after_all members member step
        (server_after_all members member step server first) second }
    ensures puts { (members : List ℕ) (member step : ℕ) (first second : List Move) (server : RaftServer)
        → puts_of_all members member step server (first ++ second)
        ≡ puts_of_all members member step server first
        ++ puts_of_all members member step
        (server_after_all members member step server first) second }
    ensures offers { (members : List ℕ) (member step : ℕ) (first second : List Move)
        (server : RaftServer)
        → offers_of_all members member step server (first ++ second)
        ≡ offers_of_all members member step
        (server_after_all members member step server first) second
        ++ offers_of_all members member step server first }
    ensures local_state { (members : List ℕ) (member step : ℕ) (first second : List Move) (local_state : LocalState)
        → state_after_moves members member step local_state (first ++ second)
        ≡ state_after_moves members member step (state_after_moves members member step local_state first) second }
    ensures come { (members : List ℕ) (member step : ℕ) (bag : List Message)
        (first second : List Move) (local_state : LocalState)
        → AllEnabled members member step bag local_state first
        → AllEnabled members member step bag (state_after_moves members member step local_state first) second
        → AllEnabled members member step bag local_state (first ++ second) }
    ensures apart { (members : List ℕ) (member step : ℕ) (bag : List Message)
        (first second : List Move) (local_state : LocalState)
        → AllEnabled members member step bag local_state (first ++ second)
        → AllEnabled members member step bag local_state first
        × AllEnabled members member step bag (state_after_moves members member step local_state first) second }
{}

/// What a server decides is what the moves ask for, and they ask for nothing else: whether a vote is
/// granted, what becomes of an append request, whether an entry may be proposed, and the index to which a
/// leader commits.
pub fn law_decisions()
    ensures granted { (store : Store) (request : Request)
        → IsGranted store request (grants store request) }
    ensures one_grant { (store : Store) (request : Request) (granted : Bool)
        → IsGranted store request granted → granted ≡ grants store request }
    ensures judged { (server : RaftServer) (request : Request)
        → IsJudged server request (verdict_on server request) }
    ensures one_verdict { (server : RaftServer) (request : Request) (verdict : Verdict)
        → IsJudged server request verdict
        → verdict ≡ verdict_on server request }
    ensures proposal { (server : RaftServer) (entry : Entry)
        → (may_propose server entry ≡ true) ↔ MayPropose server entry }
    ensures commit { (members : List ℕ) (member : ℕ) (server : RaftServer) (index : ℕ)
        → commit_index members member server ≡ Some index
        → IsCommitIndex members member server index }
    ensures one_commit { (members : List ℕ) (member : ℕ) (server : RaftServer) (index : ℕ)
        → IsCommitIndex members member server index
        → commit_index members member server ≡ Some index }
    ensures no_commit { (members : List ℕ) (member : ℕ) (server : RaftServer)
        → commit_index members member server ≡ None → (index : ℕ)
        → CanCommit members member server index → ⊥ }
{}

/// A server that knows all members counts over its own list what the Raft model counts over all of them, and a
/// move that may come by this list may come. A move that counts no votes needs no list, nor does a Follower.
/// The puts of a move are the same over any list.
/// So the moves of a step told over its own list are those over all members: the same server after them, the
/// same puts, messages and memory of the model, and they may come. A Follower that does not stand for election
/// needs no list of all for it.
pub fn law_members()
    ensures count { (list members : List ℕ) (test : ℕ → Bool) → IsAll list members
        → how_many test list ≡ how_many test members }
    ensures puts { (list members : List ℕ) (member : ℕ) (server : RaftServer) (move : Move)
        → puts list member server move ≡ puts members member server move }
    ensures memory { (list members : List ℕ) (member step : ℕ) (server : RaftServer) (move : Move)
        → (counts_votes server move ≡ true → IsAll list members)
        → memory_after list member step server move ≡ memory_after members member step server move }
    ensures commit { (list members : List ℕ) (member : ℕ) (server : RaftServer) → IsAll list members
        → commit_index list member server ≡ commit_index members member server }
    ensures heard { (list members : List ℕ) (member : ℕ) (server : RaftServer) → IsAll list members
        → is_heard list member server ≡ is_heard members member server }
    ensures come { (list members : List ℕ) (member : ℕ) (bag : List Message) (called : List ℕ)
        (server : RaftServer) (move : Move)
        → (server.memory.role ≢ Follower → IsAll list members)
        → IsEnabled list member bag called server move → IsEnabled members member bag called server move }
    ensures all_after { (list members : List ℕ) (member step : ℕ) (server : RaftServer)
        (moves : List Move)
        → KnowsEnough list members server moves
        → server_after_all list member step server moves
        ≡ server_after_all members member step server moves }
    ensures all_puts { (list members : List ℕ) (member step : ℕ) (server : RaftServer)
        (moves : List Move)
        → KnowsEnough list members server moves
        → puts_of_all list member step server moves ≡ puts_of_all members member step server moves }
    ensures all_offers { (list members : List ℕ) (member step : ℕ) (server : RaftServer)
        (moves : List Move)
        → KnowsEnough list members server moves
        → offers_of_all list member step server moves
        ≡ offers_of_all members member step server moves }
    ensures all_local_state { (list members : List ℕ) (member step : ℕ) (local_state : LocalState) (moves : List Move)
        → KnowsEnough list members local_state.raft_server moves
        → state_after_moves list member step local_state moves
        ≡ state_after_moves members member step local_state moves }
    ensures all_come { (list members : List ℕ) (member step : ℕ) (bag : List Message) (local_state : LocalState)
        (moves : List Move)
        → KnowsEnough list members local_state.raft_server moves
        → AllEnabled list member step bag local_state moves → AllEnabled members member step bag local_state moves }
{}

/// A server that opens is fit, every move that may come keeps it fit, and so is each server of every run.
pub fn law_fit()
    ensures opened { (member : ℕ) (store : Store)
        → IsFit member (record { store = store; memory = memory_when_opened }) }
    ensures kept { (members : List ℕ) (member step : ℕ) (bag : List Message) (called : List ℕ)
        (server : RaftServer) (move : Move)
        → IsEnabled members member bag called server move → IsFit member server
        → IsFit member (server_after members member step server move) }
    ensures run { (members : List ℕ) (events : List Event) (member : ℕ)
        → Lawful (initial_world members) events
        → IsFit member ((run (initial_world members) events).server member) }
{}

/// The phases of a finished step may come at any server, and do what is owed: a server that has waited
/// stands for the next term, a leader's commit is the greatest, a committed pair is told where there is
/// room, a full log takes no proposal, and a Candidate that counts a quorum leads: after each move, and in
/// every run. A blank is proposed like any entry, at a log that is injective: by a Leader, where something is
/// not committed and there is room. A Leader is heard where a quorum has matched its whole log and the last
/// entry is of an earlier term: then it can commit nothing before it adds an entry of its own term.
pub fn law_duty()
    ensures tick_comes { (members : List ℕ) (member step : ℕ) (bag : List Message) (waited : Bool)
        (local_state : LocalState)
        → AllEnabled members member step bag local_state (tick_phase waited local_state.raft_server) }
    ensures tick { (members : List ℕ) (member step : ℕ) (server : RaftServer)
        → server.memory.role ≢ Leader → server.store.term < term_limit
        → TickDuty server (server_after_all members member step server (tick_phase true server)) }
    ensures blank_comes { (members : List ℕ) (member step : ℕ) (bag : List Message) (local_state : LocalState)
        → IsInjective local_state.raft_server.store.log
        → AllEnabled members member step bag local_state (blank_moves local_state.raft_server) }
    ensures blank { (members : List ℕ) (member step : ℕ) (server : RaftServer)
        → BlankDuty server (server_after_all members member step server (blank_moves server))
        (offers_of_all members member step server (blank_moves server)) }
    ensures heard { (members : List ℕ) (member : ℕ) (server : RaftServer)
        → (is_heard members member server ≡ true) ↔ ((last_term server.store.log < server.store.term)
        × (quorum members ≤ how_many (has_matched member server (length server.store.log)) members)) }
    ensures heard_waits { (members : List ℕ) (member : ℕ) (server : RaftServer) (index : ℕ)
        → IsRising server.store.log server.store.term → is_heard members member server ≡ true
        → CanCommit members member server index → ⊥ }
    ensures commit_comes { (members : List ℕ) (member step : ℕ) (bag : List Message) (local_state : LocalState)
        → AllEnabled members member step bag local_state (commit_phase members member local_state.raft_server) }
    ensures commit { (members : List ℕ) (member step : ℕ) (server : RaftServer)
        → server.memory.role ≡ Leader
        → CommitDuty members member server
        (server_after_all members member step server (commit_phase members member server)) }
    ensures tell_comes { (members : List ℕ) (member step : ℕ) (bag : List Message) (room : Bool)
        (local_state : LocalState)
        → AllEnabled members member step bag local_state (tell_phase room local_state.raft_server) }
    ensures tell { (members : List ℕ) (member step : ℕ) (room : Bool) (server : RaftServer)
        → server.memory.role ≡ Leader
        → TellDuty member step room server
        (server_after_all members member step server (tell_phase room server))
        (offers_of_all members member step server (tell_phase room server)) }
    ensures full { (server : RaftServer) (entry : Entry) → length server.store.log ≡ log_limit
        → MayPropose server entry → ⊥ }
    ensures win_kept { (members : List ℕ) (member step : ℕ) (bag : List Message) (called : List ℕ)
        (server : RaftServer) (move : Move)
        → IsEnabled members member bag called server move → WinDuty members server
        → WinDuty members (server_after members member step server move) }
    ensures win { (members : List ℕ) (events : List Event) (member : ℕ)
        → Lawful (initial_world members) events
        → WinDuty members ((run (initial_world members) events).server member) }
{}

/// Each row of the table whose condition holds is a lawful step by itself, so the Raft model is not empty. An answer
/// that a pending call takes is in the bag, or it is late: it has the verdict and the term of some answer in the bag,
/// and refuses or has a term below the server's own.
pub fn law_rows()
    ensures time_out { (world : World) (member step : ℕ) → IsReady world member step
        → (world.server member).memory.role ≢ Leader
        → (world.server member).store.term < term_limit → MayTake world member step TimeOut }
    ensures vote_request { (world : World) (member step : ℕ) (request : Request)
        → IsReady world member step → In (Requests request) world.bag
        → request.to ≡ member → request.append ≡ false
        → MayTake world member step
        (TakeVoteRequest request
        (grants (with_term (world.server member).store request.term) request)) }
    ensures vote_answer { (world : World) (member step : ℕ) (answer : Answer)
        → IsReady world member step → IsHeard world.bag (world.server member).store answer
        → answer.request.from ≡ member → answer.request.append ≡ false
        → (world.server member).memory.pending answer.from ≡ Some answer.request
        → MayTake world member step (TakeVoteAnswer answer) }
    ensures append_request { (world : World) (member step : ℕ) (request : Request)
        → IsReady world member step → In (Requests request) world.bag
        → request.to ≡ member → request.append ≡ true
        → MayTake world member step
        (TakeAppendRequest request (verdict_on (world.server member) request)) }
    ensures append_answer { (world : World) (member step : ℕ) (answer : Answer)
        → IsReady world member step → IsHeard world.bag (world.server member).store answer
        → answer.request.from ≡ member → answer.request.append ≡ true
        → (world.server member).memory.pending answer.from ≡ Some answer.request
        → MayTake world member step (TakeAppendAnswer answer) }
    ensures propose { (world : World) (member step : ℕ) (entry : Entry) → IsReady world member step
        → MayPropose (world.server member) entry
        → MayTake world member step (ProposeEntry entry) }
    ensures commit { (world : World) (member step index : ℕ) → IsReady world member step
        → (world.server member).memory.role ≡ Leader
        → commit_index world.members member (world.server member) ≡ Some index
        → MayTake world member step (CommitTo index) }
    ensures tell { (world : World) (member step : ℕ) → IsReady world member step
        → let server = world.server member in
        server.memory.role ≡ Leader → server.memory.told < server.store.commit
        → (get_or server.store.log server.memory.told (blank 0)).uid ≢ zeros
        → MayTake world member step TellPair }
    ensures pass_over { (world : World) (member step : ℕ) → IsReady world member step
        → let server = world.server member in
        server.memory.role ≡ Leader → server.memory.told < server.store.commit
        → (get_or server.store.log server.memory.told (blank 0)).uid ≡ zeros
        → MayTake world member step TellNothing }
    ensures call_for_vote { (world : World) (member step peer : ℕ) → IsReady world member step
        → (world.server member).memory.role ≡ Candidate
        → MayCall world.members member [] (world.server member) peer
        → MayTake world member step (CallForVote peer) }
    ensures call_to_append { (world : World) (member step peer previous : ℕ) (with_entry : Bool)
        → IsReady world member step
        → (world.server member).memory.role ≡ Leader
        → previous ≤ length (world.server member).store.log
        → MayCall world.members member [] (world.server member) peer
        → MayTake world member step (CallToAppend peer previous with_entry) }
    ensures answer_again { (world : World) (member step place : ℕ) → IsReady world member step
        → let server = world.server member in
        place < server.store.commit → (get_or server.store.log place (blank 0)).uid ≢ zeros
        → MayTake world member step (AnswerAgain place) }
    ensures give_up { (world : World) (member step peer : ℕ) → IsReady world member step
        → MayTake world member step (GiveUp peer) }
{}

/// The Raft model does something: three members come to a leader that has committed an entry and told its pair,
/// and go on to one that has committed a reservation too, and has passed it over.
pub fn law_example()
    ensures pair { (events : List Event) × Lawful (initial_world (1 ∷ 2 ∷ 3 ∷ [])) events
        × (length (run (initial_world (1 ∷ 2 ∷ 3 ∷ [])) events).ledger.entries ≡ 1)
        × ((pair : Pair) × In (Pairs pair) (run (initial_world (1 ∷ 2 ∷ 3 ∷ [])) events).bag) }
    ensures reservation { (events : List Event) × Lawful (initial_world (1 ∷ 2 ∷ 3 ∷ [])) events
        × IsAtWork (run (initial_world (1 ∷ 2 ∷ 3 ∷ [])) events) 1 }
{}
