//! Laws of single rows: what a world shows of a run of the Raft model, it shows after a row too. Each
//! is the contract of a function that does nothing.

ghost use Rattle.std.specs.Prelude.{◌≡◌, ◌==◌, ◌+◌, ◌∷◌, [], ℕ, Bool, List, None, false, true};
ghost use Rattle.can_frame.specs.declared.frame.Frame.{Frame};
ghost use Rattle.outside.specs.declared.pattern.Pattern.{Pattern};
ghost use Rattle.raft_log.specs.KeyDisk.{are_put, is_open_on};
ghost use Rattle.raft_model.specs.Duty.{WinDuty};
ghost use Rattle.raft_model.specs.Invariants.{Invariants};
ghost use Rattle.raft_model.specs.Lists.{In};
ghost use Rattle.raft_model.specs.Runs.{MayOccur, World, after, initial_world};
ghost use Rattle.raft_model.specs.Runs.{Event as RunEvent};
ghost use Rattle.raft_model.specs.Runs.Event.{Opens, Steps, Stops};
ghost use Rattle.bus_rows.specs.declared.row.Row.{Row};
ghost use Rattle.bus_rows.specs.declared.row.Row.TheVariants.{AEnd, AOpen, ARx, ASend, ATick, Crash, Ext, Fault, Open, Send};
ghost use Rattle.alloc_spec_laws.specs.Sound.{IsOnTheBus};
ghost use Rattle.alloc_spec.specs.StepState.{messages};
ghost use Rattle.alloc_spec.specs.Step.{Event, step};
ghost use Rattle.alloc_spec.specs.AllocatorState.{AllocatorState};
ghost use Rattle.alloc_spec.specs.Transfers.{SentTransfer};
ghost use Rattle.bus_agreement.specs.Continues.{Continues};
ghost use Rattle.bus_agreement.specs.Duty.{DoesItsDuty};
ghost use Rattle.bus_agreement.specs.Events.{MayHappen};
ghost use Rattle.bus_agreement.specs.Said.{IsRunWritable};
ghost use Rattle.bus_agreement.specs.Shows.{Shows};
ghost use Rattle.alloc_spec.specs.ClusterMembers.{AreMembers};
ghost use Rattle.bus_spec.specs.Cluster.{Cluster, cluster, after_row, with_step};
ghost use Rattle.bus_spec.specs.Lawful.{DoesNoHarm, cause};
ghost use Rattle.bus_spec.specs.Members.{Failure, puts_of};
ghost use Rattle.bus_spec.specs.Members.MemberStatus.{Down, Failed, Up};
ghost use Rattle.bus_spec.specs.Choices.{RowAgreesWithDisk};
ghost use Rattle.bus_spec.specs.Refinement.{cut_events, transfers_of_row, transfers_of_offers, row_events};

use crate::below::{
    what_a_step_keeps, what_is_said_of_a_step, what_is_said_of_frames, what_is_said_of_messages,
};
use alloc_spec_laws::laws::{
    blanks_wait_to_be_heard, duty_of_a_step, members_of_a_step, moves_of_a_step,
    steps_stay_in_range,
};
use alloc_spec_laws::nodes::{a_node_that_is_heard_keeps_its_id, who_is_asked_answers};
use allocatee::laws::{
    a_node_id_is_given_for_good, its_frames_are_anonymous, sessions_of_a_step as sessions_at,
    what_is_fine_is_not_torn,
};
use raft_core::laws::{an_opening_keeps_the_store, puts_are_stored};
use raft_log::laws::the_disk_by_states;
use raft_model::laws::law_joined;
use transfer_rx::laws::frames_are_kept_under_their_key;

/// Rows that show no event leave the run: a frame from outside, a frame that a member sends, and a stop or a
/// failure that is armed for a later call of a disk.
pub fn rows_without_events_are_shown()
    ensures outside { (choice : ℕ → Bool) (made : List SentTransfer) (w : Cluster) (run : World) →
        Shows choice made w run → (frame : Frame) → cause w (Ext frame) ≡ None →
        Shows choice made (after_row w (Ext frame)) run }
    ensures sent { (choice : ℕ → Bool) (made : List SentTransfer) (w : Cluster) (run : World) →
        AreMembers w.ids → Shows choice made w run → (n : ℕ) → cause w (Send n) ≡ None →
        Shows choice made (after_row w (Send n)) run }
    ensures stop_armed { (choice : ℕ → Bool) (made : List SentTransfer) (w : Cluster) (run : World) →
        Shows choice made w run → (n calls : ℕ) (pattern : Pattern) → (calls == 0) ≡ false →
        Shows choice made (after_row w (Crash n calls pattern)) run }
    ensures failure_armed { (choice : ℕ → Bool) (made : List SentTransfer) (w : Cluster) (run : World) →
        Shows choice made w run → (n call : ℕ) → Shows choice made (after_row w (Fault n call)) run }
{
    moves_of_a_step();
    steps_stay_in_range();
    what_is_said_of_frames();
}

/// Rows of allocatees leave the run as it is. What an allocatee offers is anonymous, its sessions keep frames of
/// the bus, and the node ID that it holds was given by a member: a frame that it may take delivers nothing torn,
/// and an Allocation with a source is a member's.
pub fn rows_of_allocatees_are_shown()
    ensures came { (choice : ℕ → Bool) (made : List SentTransfer) (w : Cluster) (run : World) →
        Shows choice made w run → (a : ℕ) (uid : List ℕ) (pref ms word : ℕ) →
        Shows choice made (after_row w (AOpen a uid pref ms word)) run }
    ensures ticked { (choice : ℕ → Bool) (made : List SentTransfer) (w : Cluster) (run : World) →
        AreMembers w.ids → Shows choice made w run → (a ms word : ℕ) →
        Shows choice made (after_row w (ATick a ms word)) run }
    ensures received { (choice : ℕ → Bool) (made : List SentTransfer) (w : Cluster) (run : World) →
        AreMembers w.ids → Shows choice made w run → (a k ms word : ℕ) →
        cause w (ARx a k ms word) ≡ None → Shows choice made (after_row w (ARx a k ms word)) run }
    ensures sent { (choice : ℕ → Bool) (made : List SentTransfer) (w : Cluster) (run : World) →
        Shows choice made w run → (a : ℕ) → cause w (ASend a) ≡ None →
        Shows choice made (after_row w (ASend a)) run }
    ensures left { (choice : ℕ → Bool) (made : List SentTransfer) (w : Cluster) (run : World) →
        Shows choice made w run → (a : ℕ) → Shows choice made (after_row w (AEnd a)) run }
{
    a_node_id_is_given_for_good();
    frames_are_kept_under_their_key();
    its_frames_are_anonymous();
    sessions_at();
    what_is_fine_is_not_torn();
    what_is_said_of_frames();
}

/// The world without rows shows the beginning of a run.
pub fn the_beginning_is_shown()
    ensures { (choice : ℕ → Bool) (ids : List ℕ) → Shows choice [] (cluster ids) (initial_world ids) }
{}

/// A stop of a running member between two steps is one event of the run, which may come; what the run says
/// still has bytes. A member that failed went down in the run with the step that failed: its stop is no
/// event, where the choice fits what is found.
pub fn stops_are_shown()
    ensures running { (choice : ℕ → Bool) (made : List SentTransfer) (w : Cluster) (run : World) →
        Shows choice made w run → IsRunWritable w.ids run → (n : ℕ) (pattern : Pattern) →
        In n w.ids → (t : AllocatorState) → (w.member n).status ≡ Up t → let event = Stops n (w.rows + 1) [] in
        MayOccur run event × IsRunWritable w.ids (after run event) ×
        Shows choice made (after_row w (Crash n 0 pattern)) (after run event) }
    ensures failed { (choice : ℕ → Bool) (made : List SentTransfer) (w : Cluster) (run : World) →
        Shows choice made w run → (n : ℕ) (pattern : Pattern) → In n w.ids → (failure : Failure) →
        (w.member n).status ≡ Failed failure → RowAgreesWithDisk choice w (Crash n 0 pattern) →
        Shows choice made (after_row w (Crash n 0 pattern)) run }
{}

/// An opening that succeeds is one event of the run, which may come; what it puts changes nothing of what the
/// server of the Raft model has stored, and what the run says still has bytes. An opening that fails, wherever
/// its disk cuts it, is none.
pub fn openings_are_shown()
    ensures opened { (choice : ℕ → Bool) (made : List SentTransfer) (w : Cluster) (run : World) →
        AreMembers w.ids → Shows choice made w run → IsRunWritable w.ids run → (n : ℕ) (told : Bool) (ms word : ℕ) →
        In n w.ids → (w.member n).status ≡ Down → is_open_on (w.member n).disk ≡ true →
        MayOccur run (Opens n) × IsRunWritable w.ids (after run (Opens n)) ×
        Shows choice made (after_row w (Open n told ms word)) (after run (Opens n)) }
    ensures failed { (choice : ℕ → Bool) (made : List SentTransfer) (w : Cluster) (run : World) →
        AreMembers w.ids → Shows choice made w run → (n : ℕ) (told : Bool) (ms word : ℕ) → In n w.ids →
        (w.member n).status ≡ Down → is_open_on (w.member n).disk ≡ false →
        Shows choice made (after_row w (Open n told ms word)) run }
{
    an_opening_keeps_the_store();
    members_of_a_step();
    moves_of_a_step();
    steps_stay_in_range();
    the_disk_by_states();
}

/// A step that finishes is one event of the run, which may come, and what is shown before it is shown after
/// it. The run is safe and what it says has bytes; the step is that of a tick, or of a frame that the member
/// may be given.
pub fn finished_steps_are_shown()
    ensures { (choice : ℕ → Bool) (made : List SentTransfer) (w : Cluster) (run : World) →
        AreMembers w.ids → Shows choice made w run → Invariants run → IsRunWritable w.ids run →
        (n : ℕ) (t : AllocatorState) (event : Event) → In n w.ids → (w.member n).status ≡ Up t →
        MayHappen w.frames t event → IsOnTheBus event →
        let number = w.rows + 1 in let step_state = (step t number event).step_state in
        are_put (puts_of (w.member n) step_state) (w.member n).disk.calls ≡ true →
        let finished = Steps n number step_state.moves (messages number step_state) in
        MayOccur run finished × IsRunWritable w.ids (after run finished) ×
        Shows choice (transfers_of_offers number n step_state.offers made)
        (record (with_step w n event) { rows = number }) (after run finished) }
{
    what_a_step_keeps();
    what_is_said_of_a_step();
    what_is_said_of_frames();
    what_is_said_of_messages();
}

/// Each step of a member does its duty: a leader commits as far as the members of the cluster let it, and tells
/// one place where there is room; who has waited stands for election; who counts a quorum leads, where that was so
/// before; who is asked offers an answer to its queue, even where the answer finds no room there; the node ID of a
/// node that is heard is not given; and a leader that is told its members adds its blank once a quorum has its log,
/// any other as it wins.
pub fn steps_are_dutiful()
    ensures { (choice : ℕ → Bool) (made : List SentTransfer) (w : Cluster) (run : World) →
        AreMembers w.ids → Shows choice made w run → Invariants run → IsRunWritable w.ids run →
        (n : ℕ) (t : AllocatorState) (event : Event) → In n w.ids → (w.member n).status ≡ Up t →
        MayHappen w.frames t event → IsOnTheBus event → WinDuty w.ids t.raft_server →
        DoesItsDuty w.ids t (w.rows + 1) event }
{
    a_node_that_is_heard_keeps_its_id();
    blanks_wait_to_be_heard();
    duty_of_a_step();
    what_a_step_keeps();
    what_is_said_of_a_step();
    what_is_said_of_frames();
    what_is_said_of_messages();
    who_is_asked_answers();
}

/// A step that its disk cuts off is one event of the run, which may come: a stop within the move in which the
/// put stands that failed. What the run says still has bytes. Where the disk stopped, the member stops with
/// it; where a call failed, it stays as one that failed, and what is stored is as the choice says.
pub fn cut_steps_are_shown()
    ensures { (choice : ℕ → Bool) (made : List SentTransfer) (w : Cluster) (run : World) →
        AreMembers w.ids → Shows choice made w run → Invariants run → IsRunWritable w.ids run →
        (n : ℕ) (t : AllocatorState) (event : Event) → In n w.ids → (w.member n).status ≡ Up t →
        MayHappen w.frames t event → IsOnTheBus event →
        let number = w.rows + 1 in let step_state = (step t number event).step_state in
        are_put (puts_of (w.member n) step_state) (w.member n).disk.calls ≡ false →
        (stop : RunEvent) ×
        (cut_events choice w.ids n number (w.member n) t step_state ≡ stop ∷ []) × MayOccur run stop ×
        IsRunWritable w.ids (after run stop) ×
        Shows choice made (record (with_step w n event) { rows = number }) (after run stop) }
{
    law_joined();
    puts_are_stored();
    the_disk_by_states();
    what_a_step_keeps();
    what_is_said_of_a_step();
    what_is_said_of_frames();
    what_is_said_of_messages();
}

/// Any row that does no harm: its events, of which there is at most one, continue the run, lawfully,
/// to one that shows the world after the row. The run is safe and what it says has bytes, and still has them
/// after the row; the choice fits what the row finds, where it stops a member that failed.
pub fn a_row_is_shown()
    ensures { (choice : ℕ → Bool) (made : List SentTransfer) (w : Cluster) (run : World) →
        AreMembers w.ids → Shows choice made w run → Invariants run → IsRunWritable w.ids run →
        (row : Row) → DoesNoHarm w row → RowAgreesWithDisk choice w row →
        Continues choice (transfers_of_row w row made) (after_row w row) run (row_events choice w row) }
{
    cut_steps_are_shown();
    finished_steps_are_shown();
    openings_are_shown();
    rows_of_allocatees_are_shown();
    rows_without_events_are_shown();
    stops_are_shown();
}
