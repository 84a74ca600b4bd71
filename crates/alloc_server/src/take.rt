//! The part of a step that may fail.

ghost use Rattle.std.specs.Prelude.{◌≡◌, OnOk};
ghost use Rattle.std.specs.Result.{result_err};
ghost use Rattle.alloc_handlers.specs.Stands.{IsReady, StandsFor as IsMember};
ghost use Rattle.alloc_server.specs.Server.{ComesTo, event_of};
ghost use Rattle.raft_core.specs.StoredPuts.{CallFaultIsSticky};
ghost use Rattle.alloc_spec.specs.Accepted as accepted;
ghost use Rattle.alloc_spec.specs.Accepted.{AllocatorReceiverFitsInMemory};
ghost use Rattle.alloc_spec.specs.Step as steps;
ghost use Rattle.alloc_spec.specs.AllocatorState.{AllocatorState};
ghost use Rattle.transfer_rx.specs.Acceptance.{AnswersByRows};
ghost use Rattle.transfer_rx.specs.Views.{HasSessions, accept_of, setting_of};

use alloc_handlers::Member;
use alloc_spec::Event;
use alloc_spec::laws::phases_add_puts;
use can_frame::sizes::{BLOCKS, SESSIONS};
use can_frame::{Kind, Seen};
use disk_model::Disk;
use kv_store::Fault;
use transfer_rx::Receiver;

/// Its clock goes to the member; a frame goes to the receiver, and what it led to to the member.
pub fn take<D: Disk, F: Copy, G: Fn(Kind, u16) -> Option<u64> + Copy>(
    member: &mut Member<D>,
    receiver: &mut Receiver<F, SESSIONS, BLOCKS>,
    accept: G,
    event: Event,
    step: u64,
) -> Result<Seen, Fault>
    requires memory { AllocatorReceiverFitsInMemory F.row }
    requires callable { G.IsAlwaysCallable accept }
    requires answers { AnswersByRows (G.post accept) accepted.rows }
    requires rows { (setting_of receiver.old).rows ≡ accepted.rows }
    requires ready { IsReady member.old }
    ensures comes { (t : AllocatorState) → IsMember member.old t → HasSessions receiver.old t.sessions →
        setting_of receiver.old ≡ accepted.setting_for t.me →
        ComesTo member.old.durable t member.new receiver.new (steps.step t step (event_of event)) result }
    ensures ready { OnOk result (IsReady member.new) }
    ensures faults { CallFaultIsSticky member.old.durable member.new.durable (result_err result) }
    ensures accept { accept_of receiver.new ≡ accept_of receiver.old }
    ensures setting { setting_of receiver.new ≡ setting_of receiver.old }
{
    phases_add_puts();
    match event {
        Event::Tick { now, word } => member.take_tick(now, word, step),
        Event::Rx { frame, mark, now } => {
            member.begin(now, step);
            let heard = receiver.hear_by(accept, &frame, mark, member.latest);
            member.take_heard(heard, receiver.delivered())
        }
    }
}
