ghost use Rattle.std.specs.Prelude.{◌≡◌, ℕ, true, false};
ghost use Rattle.kv_store.specs.KeyDisk.{KeyDisk};
ghost use Rattle.raft_core.specs.StoredPuts.{stored_puts};
ghost use Rattle.raft_log.specs.KeyDisk.{are_put, puts_on};
ghost use Rattle.raft_log.specs.Stored.{Stored};
ghost use Rattle.alloc_spec.specs.Step.{step as step_of};
ghost use Rattle.alloc_spec.specs.AllocatorState.{AllocatorState, view_of};
ghost use Rattle.alloc_server.specs.Server.{accepts, event_of};
ghost use Rattle.bus_spec.specs.Receivers.{MemberReceives};
ghost use Rattle.bus_spec.specs.Report.{line_of_failure, line_of_view};
ghost use Rattle.bus_rows.specs.ReportLine.{report_line_of};
ghost use Rattle.bus_rows.specs.ReportLine.ReportLine.{HasFailed};
ghost use Rattle.bus_world.specs.OnDisk.{HasFailedOn, IsClosedOn, IsUpOn};

use alloc_server::{Event, Server};
use bus_rows::Told;
use bus_spec::told_of_step;
use can_frame::Kind;
use disk_model::MemoryDisk;
use raft_log::laws::a_member_on_the_disk_by_states;

/// A step of a server that runs: what it tells. Where its disk cut it off, the server has failed.
pub(crate) fn advance<F: Fn(Kind, u16) -> Option<u64> + Copy>(
    server: &mut Server<MemoryDisk, F>,
    n: u8,
    event: Event,
    number: u64,
) -> Told
    requires receives { MemberReceives F.row F.IsAlwaysCallable F.post (accepts server.old) }
    ensures finished { (t : AllocatorState) (key_disk : KeyDisk Stored) → IsUpOn server.old t key_disk →
        let step_result = step_of t number (event_of event) in
        let puts = stored_puts step_result.step_state.puts key_disk.store in are_put puts key_disk.calls ≡ true →
        (report_line_of result ≡ line_of_view n (view_of step_result.step_state.allocator) step_result) ×
        IsUpOn server.new step_result.step_state.allocator (puts_on puts key_disk) }
    ensures cut { (t : AllocatorState) (key_disk : KeyDisk Stored) → IsUpOn server.old t key_disk →
        let step_result = step_of t number (event_of event) in
        let puts = stored_puts step_result.step_state.puts key_disk.store in are_put puts key_disk.calls ≡ false →
        (report_line_of result ≡ line_of_failure n (puts_on puts key_disk)) ×
        IsClosedOn server.new (puts_on puts key_disk) }
    ensures again { (key_disk : KeyDisk Stored) → HasFailedOn server.old key_disk →
        (report_line_of result ≡ HasFailed n) × (server.new ≡ server.old) }
    ensures accepts { accepts server.new ≡ accepts server.old }
{
    a_member_on_the_disk_by_states();
    match server.step(event, number) {
        Ok(outcome) => told_of_step(n, server.view(), outcome),
        Err(_) => {
            if server.stopped() {
                Told::Stopped { n }
            } else {
                Told::Failed { n }
            }
        }
    }
}
