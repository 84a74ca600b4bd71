ghost use Rattle.std.specs.Prelude.{◌≡◌};
ghost use Rattle.kv_store.specs.KeyDisk.{KeyDisk, restarted_on};
ghost use Rattle.raft_log.specs.KeyDisk.{IsOn};
ghost use Rattle.raft_log.specs.Stored.{Stored};
ghost use Rattle.alloc_server.specs.Server.{disk_of};
ghost use Rattle.bus_spec.specs.Members.{MemberStatus};
ghost use Rattle.bus_spec.specs.Members.MemberStatus.{Down};
ghost use Rattle.bus_world.specs.Patterns.{IsFilled};

use crate::patterns::copy_of;
use alloc_server::Server;
use can_frame::Kind;
use disk_model::MemoryDisk;
use outside::Pattern;
use raft_log::laws::{a_member_on_the_disk_by_states, the_disk_by_states};

/// A member's server, which stays where it is, and whether it runs. The server of a stopped member is
/// closed: only its disk counts.
#[derive(Drop)]
pub(crate) struct Place<F> {
    pub(crate) server: Server<MemoryDisk, F>,
    pub(crate) runs: bool,
}

impl<F: Fn(Kind, u16) -> Option<u64> + Copy> Place<F> {
    ghost use Rattle.bus_world.specs.Places.{HasStatus, closure_of};

    /// The process stops, and its disk starts again: it keeps what the pattern says of the bytes that were
    /// not synced.
    pub fn restart(&mut self, pattern: &Pattern)
        requires { IsFilled pattern.now }
        ensures status { (key_disk : KeyDisk Stored) → IsOn (disk_of self.old.server) key_disk →
            HasStatus self.new Down (restarted_on pattern.now key_disk) }
        ensures closure { closure_of self.new ≡ closure_of self.old }
    {
        the_disk_by_states();
        self.server.restart(copy_of(pattern));
        self.runs = false;
    }

    /// The disk stops in place of that call of it.
    pub fn stop_at(&mut self, call: u64)
        ensures status { (status : MemberStatus) (key_disk : KeyDisk Stored) → HasStatus self.old status key_disk →
            HasStatus self.new status
            (record key_disk { calls = record key_disk.calls { stop_in = call } }) }
        ensures closure { closure_of self.new ≡ closure_of self.old }
    {
        the_disk_by_states();
        a_member_on_the_disk_by_states();
        self.server.stop_at(call);
    }

    /// That call of the disk fails.
    pub fn fail_at(&mut self, call: u64)
        ensures status { (status : MemberStatus) (key_disk : KeyDisk Stored) → HasStatus self.old status key_disk →
            HasStatus self.new status
            (record key_disk { calls = record key_disk.calls { fail_in = call } }) }
        ensures closure { closure_of self.new ≡ closure_of self.old }
    {
        the_disk_by_states();
        a_member_on_the_disk_by_states();
        self.server.fail_at(call);
    }
}
