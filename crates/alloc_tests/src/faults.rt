//! A stop, and a failure, inside a step.

use crate::bus::{accept, event};
use crate::same::same;
use alloc_server::{Server, accept_rows};
use disk_model::{IMAGE, MemoryDisk};
use outside::Pattern;
use std::test::Fail;

/// What a disk has stored: the term and the vote.
fn found(disk: MemoryDisk) -> Option<(u32, u8)> {
    let server = Server::open(1, 1, disk, accept_rows(), accept, 0, 0).ok()?;
    let view = server.view();
    Some((view.term, view.vote))
}

/// A lone allocator stops in place of a device call of the step in which it is elected, and then starts again.
fn stopped_at(call: u64) -> Option<(u32, u8)> {
    let disk = MemoryDisk::new(&[0; IMAGE]);
    let mut server = Server::open(1, 1, disk, accept_rows(), accept, 0, 0).ok()?;
    server.stop_at(call);
    let result = server.step(event("tick", 2000)?, 1);
    if result.is_ok() || !server.failed() || !server.stopped() {
        return None;
    }
    let mut disk = server.stop();
    disk.restart(Pattern::Old);
    found(disk)
}

#[test]
fn a_stop_leaves_some_of_the_first_puts(rt: HostRuntime) {
    // The term, the vote for nobody and the vote for itself are put, each by four device calls.
    let cases = [
        (1, 0, 0),
        (4, 0, 0),
        (5, 1, 0),
        (8, 1, 0),
        (9, 1, 0),
        (12, 1, 0),
    ];
    for (call, term, vote) in cases {
        assert!(rt;
            same(&stopped_at(call), &Some((term, vote))),
            "at call {call}"
        );
    }
}

/// A device call of that step fails. Whether the step fails, is not a stop, leaves no frame, and the next step fails as
/// it did.
fn fails_at(call: u64) -> Option<bool> {
    let disk = MemoryDisk::new(&[0; IMAGE]);
    let mut server = Server::open(1, 1, disk, accept_rows(), accept, 0, 0).ok()?;
    server.fail_at(call);
    let first = server.step(event("tick", 2000)?, 1).err();
    let second = server.step(event("tick", 3000)?, 2).err();
    Some(first.is_some() && first == second && !server.stopped() && server.pop().is_none())
}

#[test]
fn a_failed_step_is_kept(rt: HostRuntime) {
    for call in [1, 2, 3, 4, 12] {
        assert!(rt; same(&fails_at(call), &Some(true)), "at call {call}");
    }
    assert!(rt; same(&fails_at(13), &Some(false)));
}

#[test]
fn a_server_opens_again_where_it_is(rt: HostRuntime) -> Result<(), Fail> {
    let tick = || event("tick", 2000).ok_or("no event");
    let disk = MemoryDisk::new(&[0; IMAGE]);
    let mut server = Server::closed(1, 1, disk, accept_rows(), accept);
    assert!(rt; server.failed());
    assert!(rt; server.step(tick()?, 1).is_err());
    assert!(rt; server.reopen(1, 1, 0, 0).is_ok());
    assert!(rt; !server.failed());
    server.stop_at(9);
    assert!(rt; server.step(tick()?, 1).is_err());
    server.restart(Pattern::Old);
    assert!(rt; server.failed());
    assert!(rt; !server.stopped());
    assert!(rt; server.reopen(2, 1, 0, 0).is_ok());
    assert!(rt; same(&(server.view().term, server.view().vote), &(1, 0)));
    assert!(rt; server.step(tick()?, 1).is_ok());
    assert!(rt; same(&(server.view().term, server.view().vote), &(2, 2)));
    Ok(())
}
