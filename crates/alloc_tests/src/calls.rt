//! Each call of a server once.

use crate::bus::{FIRST_ASK, OUTSIDE, accept, event, frame_of};
use crate::same::{is, same};
use crate::server_table::line_of;
use alloc_server::{Judged, Role, Server, View, accept_rows};
use can_frame::Entry;
use disk_model::{IMAGE, MemoryDisk};
use std::test::Fail;

#[test]
fn each_call_once(rt: HostRuntime) -> Result<(), Fail> {
    let disk = MemoryDisk::new(&[0; IMAGE]);
    let Ok(mut server) = Server::open(1, 1, disk, accept_rows(), accept, 0, 0) else {
        return Err(Fail::from("the disk is refused"));
    };
    let tick = event("tick", 2000).ok_or("no event")?;
    let line = line_of(&mut server, tick, 1);
    assert!(rt; is(&line, b"1 1 L 1 0 0 1 tick +stat:0\n"));

    let view = View {
        role: Role::Leader,
        term: 1,
        vote: 1,
        last: 0,
        commit: 0,
        queued: 1,
    };
    assert!(rt; same(&server.view(), &view));
    assert!(rt; same(&server.entry(0), &Entry::default()));

    let status = server.pop().ok_or("no frame")?;
    assert_eq!(rt; status.frame.id, 0x1e01_5501);
    assert!(rt; is(&status.frame.bytes, &[2, 0, 0, 0, 0, 0, 0, 0xc0]));
    assert!(rt; server.pop().is_none());

    let frame = frame_of(FIRST_ASK).ok_or("no frame")?;
    assert!(rt; same(&server.judge(&frame, OUTSIDE, 2010), &Judged::Fine));
    assert!(rt; !server.failed());
    assert!(rt; !server.stopped());
    Ok(())
}
