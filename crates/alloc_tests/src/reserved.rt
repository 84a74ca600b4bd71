//! A node that says it has a unique ID which is recorded for another node ID.

use crate::bus::{FIRST_ASK, SECOND_ASK, THIRD_ASK, accept, event, heard};
use crate::same::{is, same};
use crate::server_table::{Case, line_of, play};
use alloc_server::{Server, What, accept_rows};
use alloc_spec::Outbox;
use arrayvec::ArrayVec;
use can_frame::{Entry, Uid};
use disk_model::{IMAGE, MemoryDisk};
use dsdl_codec::{NodeInfo, NodeStatus, Payload};
use std::test::Fail;
use transfer_tx::Marked;

/// Node ID 125 is given to the unique ID 0 to 15. Then node 60 comes, and is asked who it is.
const CASES: [Case; 6] = [
    (2000, "tick", "1 1 L 1 0 0 1 tick +stat:0\n"),
    (2010, FIRST_ASK, "2 1 L 1 0 0 2 took +alloc:0\n"),
    (2100, SECOND_ASK, "3 1 L 1 0 0 5 took +alloc:0\n"),
    (2200, THIRD_ASK, "4 1 L 1 1 1 8 took +alloc:0\n"),
    (
        2300,
        "ext 1001553c 05000000000000c0",
        "5 1 L 1 1 1 8 took\n",
    ),
    (2301, "tick", "6 1 L 1 1 1 9 tick +infoq:60\n"),
];

/// What node 60 answers when it is asked who it is.
fn info(uid: Uid) -> Payload {
    NodeInfo {
        status: NodeStatus {
            uptime: 5,
            health: 0,
            mode: 0,
            sub_mode: 0,
            vendor: 0,
        },
        sw_major: 1,
        sw_minor: 0,
        sw_flags: 0,
        sw_commit: 0,
        sw_crc: 0,
        hw_major: 1,
        hw_minor: 0,
        uid,
        certificate: ArrayVec::new(),
        name: ArrayVec::new(),
    }
    .write()
}

#[test]
fn a_node_with_a_recorded_unique_id_is_reserved(rt: HostRuntime) -> Result<(), Fail> {
    let disk = MemoryDisk::new(&[0; IMAGE]);
    let Ok(mut server) = Server::open(1, 1, disk, accept_rows(), accept, 0, 0) else {
        return Err(Fail::from("the disk is refused"));
    };
    play(&rt, &mut server, &CASES);

    let mut node = Outbox::new(60);
    let uid = [0, 1, 2, 3, 4, 5, 6, 7, 8, 9, 10, 11, 12, 13, 14, 15];
    node.answer(What::Info, 1, 0, info(uid), 0, 0);
    for _ in 0..7 {
        if let Some(Marked { frame, mark }) = node.pop() {
            line_of(&mut server, heard(frame, mark, 2302), 7);
        }
    }
    let tick = event("tick", 2303).ok_or("no event")?;
    let line = line_of(&mut server, tick, 8);
    assert!(rt; is(&line, b"8 1 L 1 2 2 9 tick\n"));
    assert!(rt; server.view().last == 2);
    let reservation = Entry {
        term: 1,
        node: 60,
        ..Entry::default()
    };
    assert!(rt; same(&server.entry(2), &reservation));
    Ok(())
}
