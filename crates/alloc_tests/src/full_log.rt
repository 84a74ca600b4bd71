//! An allocator whose log is full.

use crate::bus::{FIRST_ASK, SECOND_ASK, THIRD_ASK, accept, event};
use crate::image::stored;
use crate::same::same;
use crate::server_table::{Case, play};
use alloc_server::{Server, accept_rows};
use can_frame::{Entry, NodeId};
use disk_model::{IMAGE, MemoryDisk};
use std::test::Fail;

/// The image of 127 entries, all of them committed: node IDs 2 to 125, each given to the unique ID of its own bytes,
/// and three blanks.
fn full() -> [u8; IMAGE] {
    let mut entries = [Entry {
        term: 1,
        ..Entry::default()
    }; 127];
    for node in 2..126u8 {
        entries[usize::from(node) - 2] = Entry {
            term: 1,
            uid: [node; 16],
            node,
        };
    }
    stored(&entries, 127)
}

/// A new unique ID is collected, and gets nothing. One that is recorded is asked for again.
const CASES: [Case; 6] = [
    (2000, "tick", "1 1 L 2 127 127 1 tick +stat:0\n"),
    (2010, FIRST_ASK, "2 1 L 2 127 127 2 took +alloc:0\n"),
    (2100, SECOND_ASK, "3 1 L 2 127 127 5 took +alloc:0\n"),
    (2200, THIRD_ASK, "4 1 L 2 127 127 5 took\n"),
    (
        3000,
        "ext 1e000500 fb070707070707c3",
        "5 1 L 2 127 127 6 took +alloc:0\n",
    ),
    (
        3100,
        "ext 1e000500 fa070707070707c4",
        "6 1 L 2 127 127 9 took +alloc:0\n",
    ),
];

#[test]
fn a_full_log_answers_what_it_has(rt: HostRuntime) -> Result<(), Fail> {
    let disk = MemoryDisk::new(&full());
    let Ok(mut server) = Server::open(1, 1, disk, accept_rows(), accept, 0, 0) else {
        return Err(Fail::from("the disk is refused"));
    };
    play(&rt, &mut server, &CASES);
    let last = event("ext 1e000500 fa07070707c5", 3200).ok_or("no event")?;
    let Ok(outcome) = server.step(last, 7) else {
        return Err(Fail::from("a call of the disk failed"));
    };
    let node = NodeId::new(7).ok_or("no node")?;
    assert_eq!(rt; outcome.answers.len(), 1);
    assert!(rt; same(&outcome.answers.first(), &Some(&([7; 16], node))));
    assert_eq!(rt; server.view().last, 127);
    Ok(())
}
