//! What comes from the other members of a cluster of three, also what no lawful member sends.

use crate::bus::{accept, frame_of, heard};
use crate::same::{is, same};
use crate::server_table::{Case, line_of, play};
use alloc_server::{Judged, Server, accept_rows};
use can_frame::Mark;
use disk_model::{IMAGE, MemoryDisk};
use std::test::Fail;

/// Members 2 and 3 make themselves known, and member 1 stands for election.
const ELECTION: [Case; 4] = [
    (1000, "tick", "1 1 F 0 0 0 2 tick +disc:0 +stat:0\n"),
    (1001, "ext 1e018602 030201c0", "2 1 F 0 0 0 2 took\n"),
    (1001, "ext 1e018603 03030102c0", "3 1 F 0 0 0 2 took\n"),
    (
        2000,
        "tick",
        "4 1 C 1 0 0 8 tick +disc:0 +stat:0 +voteq:2 +voteq:3\n",
    ),
];

/// A vote of term 0 does not count, and one of term 1 wins. Then an append request of the leader's own term is refused.
const LEADERSHIP: [Case; 4] = [
    (2003, "ext 1e1f0182 0000000080c0", "1 1 C 1 0 0 8 took\n"),
    (
        2004,
        "ext 1e1f0183 0100000080c0",
        "2 1 L 1 0 0 12 took +appq:2 +appq:3\n",
    ),
    (
        2005,
        "ext 1e1e8182 1209010000000080",
        "3 1 L 1 0 0 12 part\n",
    ),
    (
        2005,
        "ext 1e1e8182 000000000060",
        "4 1 L 1 0 0 13 took +app:2\n",
    ),
];

#[test]
fn what_no_lawful_member_sends_changes_no_leader(rt: HostRuntime) -> Result<(), Fail> {
    let disk = MemoryDisk::new(&[0; IMAGE]);
    let Ok(mut server) = Server::open(1, 3, disk, accept_rows(), accept, 0, 0) else {
        return Err(Fail::from("the disk is refused"));
    };
    play(&rt, &mut server, &ELECTION);
    play(&rt, &mut server, &LEADERSHIP);
    for _ in 0..13 {
        if let Some(next) = server.pop() {
            if next.frame.id == 0x1e1e_0281 {
                assert!(rt; is(&next.frame.bytes, &[1, 0, 0, 0, 0, 0xc0]));
                assert!(rt;
                    same(
                        &next.mark,
                        &Mark {
                            step: 4,
                            re: 0,
                            place: 0
                        }
                    )
                );
                return Ok(());
            }
        }
    }
    Err(Fail::from("no answer"))
}

/// The Discoveries are of a cluster of two.
const ANOTHER_CLUSTER: [Case; 4] = [
    (1000, "tick", "1 1 F 0 0 0 2 tick +disc:0 +stat:0\n"),
    (1001, "ext 1e018602 020201c0", "2 1 F 0 0 0 2 took\n"),
    (1001, "ext 1e018603 020301c0", "3 1 F 0 0 0 2 took\n"),
    (2000, "tick", "4 1 F 0 0 0 4 tick +disc:0 +stat:0\n"),
];

#[test]
fn members_of_another_cluster_are_none(rt: HostRuntime) -> Result<(), Fail> {
    let disk = MemoryDisk::new(&[0; IMAGE]);
    let Ok(mut server) = Server::open(1, 3, disk, accept_rows(), accept, 0, 0) else {
        return Err(Fail::from("the disk is refused"));
    };
    play(&rt, &mut server, &ANOTHER_CLUSTER);
    Ok(())
}

#[test]
fn a_response_to_another_call_is_stale(rt: HostRuntime) -> Result<(), Fail> {
    let disk = MemoryDisk::new(&[0; IMAGE]);
    let Ok(mut server) = Server::open(1, 3, disk, accept_rows(), accept, 0, 0) else {
        return Err(Fail::from("the disk is refused"));
    };
    play(&rt, &mut server, &ELECTION);
    let vote = frame_of("ext 1e1f0182 0100000080c0").ok_or("no frame")?;
    let mark = Mark {
        step: 9,
        re: 3,
        place: 0,
    };
    assert!(rt; same(&server.judge(&vote, mark, 2003), &Judged::Stale));
    let mark = Mark {
        step: 9,
        re: 4,
        place: 0,
    };
    assert!(rt; same(&server.judge(&vote, mark, 2003), &Judged::Fine));
    let mark = Mark {
        step: 9,
        re: 3,
        place: 0,
    };
    assert!(rt; same(&server.judge(&vote, mark, 3000), &Judged::Fine));
    Ok(())
}

#[test]
fn frames_of_two_steps_are_torn(rt: HostRuntime) -> Result<(), Fail> {
    let disk = MemoryDisk::new(&[0; IMAGE]);
    let Ok(mut server) = Server::open(1, 3, disk, accept_rows(), accept, 0, 0) else {
        return Err(Fail::from("the disk is refused"));
    };
    let first = frame_of("ext 1e1e8182 1209010000000080").ok_or("no frame")?;
    let last = frame_of("ext 1e1e8182 000000000060").ok_or("no frame")?;
    line_of(
        &mut server,
        heard(
            first,
            Mark {
                step: 7,
                re: 0,
                place: 0,
            },
            5,
        ),
        1,
    );
    assert!(rt;
        same(
            &server.judge(
                &last,
                Mark {
                    step: 8,
                    re: 0,
                    place: 1
                },
                6
            ),
            &Judged::Torn
        )
    );
    assert!(rt;
        same(
            &server.judge(
                &last,
                Mark {
                    step: 7,
                    re: 0,
                    place: 1
                },
                6
            ),
            &Judged::Fine
        )
    );
    Ok(())
}
