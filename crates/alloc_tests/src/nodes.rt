//! Watching the nodes of the bus.

use crate::same::{is, same};
use can_frame::sizes::NODE_IDS;
use can_frame::{NodeId, Uid};
use node_discovery::{Counting, Watch};

const UID: Uid = [7; 16];

/// Node 50 was heard at 2,001 and asked at 2,002, under transfer ID 0.
fn asked() -> Watch {
    let mut watch = Watch::new();
    watch.status(50, 2001);
    ask(&mut watch, 50, 2002);
    watch
}

fn ask(watch: &mut Watch, node: u8, now: u64) {
    if let Some(node) = NodeId::new(node) {
        watch.asked(node, 0, now);
    }
}

#[test]
fn asks_once_a_second(rt: HostRuntime) {
    let mut watch = Watch::new();
    watch.status(50, 2001);
    assert!(rt;
        same(
            &watch.next_query(&[false; NODE_IDS], 2002),
            &NodeId::new(50)
        )
    );
    assert!(rt; watch.next_query(&[true; NODE_IDS], 2002).is_none());
    let watch = asked();
    assert!(rt; watch.next_query(&[false; NODE_IDS], 3001).is_none());
    assert!(rt;
        same(
            &watch.next_query(&[false; NODE_IDS], 3002),
            &NodeId::new(50)
        )
    );
}

#[test]
fn takes_an_answer_once(rt: HostRuntime) {
    for (transfer_id, now, want) in [(0, 3001, true), (0, 3002, false), (1, 3001, false)] {
        let mut watch = asked();
        assert_eq!(rt; watch.info(50, transfer_id, &UID, now), want, "at {now}");
        assert_eq!(rt; watch.identified(50, now) == Some(UID), want, "at {now}");
        assert_eq!(rt; watch.unknown(&[false; NODE_IDS], now), !want, "at {now}");
        assert!(rt; !watch.info(50, transfer_id, &UID, now), "again at {now}");
    }
}

#[test]
fn is_online_for_three_seconds(rt: HostRuntime) {
    let watch = asked();
    for (now, want) in [(0, true), (5001, true), (5002, false)] {
        assert_eq!(rt; watch.online(50, now), want, "at {now}");
        assert_eq!(rt; watch.seen(now)[50], want, "at {now}");
        assert_eq!(rt; watch.unknown(&[false; NODE_IDS], now), want, "at {now}");
    }
}

// The query at 5,000 is of the spell that began at 2,001; the status at 5,002 begins another.
#[test]
fn a_query_of_an_earlier_spell_counts(rt: HostRuntime) {
    let mut watch = Watch::new();
    watch.status(50, 2001);
    ask(&mut watch, 50, 5000);
    watch.status(50, 5002);
    assert!(rt; watch.next_query(&[false; NODE_IDS], 5999).is_none());
    assert!(rt;
        same(
            &watch.next_query(&[false; NODE_IDS], 6000),
            &NodeId::new(50)
        )
    );
    assert!(rt; !watch.info(50, 0, &UID, 5003));
}

/// Node 50 was heard at 2,001 and asked so many times at 2,002.
fn asked_times(times: u32) -> Watch {
    let mut watch = Watch::new();
    watch.status(50, 2001);
    for _ in 0..times {
        ask(&mut watch, 50, 2002);
    }
    watch
}

// It is silent 1,000 ms after the last of five queries, as long as it is online.
#[test]
fn is_silent_after_five_queries(rt: HostRuntime) {
    let rows = [
        (0, 3002, false),
        (4, 3002, false),
        (5, 3001, false),
        (5, 3002, true),
        (6, 3002, true),
        (300, 3002, true),
        (5, 5001, true),
        (5, 5002, false),
    ];
    for (times, now, want) in rows {
        let watch = asked_times(times);
        assert_eq!(rt;
            watch.silent(50, Counting::OfSpell, now),
            want,
            "{times} at {now}"
        );
        assert!(rt;
            !watch.silent(51, Counting::OfSpell, now),
            "{times} at {now}"
        );
    }
}

#[test]
fn is_not_silent_once_it_answered(rt: HostRuntime) {
    let mut watch = asked_times(5);
    assert!(rt; watch.info(50, 0, &UID, 2003));
    assert!(rt; !watch.silent(50, Counting::OfSpell, 3002));

    // The status at 5,002 begins another spell, and what was told before it does not count.
    watch.status(50, 5002);
    for _ in 0..5 {
        ask(&mut watch, 50, 5003);
    }
    assert!(rt; !watch.silent(50, Counting::OfSpell, 6002));
    assert!(rt; watch.silent(50, Counting::OfSpell, 6003));
}

// The status at 5,002 begins another spell; the four queries at 2,002 do not count.
#[test]
fn counts_the_queries_of_a_spell(rt: HostRuntime) {
    let mut watch = asked_times(4);
    watch.status(50, 5002);
    ask(&mut watch, 50, 5002);
    assert!(rt; !watch.silent(50, Counting::OfSpell, 6002));
    for _ in 0..4 {
        ask(&mut watch, 50, 5002);
    }
    assert!(rt; !watch.silent(50, Counting::OfSpell, 6001));
    assert!(rt; watch.silent(50, Counting::OfSpell, 6002));
}

// The statuses at 3,001 and at 6,002 begin spells; no spell has five queries, and the one at 6,002 is the
// fifth since the last answer.
#[test]
fn counts_the_queries_since_an_answer(rt: HostRuntime) {
    let mut watch = Watch::new();
    for begins in [0, 3001] {
        watch.status(50, begins);
        ask(&mut watch, 50, begins);
        ask(&mut watch, 50, begins + 1000);
        assert!(rt; !watch.silent(50, Counting::SinceAnswer, begins + 2000));
    }
    watch.status(50, 6002);
    ask(&mut watch, 50, 6002);
    assert!(rt; !watch.silent(50, Counting::SinceAnswer, 7001));
    assert!(rt; watch.silent(50, Counting::SinceAnswer, 7002));
    assert!(rt; !watch.silent(50, Counting::OfSpell, 7002));

    // An answer forgets them; the status at 9,003 begins another spell.
    assert!(rt; watch.info(50, 0, &UID, 6003));
    watch.status(50, 9003);
    ask(&mut watch, 50, 9003);
    assert!(rt; !watch.silent(50, Counting::SinceAnswer, 10003));
}

#[test]
fn takes_no_status_of_a_tool(rt: HostRuntime) {
    for from in [0, 126, 127, 128, 255] {
        let mut watch = Watch::new();
        watch.status(from, 0);
        assert!(rt; !watch.online(from, 0), "from {from}");
        assert!(rt; same(&watch.seen(0), &[false; NODE_IDS]), "from {from}");
    }
}

#[test]
fn keeps_who_was_heard(rt: HostRuntime) {
    let mut watch = Watch::new();
    for (from, now) in [(50, 0), (7, 1), (126, 2), (50, 9000)] {
        watch.status(from, now);
    }
    assert!(rt; is(&watch.heard(), &[50, 7]));
}
