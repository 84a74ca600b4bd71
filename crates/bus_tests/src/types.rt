//! Published payloads and the edges of the lengths.

ghost use Rattle.std.specs.Prelude.{◌≡◌, ◌<◌, Some, IfSome};

use crate::same::{is, same};
use can_frame::Entry;
use dsdl_codec::{
    Allocation, AppendAnswer, AppendRequest, Discovery, NodeInfo, NodeStatus, VoteAnswer,
    VoteRequest,
};
use std::test::Fail;

/// Who reads what another wrote gets the value.
fn arrives(request: &AppendRequest) -> Option<AppendRequest>
    requires { IfSome request.now.entry (λ entry. entry.node < 128) }
    ensures { result ≡ Some request.now }
{
    AppendRequest::read(&request.write())
}

#[test]
fn exchange_and_status(rt: HostRuntime) -> Result<(), Fail> {
    let payload = [0xfb, 0, 1, 2, 3, 4, 5];
    let request = Allocation::read(&payload).ok_or("no reading")?;
    assert_eq!(rt; request.node, 125);
    assert!(rt; request.first_part);
    assert!(rt; is(&request.uid, &payload[1..]));
    assert!(rt; is(&request.write(), &payload));
    assert!(rt; Allocation::read(&[]).is_none());
    assert!(rt; Allocation::read(&[0; 17]).is_some());
    assert!(rt; Allocation::read(&[0; 18]).is_none());

    let payload = [1, 0, 0, 0, 0x58, 0, 0];
    let status = NodeStatus::read(&payload).ok_or("no reading")?;
    assert!(rt;
        same(
            &(status.uptime, status.health, status.mode, status.sub_mode),
            &(1, 1, 3, 0)
        )
    );
    assert!(rt; is(&status.write(), &payload));
    let status = NodeStatus::read(&[0, 0, 0, 0, 0xff, 0, 0]).ok_or("no reading")?;
    assert!(rt; same(&(status.health, status.mode, status.sub_mode), &(3, 7, 7)));
    Ok(())
}

#[test]
fn cluster(rt: HostRuntime) -> Result<(), Fail> {
    let discovery = Discovery::read(&[3, 1, 2, 3]).ok_or("no reading")?;
    assert_eq!(rt; discovery.size, 3);
    assert!(rt; is(&discovery.known, &[1, 2, 3]));
    assert!(rt; is(&discovery.write(), &[3, 1, 2, 3]));
    assert!(rt; Discovery::read(&[0; 7]).is_none());

    let payload = [1, 0, 0, 0, 0, 0, 0, 0, 0];
    let request = VoteRequest {
        term: 1,
        last_term: 0,
        last_index: 0,
    };
    assert!(rt; same(&VoteRequest::read(&payload), &Some(request)));
    assert!(rt; is(&request.write(), &payload));

    let answer = VoteAnswer {
        term: 1,
        granted: true,
    };
    assert!(rt; same(&VoteAnswer::read(&[1, 0, 0, 0, 0xff]), &Some(answer)));
    assert!(rt; is(&answer.write(), &[1, 0, 0, 0, 0x80]));
    let answer = AppendAnswer {
        term: 1,
        success: false,
    };
    assert!(rt; same(&AppendAnswer::read(&[1, 0, 0, 0, 0x7f]), &Some(answer)));
    assert!(rt; is(&answer.write(), &[1, 0, 0, 0, 0]));
    let answer = AppendAnswer {
        term: 2,
        success: true,
    };
    assert!(rt; is(&answer.write(), &[2, 0, 0, 0, 0x80]));
    Ok(())
}

#[test]
fn append_requests(rt: HostRuntime) -> Result<(), Fail> {
    let uid = [0, 1, 2, 3, 4, 5, 6, 7, 8, 9, 10, 11, 12, 13, 14, 15];
    let request = AppendRequest {
        term: 2,
        prev_term: 1,
        prev_index: 5,
        commit: 4,
        entry: Some(Entry {
            term: 2,
            uid,
            node: 125,
        }),
    };
    let payload = [
        2, 0, 0, 0, 1, 0, 0, 0, 5, 4, 2, 0, 0, 0, 0, 1, 2, 3, 4, 5, 6, 7, 8, 9, 10, 11, 12, 13, 14,
        15, 125,
    ];
    assert!(rt; is(&request.write(), &payload));
    assert!(rt; same(&arrives(&request), &Some(request)));
    assert!(rt; AppendRequest::read(&payload[..10]).is_some());
    assert!(rt; AppendRequest::read(&payload[..30]).is_none());
    Ok(())
}

#[test]
fn node_infos(rt: HostRuntime) -> Result<(), Fail> {
    let mut payload = [0; 122];
    let info = NodeInfo::read(&payload[..41]).ok_or("no reading")?;
    assert!(rt; info.name.is_empty());
    assert!(rt; is(&info.write(), &payload[..41]));
    assert!(rt; NodeInfo::read(&payload[..40]).is_none());
    assert!(rt; NodeInfo::read(&payload).is_none());
    payload[40] = 1;
    assert!(rt; NodeInfo::read(&payload[..41]).is_none());
    Ok(())
}
