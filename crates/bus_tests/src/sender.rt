//! A queue of frames, in the order in which they go out.

ghost use Rattle.std.specs.Prelude.{◌<◌, IfOk};
ghost use Rattle.can_frame.specs.Identifier.{IsIdentifier};

use crate::same::{is, same};
use arrayvec::ArrayVec;
use can_frame::{Ident, Kind, Mark};
use std::test::Fail;
use transfer_tx::{NoRoom, Outgoing, Sender};

/// A broadcast of node 1 with priority 30 and transfer ID 1.
fn broadcast(number: u16, signature: u64, bytes: &[u8]) -> Result<Outgoing, Fail>
    ensures { IfOk result (λ what. IsIdentifier what.ident × (what.id < 32)) }
{
    let mut payload = ArrayVec::new();
    payload
        .try_extend_from_slice(bytes)
        .map_err(|_| "too long")?;
    Ok(Outgoing {
        ident: Ident {
            priority: 30,
            kind: Kind::Message,
            number,
            source: 1,
            dest: 0,
            discriminator: 0,
        },
        signature,
        id: 1,
        payload,
    })
}

#[test]
fn the_lower_identifier_overtakes(rt: HostRuntime) -> Result<(), Fail> {
    let node_status = broadcast(341, 0x0f08_68d0_c1a7_c6f1, &[1, 0, 0, 0, 0x58, 0, 0])?;
    let payload = [0, 0, 1, 2, 3, 4, 5, 6, 7, 8, 9, 10, 11];
    let allocation = broadcast(1, 0x0b2a_8126_20a1_1d40, &payload)?;
    let mut sender = Sender::<32>::new();
    assert!(rt; sender.offer(&node_status, 7, 0).is_ok());
    assert!(rt; sender.offer(&allocation, 8, 5).is_ok());
    let rows: [(u32, &[u8], u64, u64, u8); 4] = [
        (0x1e00_0101, &[0x58, 0x5d, 0, 0, 1, 2, 3, 0x81], 8, 5, 0),
        (0x1e00_0101, &[4, 5, 6, 7, 8, 9, 10, 0x21], 8, 5, 1),
        (0x1e00_0101, &[11, 0x41], 8, 5, 2),
        (0x1e01_5501, &[1, 0, 0, 0, 0x58, 0, 0, 0xc1], 7, 0, 0),
    ];
    for (behind, (id, bytes, ..)) in rows.iter().rev().enumerate() {
        let kept = sender.in_order().get(behind).ok_or("fewer")?;
        assert!(rt; same(&kept.frame.id, &*id));
        assert!(rt; is(&kept.frame.bytes, *bytes));
    }
    for (id, bytes, step, re, place) in rows {
        let out = sender.pop().ok_or("empty")?;
        assert!(rt; same(&out.frame.id, &id));
        assert!(rt; is(&out.frame.bytes, bytes));
        assert!(rt; same(&out.mark, &Mark { step, re, place }));
    }
    assert!(rt; sender.pop().is_none());
    Ok(())
}

#[test]
fn all_or_nothing(rt: HostRuntime) -> Result<(), Fail> {
    let one_frame = broadcast(341, 0x0f08_68d0_c1a7_c6f1, &[0; 7])?;
    let three_frames = broadcast(1, 0x0b2a_8126_20a1_1d40, &[0; 13])?;
    let mut sender = Sender::<3>::new();
    assert!(rt; sender.offer(&one_frame, 1, 0).is_ok());
    assert!(rt; same(&sender.offer(&three_frames, 1, 0), &Err(NoRoom)));
    assert_eq!(rt; sender.room(), 2);
    sender.clear();
    assert_eq!(rt; sender.room(), 3);
    Ok(())
}
