ghost use Rattle.std.specs.Prelude.{◌≡◌};
ghost use Rattle.transfer_rx.specs.Acceptance.{first_signature};
ghost use Rattle.cmd_logs.specs.Watched.{watched_rows};

use alloc_spec::{accept, accept_rows};
use arrayvec::ArrayVec;
use can_frame::{ALLOCATION, Kind};
use transfer_rx::AcceptRow;

/// The transfers that are watched: those that an allocator receives, and the Allocations of allocators.
#[tactic(auto, unfolding(crate::specs::Watched::watched_rows), using(crate::proofs::Accepted::few_rows))]
pub(crate) fn watched_rows() -> ArrayVec<AcceptRow, 16>
    ensures { result.items ≡ watched_rows }
{
    let received = accept_rows();
    let mut rows = ArrayVec::new();
    rows.push(AcceptRow {
        kind: Kind::Message,
        number: ALLOCATION.number,
        signature: ALLOCATION.signature,
    });
    match rows.try_extend_from_slice(&received) {
        Ok(()) => rows,
        Err(_) => unreachable!(),
    }
}

/// The signature of a transfer that is watched.
#[tactic(auto, unfolding(crate::specs::Watched::watched_rows))]
pub(crate) fn accept_watched(kind: Kind, number: u16) -> Option<u64>
    ensures { result ≡ first_signature watched_rows kind number }
{
    match kind {
        Kind::Message => {
            if number == ALLOCATION.number {
                Some(ALLOCATION.signature)
            } else {
                accept(kind, number)
            }
        }
        Kind::Anonymous | Kind::Request | Kind::Response => accept(kind, number),
    }
}
