ghost use Rattle.std.specs.Prelude.{◌≡◌};
ghost use Rattle.transfer_rx.specs.Acceptance.{first_signature};
ghost use Rattle.allocatee.specs.Accepted as accepted;

use arrayvec::ArrayVec;
use can_frame::{ALLOCATION, Kind};
use transfer_rx::AcceptRow;

/// The kinds and numbers of transfers that an allocatee receives, with the signature of their type.
///
/// The rows are those of Allocations, anonymous and not.
#[tactic(auto, unfolding(crate::specs::Accepted::rows))]
pub fn allocatee_rows() -> ArrayVec<AcceptRow, 16>
    ensures { result.items ≡ accepted.rows }
{
    let rows = [
        AcceptRow {
            kind: Kind::Anonymous,
            number: ALLOCATION.number,
            signature: ALLOCATION.signature,
        },
        AcceptRow {
            kind: Kind::Message,
            number: ALLOCATION.number,
            signature: ALLOCATION.signature,
        },
    ];
    match ArrayVec::try_from(rows.as_slice()) {
        Ok(rows) => rows,
        Err(_) => unreachable!(),
    }
}

/// The signature of the type with a kind and number that an allocatee receives.
#[tactic(auto, unfolding(crate::specs::Accepted::rows))]
pub fn allocatee_accept(kind: Kind, number: u16) -> Option<u64>
    ensures { result ≡ first_signature accepted.rows kind number }
{
    match kind {
        Kind::Anonymous | Kind::Message => of_message(number),
        Kind::Request | Kind::Response => None,
    }
}

#[tactic(auto, unfolding(crate::specs::Accepted::rows))]
fn of_message(number: u16) -> Option<u64>
    ensures anonymous { result ≡ first_signature accepted.rows Kind.Anonymous number }
    ensures message { result ≡ first_signature accepted.rows Kind.Message number }
{
    if number == ALLOCATION.number {
        Some(ALLOCATION.signature)
    } else {
        None
    }
}
