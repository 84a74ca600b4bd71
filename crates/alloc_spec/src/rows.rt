ghost use Rattle.std.specs.Prelude.{◌≡◌};
ghost use Rattle.transfer_rx.specs.Acceptance.{first_signature};
ghost use Rattle.alloc_spec.specs.Accepted as accepted;

use arrayvec::ArrayVec;
use can_frame::{
    ALLOCATION, APPEND_ENTRIES, DISCOVERY, DataType, GET_NODE_INFO, Kind, NODE_STATUS, REQUEST_VOTE,
};
use transfer_rx::AcceptRow;

/// The kinds and numbers of transfers that an allocator receives, with the signatures of their
/// types.
#[tactic(auto, unfolding(crate::specs::Accepted::rows))]
pub fn accept_rows() -> ArrayVec<AcceptRow, 16>
    ensures { result.items ≡ accepted.rows }
{
    let rows = [
        row(Kind::Anonymous, ALLOCATION),
        row(Kind::Message, NODE_STATUS),
        row(Kind::Message, DISCOVERY),
        row(Kind::Request, GET_NODE_INFO),
        row(Kind::Response, GET_NODE_INFO),
        row(Kind::Request, APPEND_ENTRIES),
        row(Kind::Response, APPEND_ENTRIES),
        row(Kind::Request, REQUEST_VOTE),
        row(Kind::Response, REQUEST_VOTE),
    ];
    match ArrayVec::try_from(rows.as_slice()) {
        Ok(rows) => rows,
        Err(_) => unreachable!(),
    }
}

/// Whether members of a cluster alone send transfers of this kind and number: Allocations with a source,
/// Discoveries, and the services of Raft.
pub fn is_of_members(kind: Kind, number: u16) -> bool
    ensures { result ≡ accepted.is_of_members kind number }
{
    match kind {
        Kind::Anonymous => false,
        Kind::Message => number == DISCOVERY.number || number == ALLOCATION.number,
        Kind::Request | Kind::Response => {
            number == APPEND_ENTRIES.number || number == REQUEST_VOTE.number
        }
    }
}

fn row(kind: Kind, data_type: DataType) -> AcceptRow
    ensures { result ≡ accepted.row kind data_type }
{
    AcceptRow {
        kind,
        number: data_type.number,
        signature: data_type.signature,
    }
}

/// The signature of the type with a kind and number that an allocator receives.
#[tactic(auto, unfolding(crate::specs::Accepted::rows))]
pub fn accept(kind: Kind, number: u16) -> Option<u64>
    ensures { result ≡ first_signature accepted.rows kind number }
{
    match kind {
        Kind::Anonymous => of_anonymous(number),
        Kind::Message => of_message(number),
        Kind::Request | Kind::Response => of_service(number),
    }
}

#[tactic(auto, unfolding(crate::specs::Accepted::rows))]
fn of_anonymous(number: u16) -> Option<u64>
    ensures { result ≡ first_signature accepted.rows Kind.Anonymous number }
{
    if number == ALLOCATION.number {
        Some(ALLOCATION.signature)
    } else {
        None
    }
}

#[tactic(auto, unfolding(crate::specs::Accepted::rows))]
fn of_message(number: u16) -> Option<u64>
    ensures { result ≡ first_signature accepted.rows Kind.Message number }
{
    if number == NODE_STATUS.number {
        Some(NODE_STATUS.signature)
    } else if number == DISCOVERY.number {
        Some(DISCOVERY.signature)
    } else {
        None
    }
}

#[tactic(auto, unfolding(crate::specs::Accepted::rows))]
fn of_service(number: u16) -> Option<u64>
    ensures { result ≡ first_signature accepted.rows Kind.Request number }
{
    if number == GET_NODE_INFO.number {
        Some(GET_NODE_INFO.signature)
    } else if number == APPEND_ENTRIES.number {
        Some(APPEND_ENTRIES.signature)
    } else if number == REQUEST_VOTE.number {
        Some(REQUEST_VOTE.signature)
    } else {
        None
    }
}
