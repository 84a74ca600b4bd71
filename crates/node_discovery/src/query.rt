ghost use Rattle.std.specs.Prelude.{◌≡◌};

use can_frame::timing::QUERY_INTERVAL;

/// A query for the unique ID of a node.
#[derive(Clone, Copy)]
pub struct Query {
    pub transfer_id: u8,
    pub moment: u64,
}

ghost use Rattle.node_discovery.specs.History.{is_answered_by};

/// Whether an answer with this transfer ID, at this moment, is the one that is waited for.
pub fn is_answered_by(pending: Option<Query>, transfer_id: u8, now: u64) -> bool
    ensures { result ≡ is_answered_by pending transfer_id now }
{
    match pending {
        Some(query) => {
            query.transfer_id == transfer_id && now.saturating_sub(query.moment) < QUERY_INTERVAL
        }
        None => false,
    }
}
