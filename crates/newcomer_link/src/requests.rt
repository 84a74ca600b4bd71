ghost use Rattle.std.specs.Prelude.{◌≡◌};
ghost use Rattle.newcomer_link.specs.Standing.{goes_on_as, told_since};

use crate::partial::{Part, Partial, UNTOLD, is_of_log};
use can_frame::Entry;

/// Behind so long without a request, in milliseconds, a member has no bytes of one. It forgets them after 500 ms, but
/// goes by the moment at which its turn began. A turn may take 1,000 ms.
const BETWEEN_EXCHANGES: u64 = 1_600;

/// The requests that were let in, each less than that behind the one before.
#[derive(Clone, Copy, Debug, PartialEq, Eq)]
pub struct Requests {
    /// The reading at the last one.
    pub last: u64,

    /// What they told, where it is of one entry of the log.
    pub told: Option<Partial>,
}

/// All that requests told since a pause, where it is of one entry of the log.
pub fn told_since(now: u64, requests: Option<Requests>) -> Option<Partial>
    ensures { result ≡ told_since now requests }
{
    match requests {
        None => Some(UNTOLD),
        Some(requests) if now.saturating_sub(requests.last) >= BETWEEN_EXCHANGES => Some(UNTOLD),
        Some(requests) => requests.told,
    }
}

/// What is told with a part, where it and all that was told are of one entry of the log.
pub fn goes_on_as(log: &[Entry], part: Part, told: Option<Partial>) -> Option<Partial>
    ensures { result ≡ goes_on_as log.now part told }
{
    match told {
        Some(partial) if is_of_log(log, partial, part) => Some(partial.with(part)),
        _ => None,
    }
}
