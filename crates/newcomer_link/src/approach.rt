ghost use Rattle.std.specs.Prelude.{◌≡◌, ◌<◌, ◌≤◌, ℕ, Some, IfSome};
ghost use Rattle.can_frame.specs.Sizes.{node_ids};
ghost use Rattle.newcomer_link.specs.Approach as approaches;
ghost use Rattle.newcomer_link.specs.declared.approach.Approach.TheVariants.{Shows};

use crate::partial::Part;
use can_frame::{ALLOCATION, Ident, Kind, NODE_STATUS};
use outside::{RawFrame, Received};
use told_link::fields_of;

/// The last node ID of a device. Those above are kept for tools.
const LAST_DEVICE: u8 = 125;

/// Somebody comes who may take a place of the log.
#[derive(Clone, Copy, Debug, PartialEq, Eq)]
pub enum Approach {
    /// The node with this ID, of 1 to 125, shows itself by NodeStatus.
    Shows(u8),

    /// A device asks for a node ID, by a part of its unique ID.
    Asks(Part),
}

/// What an item of a link is to a member that is told this list. An empty one stands for none.
pub fn approach_in(ids: &[u8], item: &Received) -> Option<Approach>
    ensures approach { result ≡ approaches.approach_in ids.now item.now }
    ensures node { (node : ℕ) → result ≡ Some (Shows node) → node < node_ids }
{
    if ids.is_empty() {
        return None;
    }
    let Received::Frame(frame) = item else {
        return None;
    };
    match fields_of(frame) {
        Some(ident) => approach_by(ids, frame, ident),
        None => None,
    }
}

fn approach_by(ids: &[u8], frame: &RawFrame, ident: Ident) -> Option<Approach>
    requires { frame.now.len ≤ 8 }
    ensures approach { result ≡ approaches.approach_by ids.now frame.now (Some ident) }
    ensures node { (node : ℕ) → result ≡ Some (Shows node) → node < node_ids }
{
    if !ident.kind.is_anonymous() {
        return show_of(ids, ident);
    }
    if ident.number != ALLOCATION.number {
        return None;
    }
    match part_of(frame) {
        Some(part) => Some(Approach::Asks(part)),
        None => None,
    }
}

fn show_of(ids: &[u8], ident: Ident) -> Option<Approach>
    ensures approach { result ≡ approaches.show_of ids.now ident }
    ensures node { (node : ℕ) → result ≡ Some (Shows node) → node < node_ids }
{
    if is_status(ident) && ident.source <= LAST_DEVICE && !ids.contains(&ident.source) {
        Some(Approach::Shows(ident.source))
    } else {
        None
    }
}

fn is_status(ident: Ident) -> bool
    ensures { result ≡ approaches.is_of_node_status ident }
{
    match ident.kind {
        Kind::Message => ident.number == NODE_STATUS.number,
        Kind::Anonymous | Kind::Request | Kind::Response => false,
    }
}

/// The part of a unique ID that an anonymous Allocation of one frame brings.
fn part_of(frame: &RawFrame) -> Option<Part>
    ensures { result ≡ approaches.part_in frame.now }
{
    let [head, a, b, c, d, e, f, _] = frame.bytes;
    let is_first = head % 2 == 1;
    match frame.len {
        8 if is_first => Some(Part::First([a, b, c, d, e, f])),
        8 => Some(Part::Second([a, b, c, d, e, f])),
        6 if !is_first => Some(Part::Third([a, b, c, d])),
        _ => None,
    }
}
