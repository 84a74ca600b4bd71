ghost use Rattle.std.specs.Prelude.{◌≡◌, ℕ, ◌<◌, ◌≤◌, ◌⊎◌, ◌↔◌, IfSome, IsNone};

use std::marker::Model;

/// A node ID on the bus, 1 to 127. 126 and 127 are kept for tools.
#[derive(Clone, Copy, Debug, PartialEq, Eq)]
pub struct NodeId(u8);

impl Model for NodeId {
    ghost Value = { ℕ };

    ghost view = { λ node. node.0 };

    ghost invariant = { λ node. (1 ≤ node.0) × (node.0 ≤ 127) };

    ghost inverse = { λ number. record { 0 = number } };
}

/// A blank for the unused places of a list of fixed capacity: node 1.
impl Default for NodeId {
    ghost is_default = { λ node. node ≡ 1 };

    fn default() -> NodeId {
        NodeId(1)
    }
}

impl NodeId {
    /// The node ID of a number; `None` where the number is 0 or above 127.
    pub fn new(number: u8) -> Option<NodeId>
        ensures some { IfSome result (λ node. node ≡ number) }
        ensures none { IsNone result ↔ ((number ≡ 0) ⊎ (127 < number)) }
    {
        if number == 0 || number > 127 {
            return None;
        }
        Some(NodeId(number))
    }

    pub fn get(self) -> u8
        ensures number { result ≡ self }
        ensures least { 1 ≤ result }
        ensures most { result ≤ 127 }
    {
        self.0
    }
}
