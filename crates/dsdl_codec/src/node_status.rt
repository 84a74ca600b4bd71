ghost use Rattle.std.specs.Prelude.{◌≡◌, ◌<◌, Some, IfSome, IsNone};
ghost use Rattle.arrayvec.specs.ArrayVec.{array_vec_len};

use crate::numbers::Numbers;
use crate::payload::{Payload, append};

/// What each node tells of itself once a second (`uavcan.protocol.NodeStatus`).
#[derive(Clone, Copy, Debug, Default, PartialEq, Eq)]
pub struct NodeStatus {
    /// Seconds since the node started.
    pub uptime: u32,

    /// 0 well, 1 a warning, 2 an error, 3 critical. Below 4.
    pub health: u8,

    /// 0 in operation, 1 starting, 2 in maintenance, 3 updating its software, 7 offline. Below 8.
    pub mode: u8,

    /// Of no meaning in this version. Below 8.
    pub sub_mode: u8,

    /// A code of the vendor's own.
    pub vendor: u16,
}

impl NodeStatus {
    ghost use Rattle.dsdl_codec.specs.NodeStatus.{SpellsNodeStatus, node_status_bytes, node_status_of};
    ghost use Rattle.dsdl_codec.specs.Numbers.{node_status_numbers};

    /// The value of a payload; `None` where it has not 7 bytes.
    pub fn read(payload: &[u8]) -> Option<NodeStatus>
        ensures value { result ≡ node_status_of payload.now }
        ensures found { IfSome result (λ status. SpellsNodeStatus status payload.now) }
        ensures none { IsNone result → (status : NodeStatus) →
            SpellsNodeStatus status payload.now → ⊥ }
        ensures only { (status : NodeStatus) → SpellsNodeStatus status payload.now →
            result ≡ Some status }
    {
        let bytes = <[u8; 7]>::try_from(payload).ok()?;
        Some(NodeStatus::from_bytes(&bytes))
    }

    pub(crate) fn from_bytes(bytes: &[u8; 7]) -> NodeStatus
        ensures value { node_status_of bytes.now ≡ Some result }
        ensures found { SpellsNodeStatus result bytes.now }
        ensures only { (status : NodeStatus) → SpellsNodeStatus status bytes.now → result ≡ status }
    {
        let [a, b, c, d, state, e, f] = *bytes;
        NodeStatus {
            uptime: u32::from_le_bytes([a, b, c, d]),
            health: state / 64,
            mode: state / 8 % 8,
            sub_mode: state % 8,
            vendor: u16::from_le_bytes([e, f]),
        }
    }

    /// The payload of 7 bytes.
    pub fn write(&self) -> Payload
        requires health { self.now.health < 4 }
        requires mode { self.now.mode < 8 }
        requires sub_mode { self.now.sub_mode < 8 }
        ensures bytes { result.items ≡ node_status_bytes self.now }
        ensures spelled { SpellsNodeStatus self.now result.items }
        ensures length { array_vec_len result ≡ 7 }
    {
        let mut payload = Payload::new();
        append(&mut payload, &self.uptime.to_le_bytes());
        payload.push(self.health * 64 + self.mode * 8 + self.sub_mode);
        append(&mut payload, &self.vendor.to_le_bytes());
        payload
    }

    /// The numbers of the value.
    pub fn numbers(&self) -> Numbers
        ensures { result.items ≡ node_status_numbers self.now }
    {
        let mut numbers = Numbers::new();
        numbers.push(u64::from(self.uptime));
        numbers.push(u64::from(self.health));
        numbers.push(u64::from(self.mode));
        numbers.push(u64::from(self.sub_mode));
        numbers.push(u64::from(self.vendor));
        numbers
    }
}
