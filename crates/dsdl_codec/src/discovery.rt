ghost use Rattle.std.specs.Prelude.{◌≡◌, ◌+◌, Some, IfSome, IsNone};
ghost use Rattle.arrayvec.specs.ArrayVec.{array_vec_len};

use crate::numbers::{Numbers, append_counted};
use crate::payload::{Payload, append};
use arrayvec::ArrayVec;
use can_frame::sizes::MOST_MEMBERS;

/// What allocators of one cluster tell each other until all know all
/// (`uavcan.protocol.dynamic_node_id.server.Discovery`).
#[derive(Debug, Drop, PartialEq, Eq)]
pub struct Discovery {
    /// How many allocators the cluster is to have.
    pub size: u8,

    /// The node IDs of those that the sender knows, itself among them.
    pub known: ArrayVec<u8, MOST_MEMBERS>,
}

impl Discovery {
    ghost use Rattle.dsdl_codec.specs.Discovery.{SpellsDiscovery, discovery_bytes, discovery_of};
    ghost use Rattle.dsdl_codec.specs.Numbers.{discovery_numbers};

    /// The value of a payload; `None` where it has no byte, or more than 6.
    pub fn read(payload: &[u8]) -> Option<Discovery>
        ensures value { result ≡ discovery_of payload.now }
        ensures found { IfSome result (λ discovery. SpellsDiscovery discovery payload.now) }
        ensures none { IsNone result → (discovery : Discovery) →
            SpellsDiscovery discovery payload.now → ⊥ }
        ensures only { (discovery : Discovery) → SpellsDiscovery discovery payload.now →
            result ≡ Some discovery }
    {
        let (size, known) = payload.split_first()?;
        Some(Discovery {
            size: *size,
            known: ArrayVec::try_from(known).ok()?,
        })
    }

    /// The payload of 1 to 6 bytes.
    pub fn write(&self) -> Payload
        ensures bytes { result.items ≡ discovery_bytes self.now }
        ensures spelled { SpellsDiscovery self.now result.items }
        ensures length { array_vec_len result ≡ 1 + array_vec_len self.now.known }
    {
        let mut payload = Payload::new();
        payload.push(self.size);
        append(&mut payload, &self.known);
        payload
    }

    /// The numbers of the value.
    pub fn numbers(&self) -> Numbers
        ensures { result.items ≡ discovery_numbers self.now }
    {
        let mut numbers = Numbers::new();
        numbers.push(u64::from(self.size));
        append_counted(&mut numbers, &self.known);
        numbers
    }
}
