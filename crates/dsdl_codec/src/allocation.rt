ghost use Rattle.std.specs.Prelude.{◌≡◌, ◌<◌, ◌+◌, Some, IfSome, IsNone};
ghost use Rattle.arrayvec.specs.ArrayVec.{array_vec_len};

use crate::numbers::{Numbers, append_counted};
use crate::payload::{Payload, append};
use arrayvec::ArrayVec;

/// A message of the exchange by which a node without an ID gets one
/// (`uavcan.protocol.dynamic_node_id.Allocation`).
#[derive(Debug, Drop, PartialEq, Eq)]
pub struct Allocation {
    /// From a node without an ID, the one that it prefers, or 0; from an allocator, the one that it
    /// gives, or 0 in a follow-up. Below 128.
    pub node: u8,

    /// Whether the bytes begin the unique ID.
    pub first_part: bool,

    /// The next bytes of the unique ID.
    pub uid: ArrayVec<u8, 16>,
}

impl Allocation {
    ghost use Rattle.dsdl_codec.specs.Allocation.{SpellsAllocation, allocation_bytes, allocation_of};
    ghost use Rattle.dsdl_codec.specs.Numbers.{allocation_numbers};

    /// The value of a payload; `None` where it has no byte, or more than 17.
    pub fn read(payload: &[u8]) -> Option<Allocation>
        ensures value { result ≡ allocation_of payload.now }
        ensures found { IfSome result (λ allocation. SpellsAllocation allocation payload.now) }
        ensures none { IsNone result → (allocation : Allocation) →
            SpellsAllocation allocation payload.now → ⊥ }
        ensures only { (allocation : Allocation) → SpellsAllocation allocation payload.now →
            result ≡ Some allocation }
    {
        let (first, rest) = payload.split_first()?;
        Some(Allocation {
            node: *first / 2,
            first_part: *first % 2 == 1,
            uid: ArrayVec::try_from(rest).ok()?,
        })
    }

    /// The payload of 1 to 17 bytes.
    pub fn write(&self) -> Payload
        requires { self.now.node < 128 }
        ensures bytes { result.items ≡ allocation_bytes self.now }
        ensures spelled { SpellsAllocation self.now result.items }
        ensures length { array_vec_len result ≡ 1 + array_vec_len self.now.uid }
    {
        let mut payload = Payload::new();
        payload.push(self.node * 2 + if self.first_part { 1 } else { 0 });
        append(&mut payload, &self.uid);
        payload
    }

    /// The numbers of the value.
    pub fn numbers(&self) -> Numbers
        ensures { result.items ≡ allocation_numbers self.now }
    {
        let mut numbers = Numbers::new();
        numbers.push(u64::from(self.node));
        numbers.push(u64::from(self.first_part));
        append_counted(&mut numbers, &self.uid);
        numbers
    }
}
