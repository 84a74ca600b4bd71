ghost use Rattle.std.specs.Prelude.{◌≡◌, ◌<◌, ◌+◌, Some, IfSome, IsNone};
ghost use Rattle.arrayvec.specs.ArrayVec.{array_vec_len};

use crate::hardware_version::HardwareVersion;
use crate::node_status::NodeStatus;
use crate::numbers::{Numbers, append_bytes, append_counted};
use crate::payload::{Payload, append, split};
use crate::software_version::SoftwareVersion;
use arrayvec::ArrayVec;
use can_frame::Uid;

/// What a node answers when it is asked who it is
/// (the response of `uavcan.protocol.GetNodeInfo`).
#[derive(Debug, Drop, PartialEq, Eq)]
pub struct NodeInfo {
    pub status: NodeStatus,

    pub sw_major: u8,
    pub sw_minor: u8,

    /// Bit 0: `sw_commit` is known; bit 1: `sw_crc` is known.
    pub sw_flags: u8,

    /// The revision of the source, as its version control names it.
    pub sw_commit: u32,

    /// CRC-64-WE of the firmware image.
    pub sw_crc: u64,

    pub hw_major: u8,
    pub hw_minor: u8,

    pub uid: Uid,

    /// The certificate of authenticity of the hardware.
    pub certificate: ArrayVec<u8, 255>,

    /// The name of the kind of node, reversed like an internet domain.
    pub name: ArrayVec<u8, 80>,
}

impl NodeInfo {
    ghost use Rattle.dsdl_codec.specs.NodeInfo.{SpellsNodeInfo, node_info_bytes, node_info_of};
    ghost use Rattle.dsdl_codec.specs.Numbers.{node_info_numbers};

    /// The value of a payload; `None` where it has fewer than 41 bytes, or fewer than its certificate
    /// counts, or more than 80 behind that.
    pub fn read(payload: &[u8]) -> Option<NodeInfo>
        ensures value { result ≡ node_info_of payload.now }
        ensures found { IfSome result (λ info. SpellsNodeInfo info payload.now) }
        ensures none { IsNone result → (info : NodeInfo) → SpellsNodeInfo info payload.now → ⊥ }
        ensures only { (info : NodeInfo) → SpellsNodeInfo info payload.now → result ≡ Some info }
    {
        let (status, rest) = split::<7>(payload)?;
        let (software, rest) = split::<15>(rest)?;
        let (hardware, name) = HardwareVersion::read(rest)?;
        let software = SoftwareVersion::from_bytes(software);
        Some(NodeInfo {
            status: NodeStatus::from_bytes(status),
            sw_major: software.major,
            sw_minor: software.minor,
            sw_flags: software.flags,
            sw_commit: software.commit,
            sw_crc: software.crc,
            hw_major: hardware.major,
            hw_minor: hardware.minor,
            uid: hardware.uid,
            certificate: hardware.certificate,
            name: ArrayVec::try_from(name).ok()?,
        })
    }

    /// The payload of 41 to 376 bytes.
    pub fn write(&self) -> Payload
        requires health { self.now.status.health < 4 }
        requires mode { self.now.status.mode < 8 }
        requires sub_mode { self.now.status.sub_mode < 8 }
        ensures bytes { result.items ≡ node_info_bytes self.now }
        ensures spelled { SpellsNodeInfo self.now result.items }
        ensures length { array_vec_len result ≡ 41 + array_vec_len self.now.certificate
            + array_vec_len self.now.name }
    {
        let mut payload = self.status.write();
        append(&mut payload, &[self.sw_major, self.sw_minor, self.sw_flags]);
        append(&mut payload, &self.sw_commit.to_le_bytes());
        append(&mut payload, &self.sw_crc.to_le_bytes());
        append(&mut payload, &[self.hw_major, self.hw_minor]);
        append(&mut payload, &self.uid);
        payload.push(self.certificate.len() as u8);
        append(&mut payload, &self.certificate);
        append(&mut payload, &self.name);
        payload
    }

    /// The numbers of the value.
    pub fn numbers(&self) -> Numbers
        ensures { result.items ≡ node_info_numbers self.now }
    {
        let mut numbers = self.status.numbers();
        append_bytes(&mut numbers, &[self.sw_major, self.sw_minor, self.sw_flags]);
        numbers.push(u64::from(self.sw_commit));
        numbers.push(self.sw_crc);
        append_bytes(&mut numbers, &[self.hw_major, self.hw_minor]);
        append_bytes(&mut numbers, &self.uid);
        append_counted(&mut numbers, &self.certificate);
        append_counted(&mut numbers, &self.name);
        numbers
    }
}
