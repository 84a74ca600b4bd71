ghost use Rattle.std.specs.Prelude.{◌≡◌, ◌<◌, ◌+◌, Some, IfSome, IsNone, IsSomeAnd, List, ℕ, length, slice_index_or};

use crate::payload::{split, split_counted};
use arrayvec::ArrayVec;
use can_frame::Uid;

/// The version of a node's hardware (`uavcan.protocol.HardwareVersion`).
#[derive(Drop)]
pub struct HardwareVersion {
    pub major: u8,
    pub minor: u8,
    pub uid: Uid,
    pub certificate: ArrayVec<u8, 255>,
}

impl HardwareVersion {
    ghost use Rattle.dsdl_codec.specs.HardwareVersion.{BeginsWithHardwareVersion};

    /// The value that the bytes begin with, and the bytes behind it.
    pub fn read(bytes: &[u8]) -> Option<(HardwareVersion, &[u8])>
        ensures found { IfSome result
            (λ read. BeginsWithHardwareVersion read.0 read.1.now bytes.now) }
        ensures only { (version : HardwareVersion) (left : List ℕ) →
            BeginsWithHardwareVersion version left bytes.now →
            IsSomeAnd result (λ read. (read.0 ≡ version) × (read.1.now ≡ left)) }
        ensures short { IsNone result → length bytes.now < 19 + slice_index_or bytes.now 18 0 }
    {
        let [major, minor, rest @ ..] = bytes else {
            return None;
        };
        let (uid, rest) = split::<16>(rest)?;
        let (certificate, left) = split_counted(rest)?;
        let version = HardwareVersion {
            major: *major,
            minor: *minor,
            uid: *uid,
            certificate: ArrayVec::try_from(certificate).ok()?,
        };
        Some((version, left))
    }
}
