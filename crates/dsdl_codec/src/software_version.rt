ghost use Rattle.std.specs.Prelude.{◌≡◌};

/// The version of a node's software (`uavcan.protocol.SoftwareVersion`).
#[derive(Clone, Copy)]
pub struct SoftwareVersion {
    pub major: u8,
    pub minor: u8,
    pub flags: u8,
    pub commit: u32,
    pub crc: u64,
}

impl SoftwareVersion {
    ghost use Rattle.dsdl_codec.specs.SoftwareVersion.{SpellsSoftwareVersion};

    pub fn from_bytes(bytes: &[u8; 15]) -> SoftwareVersion
        ensures found { SpellsSoftwareVersion result bytes.now }
        ensures only { (version : SoftwareVersion) → SpellsSoftwareVersion version bytes.now →
            result ≡ version }
    {
        let [major, minor, flags, a, b, c, d, e, f, g, h, i, j, k, l] = *bytes;
        SoftwareVersion {
            major,
            minor,
            flags,
            commit: u32::from_le_bytes([a, b, c, d]),
            crc: u64::from_le_bytes([e, f, g, h, i, j, k, l]),
        }
    }
}
