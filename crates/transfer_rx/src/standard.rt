//! Numbers of the UAVCAN v0 specification, "CAN bus transport layer".

/// Transfer IDs are counted modulo this.
pub const TRANSFER_IDS: u8 = 32;

/// The bytes of a full frame, without its tail.
pub const FRAME_BYTES: usize = 7;

/// The bytes of the CRC in front of a transfer of several frames.
pub const CRC_BYTES: usize = 2;
