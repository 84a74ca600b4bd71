/// A frame as a link carries it, of any content: nothing is said of its ranges.
#[derive(Clone, Copy, Debug, Default, PartialEq, Eq)]
pub struct RawFrame {
    /// The identifier; a CAN frame of UAVCAN v0 has one of 29 bits.
    pub id: u32,

    /// How many of the bytes are data; a CAN frame has up to 8.
    pub len: u8,

    /// The data bytes, and behind them bytes that mean nothing.
    pub bytes: [u8; 8],
}

/// What a link had for its owner.
#[derive(Clone, Copy, Debug, PartialEq, Eq)]
pub enum Received {
    /// A frame came.
    Frame(RawFrame),

    /// Something came that is no frame.
    Junk,

    /// Nothing came.
    Nothing,
}
