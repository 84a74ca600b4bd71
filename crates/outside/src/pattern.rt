use arrayvec::ArrayVec;

/// What a disk in memory makes, at a restart, of the bytes that were written since the last sync that
/// succeeded.
#[derive(Debug, Drop, PartialEq, Eq)]
pub enum Pattern {
    /// Each is the byte before those writes.
    Old,

    /// Each is the byte written last.
    New,

    /// These 1 to 16 bytes, repeated from the first byte of each run of written bytes.
    Bytes(ArrayVec<u8, 16>),
}
