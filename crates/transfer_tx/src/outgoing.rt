use arrayvec::ArrayVec;
use can_frame::Ident;
use can_frame::sizes::LONGEST_PAYLOAD;

/// A transfer to be sent.
#[derive(Debug, Drop, PartialEq, Eq)]
pub struct Outgoing {
    /// The fields of the identifier that all its frames have.
    pub ident: Ident,

    /// The signature of the data type, which the CRC of a transfer of several frames runs over.
    pub signature: u64,

    /// The transfer ID, 0 to 31.
    pub id: u8,

    pub payload: ArrayVec<u8, LONGEST_PAYLOAD>,
}
