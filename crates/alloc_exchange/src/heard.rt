use arrayvec::ArrayVec;
use can_frame::Uid;

/// Why a request was ignored.
#[derive(Clone, Copy, Debug, PartialEq, Eq)]
pub enum Ignore {
    /// Another stage is expected.
    Stage,

    /// It has not as many bytes as its stage.
    Length,
}

/// What a request leads to.
#[derive(Debug, Drop, PartialEq, Eq)]
pub enum Heard {
    /// It was not accepted, and nothing is answered.
    Ignored(Ignore),

    /// It was accepted. These 6 or 12 bytes, all so far, are to be answered.
    FollowUp(ArrayVec<u8, 16>),

    /// It was in order, but no follow-up may be given now: the bytes so far are forgotten.
    Denied,

    /// The unique ID is whole. The number is the node ID that its node prefers, 0 for any.
    Whole(Uid, u8),
}
