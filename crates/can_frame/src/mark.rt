/// What rides beside a frame in a cluster under test, and never goes on the bus.
#[derive(Clone, Copy, Debug, PartialEq, Eq)]
pub struct Mark {
    /// The number of the step that made the frame; 0 for a frame from outside.
    pub step: u64,

    /// The step of the request that a response answers, else 0.
    pub re: u64,

    /// The frame's place in its transfer, from 0.
    pub place: u8,
}
