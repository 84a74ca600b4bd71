/// A device call of a put or of an opening failed, and the disk has counted so many faults by then.
#[derive(Clone, Copy, Debug, PartialEq, Eq)]
pub struct Fault {
    pub count: u64,
}

/// Why a store was not opened.
#[derive(Clone, Copy, Debug, PartialEq, Eq)]
pub enum OpenFault {
    /// The disk failed.
    Fault(Fault),

    /// The disk holds no store: this is the first key that is damaged.
    Damaged(u8),
}

/// The disk that was not opened, and why.
#[derive(Drop)]
pub struct OpenRefused<D> {
    pub disk: D,
    pub why: OpenFault,
}
