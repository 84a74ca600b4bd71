//! Frames of the cases.

use can_frame::Frame;
use outside::RawFrame;
use std::test::Fail;

/// The NodeStatus of node 1, which has run for 4 seconds, as it goes over links.
pub(crate) const FRAME: RawFrame = RawFrame {
    id: 0x1e01_5501,
    len: 8,
    bytes: [4, 0, 0, 0, 0, 0, 0, 0xc0],
};

/// The frame of this identifier with these bytes.
pub(crate) fn frame_of(id: u32, bytes: &[u8]) -> Result<Frame, Fail> {
    let frame = Frame::from_parts(id, bytes);
    Ok(frame.ok().ok_or("no frame")?)
}

/// The first request of a device that asks for a node ID.
pub(crate) fn first_request() -> Result<Frame, Fail> {
    frame_of(0x1e00_0500, &[0xfb, 0, 1, 2, 3, 4, 5, 0xc0])
}
