ghost use Rattle.std.specs.Prelude.{◌≡◌, ◌≤◌, ◌<◌, length};
ghost use Rattle.cmd_soak.specs.Requests.{frame_of, request};

use arrayvec::ArrayVec;
use can_frame::Frame;
use can_frame::laws::frames_are_their_parts;

/// The identifier of a request for a node ID: a message of type 1 from a node without an ID.
const IDENTIFIER: u32 = 0x1e00_0500;

/// The frame of a request for a node ID, counted from 0: three for each of 200 devices, in turn.
pub(crate) fn request(number: u64) -> Frame
    ensures { result ≡ request number }
{
    if number % 3 == 0 {
        return frame(&[1, 0x5a, 0x5a, 0x5a, 0x5a, 0x5a, 0x5a, 0xc0]);
    }
    if number % 3 == 1 {
        return frame(&[0, 0x5a, 0x5a, 0x5a, 0x5a, 0x5a, 0x5a, 0xc0]);
    }
    let device = (number / 3 % 200 + 1) as u8;
    frame(&[0, 0x5a, 0x5a, 0, device, 0xc0])
}

/// The frame of these bytes.
fn frame(bytes: &[u8]) -> Frame
    requires filled { 0 < length bytes.now }
    requires short { length bytes.now ≤ 8 }
    ensures { (filled : 0 < length bytes.now) (short : length bytes.now ≤ 8) →
        result ≡ frame_of bytes.now filled short }
{
    frames_are_their_parts();
    let mut kept = ArrayVec::new();
    match kept.try_extend_from_slice(bytes) {
        Ok(()) => Frame {
            id: IDENTIFIER,
            bytes: kept,
        },
        Err(_) => unreachable!(),
    }
}
