ghost use Rattle.std.specs.Prelude.{◌≡◌, ◌<◌, ◌≤◌, ◌^◌, ◌↔◌, [], ◌∷◌, IfOk, IsErrOf, length};
ghost use Rattle.arrayvec.specs.ArrayVec.{array_vec_len};

use crate::Tail;
use arrayvec::ArrayVec;
use thiserror::Error;

/// A frame of the bus: a 29-bit identifier, and 1 to 8 bytes, of which the last is the tail.
#[derive(Debug, Drop, PartialEq, Eq)]
pub struct Frame {
    pub id: u32,
    pub bytes: ArrayVec<u8, 8>,
    pub ghost narrow: { id < 2 ^ 29 },
    pub ghost filled: { 0 < array_vec_len bytes },
    pub ghost short: { array_vec_len bytes ≤ 8 },
}

/// Why an identifier and bytes are no frame. The first of these that holds is the reason.
#[derive(Clone, Copy, Debug, Error, PartialEq, Eq)]
pub enum BadFrame {
    #[error("the identifier is wider than 29 bits")]
    Wide = 1,

    #[error("a frame has one byte at least")]
    Empty = 2,

    #[error("a frame has eight bytes at most")]
    Long = 3,
}

/// A blank for the unused places of a list of fixed capacity: identifier 0 and one byte, 0.
impl Default for Frame {
    ghost is_default = { λ frame. (frame.id ≡ 0) × (frame.bytes.items ≡ 0 ∷ []) };

    fn default() -> Frame {
        let mut bytes = ArrayVec::new();
        bytes.push(0);
        Frame { id: 0, bytes }
    }
}

impl Frame {
    ghost use Rattle.can_frame.specs.Piece.{piece_of};

    /// The frame of an identifier and its bytes, the tail last.
    pub fn from_parts(id: u32, bytes: &[u8]) -> Result<Frame, BadFrame>
        ensures ok { IfOk result (λ frame. (frame.id ≡ id) × (frame.bytes.items ≡ bytes.now)) }
        ensures wide { IsErrOf result BadFrame.Wide ↔ (2 ^ 29 ≤ id) }
        ensures empty { IsErrOf result BadFrame.Empty ↔ ((id < 2 ^ 29) × (length bytes.now ≡ 0)) }
        ensures long { IsErrOf result BadFrame.Long ↔ ((id < 2 ^ 29) × (8 < length bytes.now)) }
    {
        if id >= 1 << 29 {
            return Err(BadFrame::Wide);
        }
        if bytes.is_empty() {
            return Err(BadFrame::Empty);
        }
        let mut kept = ArrayVec::new();
        match kept.try_extend_from_slice(bytes) {
            Ok(()) => Ok(Frame { id, bytes: kept }),
            Err(_) => Err(BadFrame::Long),
        }
    }

    /// The same frame again.
    pub fn copy(&self) -> Frame
        ensures { result ≡ self.now }
    {
        let mut bytes = ArrayVec::new();
        match bytes.try_extend_from_slice(&self.bytes) {
            Ok(()) => Frame { id: self.id, bytes },
            Err(_) => unreachable!(),
        }
    }

    /// The bytes before the tail, 0 to 7.
    pub fn data(&self) -> &[u8]
        ensures bytes { result.now ≡ (piece_of self.now).bytes }
        ensures short { length result.now ≤ 7 }
    {
        let bytes = self.bytes.as_slice();
        &bytes[..bytes.len() - 1]
    }

    pub fn tail(&self) -> Tail
        ensures tail { result ≡ (piece_of self.now).tail }
        ensures id { result.id < 32 }
    {
        let bytes = self.bytes.as_slice();
        Tail::read(bytes[bytes.len() - 1])
    }
}
