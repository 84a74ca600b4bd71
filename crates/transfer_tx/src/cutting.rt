ghost use Rattle.std.specs.Prelude.{◌≡◌, ℕ, ◌+◌, ◌-◌, ◌/◌, ◌<◌, ◌≤◌, ◌^◌, List, ◌++◌, length, map};
ghost use Rattle.arrayvec.specs.ArrayVec.{array_vec_len};
ghost use Rattle.can_frame.specs.Cutting.{bytes_cut, cut, frame_bytes, frame_count, frames_of, tail_at};
ghost use Rattle.can_frame.specs.Sizes.{longest_payload, longest_transfer};
ghost use Rattle.transfer_tx.specs.Queue.{marked};
ghost use Rattle.transfer_tx.specs.Views.{queued_of};

use crate::{Marked, Sender};
use arrayvec::ArrayVec;
use can_frame::laws::lengths_of_cuttings;
use can_frame::sizes::LONGEST_TRANSFER;
use can_frame::{Frame, Mark, Tail, crc};

/// How many frames a payload of `len` bytes is cut into: 1 for at most 7 bytes; a longer one goes
/// behind the two bytes of its CRC, 7 bytes a frame.
pub fn frames_needed(len: usize) -> usize
    ensures count { result ≡ frame_count len }
    ensures cutting { (signature id : ℕ) (payload : List ℕ) → length payload ≡ len →
        length (frames_of signature id payload) ≡ result }
{
    lengths_of_cuttings();
    if len <= 7 { 1 } else { (len - 6) / 7 + 2 }
}

/// What is cut: a payload of at most 7 bytes alone, a longer one behind its CRC, low byte first.
pub(crate) fn bytes_to_cut(signature: u64, payload: &[u8]) -> ArrayVec<u8, LONGEST_TRANSFER>
    requires { length payload.now ≤ longest_payload }
    ensures bytes { result.items ≡ bytes_cut signature payload.now }
    ensures count { array_vec_len result ≤ longest_transfer }
{
    let mut bytes = ArrayVec::new();
    if payload.len() > 7 {
        let crc = crc(signature, payload).to_le_bytes();
        bytes.try_extend_from_slice(&crc).unwrap();
    }
    bytes.try_extend_from_slice(payload).unwrap();
    bytes
}

/// What the frames of one transfer have in common.
#[derive(Drop)]
pub(crate) struct Stamp {
    /// The number of the identifier.
    pub id: u32,

    pub transfer_id: u8,
    pub step: u64,
    pub re: u64,
    pub ghost narrow: { id < 2 ^ 29 },
    pub ghost five_bits: { transfer_id < 32 },
}

impl Stamp {
    /// Puts the frames of these bytes into a queue.
    pub fn cut<const Q: usize>(&self, bytes: &[u8], queue: &mut Sender<Q>)
        requires size { length bytes.now ≤ longest_transfer }
        requires room { length queue.old + (length bytes.now - 1) / 7 < Q }
        ensures { queue.new ≡ queue.old ++
            marked self.now.id self.now.step self.now.re 0
            (cut self.now.transfer_id 0 ((length bytes.now - 1) / 7) bytes.now) }
    {
        let mut rest = bytes;
        let mut place = 0;
        while rest.len() > 7 {
            let (piece, more) = rest.split_at(7);
            queue.put(self.frame(piece, place, false));
            rest = more;
            place += 1;
        }
        queue.put(self.frame(rest, place, true));
    }

    /// The frame at a place of the transfer.
    fn frame(&self, bytes: &[u8], place: u8, last: bool) -> Marked
        requires { length bytes.now ≤ 7 }
        ensures { queued_of result ≡ record {
          id = self.now.id;
          bytes = frame_bytes
              (record { bytes = bytes.now; tail = tail_at self.now.transfer_id place last });
          mark = record { step = self.now.step; re = self.now.re; place = place };
        } }
    {
        let tail = Tail {
            start: place == 0,
            end: last,
            toggle: place % 2 == 1,
            id: self.transfer_id,
        };
        let mut kept = ArrayVec::new();
        kept.try_extend_from_slice(bytes).unwrap();
        kept.push(tail.write());
        Marked {
            frame: Frame {
                id: self.id,
                bytes: kept,
            },
            mark: Mark {
                step: self.step,
                re: self.re,
                place,
            },
        }
    }
}
