ghost use Rattle.std.specs.Prelude.{◌≡◌, ℕ, false, ◌+◌, ◌*◌, ◌<◌, ◌≤◌, ◌%◌, ◌++◌, ◌∷◌, [], List, drop, length, take};

use crate::key::Key;
use crate::standard::{CRC_BYTES, FRAME_BYTES, TRANSFER_IDS};
use crate::verdict::blocks_for;
use can_frame::{Mark, Tail, Why, crc, crc_more};

/// How far the session at a place has come: how many frames it took since the last cut, each of seven
/// bytes, and whether their marks are those of one step, in order.
#[derive(Clone, Copy, Debug)]
pub struct Progress {
    pub key: Key,
    pub expected: u8,
    pub taken: u8,
    pub moment: u64,
    pub step: u64,
    pub whole: bool,
    /// The CRC of the bytes taken, but for the two of the transfer's CRC at their front.
    pub crc: u16,
    /// The transfer's CRC, at the front of the bytes taken.
    pub sent_crc: u16,
    pub ghost id: { expected < 32 },
    pub ghost few: { taken ≤ 54 },
}

/// The place of a session, and the session as a frame finds it.
#[derive(Clone, Copy, Debug)]
pub struct Found {
    pub place: usize,
    pub progress: Progress,
}

impl Progress {
    ghost use Rattle.can_frame.specs.Cutting.{Piece, tail_at};
    ghost use Rattle.can_frame.specs.TransferCrc.{transfer_crc};
    ghost use Rattle.transfer_rx.specs.Crcs.{BeginsWithCrc, HasCrc};
    ghost use Rattle.transfer_rx.specs.Filled.{Fills};
    ghost use Rattle.transfer_rx.specs.Marks.{is_whole};
    ghost use Rattle.transfer_rx.specs.Outcome.{out_of_turn, session_blocks};
    ghost use Rattle.transfer_rx.specs.Reassembly.{cut_off, grown};
    ghost use Rattle.transfer_rx.specs.Sessions.{Session, new_session, restarted_session};
    ghost use Rattle.transfer_rx.specs.Progress.{Begins, IsProgressOf};

    /// A session that begins with a frame.
    pub fn opened(key: Key, tail: &Tail, now: u64) -> Progress
        requires { tail.now.id < 32 }
        ensures key { result.key ≡ key }
        ensures none { result.taken ≡ 0 }
        ensures keeps { (bytes : List ℕ) → IsProgressOf result bytes (new_session key tail.now now) }
    {
        Progress {
            key,
            expected: tail.id,
            taken: 0,
            moment: now,
            step: 0,
            whole: true,
            crc: 0,
            sent_crc: 0,
        }
    }

    /// Begun anew by a first frame whose ID is neither the expected one nor the one before it.
    pub fn restarted(self, tail: &Tail) -> Progress
        requires { tail.now.id < 32 }
        ensures key { result.key ≡ self.key }
        ensures filled { (chain : List ℕ) → Fills self chain → Fills result chain }
        ensures crc { (signature : ℕ) (chain : List ℕ) → HasCrc signature self chain →
            HasCrc signature result chain }
        ensures keeps { (bytes : List ℕ) (session : Session) → IsProgressOf self bytes session →
            IsProgressOf result bytes (restarted_session tail.now session) }
    {
        if tail.start && tail.id != self.expected && (tail.id + 1) % TRANSFER_IDS != self.expected {
            return self.emptied(tail.id, self.moment);
        }
        self
    }

    /// Why the frame is not the next piece: its ID, its start bit or its toggle.
    pub fn out_of_turn(self, tail: &Tail) -> Option<Why>
        ensures { (bytes : List ℕ) (session : Session) → IsProgressOf self bytes session →
            result ≡ out_of_turn tail.now session }
    {
        if tail.id != self.expected {
            return Some(Why::TransferId);
        }
        if tail.start != (self.taken == 0) {
            return Some(Why::Start);
        }
        if tail.toggle != (self.taken % 2 == 1) {
            return Some(Why::Toggle);
        }
        None
    }

    /// At a cut the session waits for the next transfer.
    pub fn cut_off(self, now: u64) -> Progress
        ensures none { result.taken ≡ 0 }
        ensures moment { result.moment ≡ now }
        ensures keeps { (bytes after : List ℕ) (session : Session) →
            IsProgressOf self bytes session → IsProgressOf result after (cut_off now session) }
    {
        self.emptied((self.expected + 1) % TRANSFER_IDS, now)
    }

    /// With nothing taken, and an ID to wait for.
    fn emptied(self, expected: u8, moment: u64) -> Progress
        requires { expected < 32 }
        ensures key { result.key ≡ self.key }
        ensures none { result.taken ≡ 0 }
        ensures moment { result.moment ≡ moment }
        ensures keeps { (bytes : List ℕ) →
            IsProgressOf result bytes
            (record {
              key = self.key;
              expected = expected;
              taken = [];
              marks = [];
              moment = moment;
            }) }
    {
        Progress {
            key: self.key,
            expected,
            taken: 0,
            moment,
            step: 0,
            whole: true,
            crc: 0,
            sent_crc: 0,
        }
    }

    /// With one more frame of seven bytes.
    pub fn grown(self, mark: Mark, now: u64, signature: u64, more: &[u8]) -> Progress
        requires room { self.taken < 54 }
        requires seven { length more.now ≡ 7 }
        ensures key { result.key ≡ self.key }
        ensures taken { result.taken ≡ self.taken + 1 }
        ensures moment { result.moment ≡ now }
        ensures crc { (chain : List ℕ) → length chain ≡ 7 * self.taken →
            HasCrc signature self chain → HasCrc signature result (chain ++ more.now) }
        ensures keeps { (bytes after : List ℕ) (session : Session) (piece : Piece) →
            IsProgressOf self bytes session →
            length piece.bytes ≡ 7 →
            piece.tail ≡ tail_at session.expected (length session.taken) false →
            take (7 * (self.taken + 1)) after ≡ take (7 * self.taken) bytes ++ piece.bytes →
            IsProgressOf result after (grown piece mark now session) }
    {
        Progress {
            key: self.key,
            expected: self.expected,
            taken: self.taken + 1,
            moment: now,
            step: self.step_with(mark),
            whole: self.is_whole_with(mark),
            crc: self.crc_with(signature, more),
            sent_crc: self.sent_crc_with(more),
        }
    }

    /// The CRC with the bytes of one more frame. The first frame begins with the transfer's own CRC.
    fn crc_with(self, signature: u64, more: &[u8]) -> u16
        requires { length more.now ≡ 7 }
        ensures { (chain : List ℕ) → length chain ≡ 7 * self.taken → HasCrc signature self chain →
            result ≡ transfer_crc signature (drop 2 (chain ++ more.now)) }
    {
        if self.taken == 0 {
            crc(signature, &more[CRC_BYTES..])
        } else {
            crc_more(self.crc, more)
        }
    }

    /// The CRC in front of the transfer, which its first frame begins with.
    fn sent_crc_with(self, more: &[u8]) -> u16
        requires { length more.now ≡ 7 }
        ensures { (signature : ℕ) (chain : List ℕ) → length chain ≡ 7 * self.taken →
            HasCrc signature self chain → BeginsWithCrc result (chain ++ more.now) }
    {
        if self.taken == 0 {
            u16::from(more[0]) + 256 * u16::from(more[1])
        } else {
            self.sent_crc
        }
    }

    /// The blocks that the bytes taken use.
    pub fn blocks(self) -> usize
        ensures few { result ≤ 14 }
        ensures used { (bytes : List ℕ) (session : Session) → IsProgressOf self bytes session →
            result ≡ session_blocks session }
    {
        blocks_for(FRAME_BYTES * self.taken as usize)
    }

    /// Whether the frames with one more have the marks of one step, in order.
    pub fn is_whole_with(self, mark: Mark) -> bool
        ensures { (bytes : List ℕ) (session : Session) → IsProgressOf self bytes session →
            result ≡ is_whole (session.marks ++ mark ∷ []) }
    {
        let step = self.step_with(mark);
        if !self.whole {
            return false;
        }
        if mark.step != step {
            return false;
        }
        mark.place == self.taken
    }

    /// The step of the first frame.
    fn step_with(self, mark: Mark) -> u64
        ensures { (bytes : List ℕ) (session : Session) → IsProgressOf self bytes session →
            Begins result (session.marks ++ mark ∷ []) }
    {
        if self.taken == 0 {
            mark.step
        } else {
            self.step
        }
    }
}
