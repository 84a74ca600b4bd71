ghost use Rattle.std.specs.Prelude.{◌≡◌, ◌<◌, ◌≤◌, ◌+◌, ◌*◌, ◌++◌, ◌∷◌, List, [], length, get_or, Some, None};
ghost use Rattle.can_frame.specs.Cutting.{Piece, payload_of};
ghost use Rattle.can_frame.specs.Piece.{piece_of};
ghost use Rattle.can_frame.specs.Sizes.{longest_transfer};
ghost use Rattle.transfer_rx.specs.declared.key.Key.{Key};
ghost use Rattle.transfer_rx.specs.Crcs.{HasCrc};
ghost use Rattle.transfer_rx.specs.Filled.{Fills, IsFree};
ghost use Rattle.transfer_rx.specs.Outcome.{lacks_blocks, out_of_turn, outcome};
ghost use Rattle.transfer_rx.specs.Places.{Arranged, IsSessionFound, Places, KeepPlaces, blocks_at, kept, left};
ghost use Rattle.transfer_rx.specs.Sessions.{Session, others};
ghost use Rattle.transfer_rx.specs.Turns.{Completes, GoesOn};
ghost use Rattle.transfer_rx.specs.Verdicts.{IfPart, IfWhole, says};

use crate::age::unless_old;
use crate::progress::Found;
use crate::sessions::Sessions;
use crate::standard::FRAME_BYTES;
use crate::verdict::{Verdict, blocks_for, check_crc, is_alone, is_wrong_end, is_wrong_part};
use can_frame::{Frame, Tail, Why};

impl<const S: usize, const N: usize> Sessions<S, N> {
    /// What comes of the next frame: its length is tried first, then the blocks, and the CRC last.
    /// `free` is how many blocks no session uses that is recent.
    pub fn verdict(
        &self,
        found: &Found,
        frame: &Frame,
        signature: u64,
        now: u64,
        free: usize,
    ) -> Verdict
        requires place { found.now.place < S }
        requires filled { Fills found.now.progress (get_or self.now.pool found.now.place []) }
        requires crc { HasCrc signature found.now.progress
            (get_or self.now.pool found.now.place []) }
        requires few { free ≤ 16384 }
        ensures room { IfPart result (GoesOn found.now (piece_of frame.now)) }
        ensures within { IfWhole result (Completes found.now (piece_of frame.now)) }
        ensures verdict { (places : Places) (sessions : List Session) (key : Key)
            (session : Session) →
            KeepPlaces self.now.progress self.now.pool places →
            Arranged (left now places) sessions →
            IsSessionFound self.now.pool key (left now places) sessions found.now session →
            out_of_turn (piece_of frame.now).tail session ≡ None → IsFree N (left now places) free →
            says (payload_of (session.taken ++ piece_of frame.now ∷ [])) result ≡
            outcome N signature (piece_of frame.now) session.taken (others key sessions) }
    {
        let tail = frame.tail();
        let data = frame.data();
        let taken = found.progress.taken;
        if tail.end {
            if is_wrong_end(taken, data.len()) {
                return Verdict::Spoiled(Why::Length);
            }
            if self.lacks_blocks(found, &tail, data.len(), now, free) {
                return Verdict::Spoiled(Why::NoBlock);
            }
            return check_crc(taken, data, found.progress.crc, found.progress.sent_crc);
        }
        if is_wrong_part(taken, data.len()) {
            return Verdict::Spoiled(Why::Length);
        }
        if self.lacks_blocks(found, &tail, data.len(), now, free) {
            return Verdict::Spoiled(Why::NoBlock);
        }
        Verdict::Open
    }

    /// Whether a frame that is no transfer of its own asks for more blocks than the free ones and
    /// those of its session.
    fn lacks_blocks(&self, found: &Found, tail: &Tail, size: usize, now: u64, free: usize) -> bool
        requires place { found.now.place < S }
        requires within { 7 * found.now.progress.taken + size ≤ longest_transfer }
        requires few { free ≤ 16384 }
        ensures { (places : Places) (sessions : List Session) (key : Key) (session : Session)
            (piece : Piece) →
            KeepPlaces self.now.progress self.now.pool places →
            Arranged (left now places) sessions →
            IsSessionFound self.now.pool key (left now places) sessions found.now session →
            piece.tail ≡ tail.now → length piece.bytes ≡ size → IsFree N (left now places) free →
            result ≡ lacks_blocks N piece session.taken (others key sessions) }
    {
        if is_alone(tail) {
            return false;
        }
        let own = self.blocks_at(found.place, now);
        blocks_for(FRAME_BYTES * found.progress.taken as usize + size) > free + own
    }

    /// The blocks of the session at a place, unless it is too old.
    fn blocks_at(&self, place: usize, now: u64) -> usize
        requires { place < S }
        ensures few { result ≤ 14 }
        ensures used { (places : Places) → KeepPlaces self.now.progress self.now.pool places →
            result ≡ blocks_at (get_or (left now places) place None) }
    {
        match self.recent(place, now) {
            Some(progress) => progress.blocks(),
            None => 0,
        }
    }

    /// The blocks that no session uses.
    pub fn free_blocks(&self) -> usize
        ensures few { result ≤ 16384 }
        ensures free { (places : Places) → KeepPlaces self.now.progress self.now.pool places →
            IsFree N places result }
    {
        self.pool.free()
    }

    /// The blocks that no session would use once the old ones are forgotten.
    pub fn free_without_old(&self, now: u64) -> usize
        ensures few { result ≤ 16384 }
        ensures free { (places : Places) → KeepPlaces self.now.progress self.now.pool places →
            IsFree N (left now places) result }
    {
        let mut free = self.pool.free();
        if self.has_none_old(now) {
            return free;
        }
        for place in 0..self.used {
            free += self.old_blocks_at(place, now);
        }
        free
    }

    /// The blocks of the session at a place, where it is too old.
    fn old_blocks_at(&self, place: usize, now: u64) -> usize
        requires { place < S }
        ensures few { result ≤ 14 }
        ensures old { (places : Places) → KeepPlaces self.now.progress self.now.pool places →
            result + blocks_at (get_or (left now places) place None) ≡
            blocks_at (get_or places place None) }
    {
        match self.progress[place] {
            Some(progress) if unless_old(Some(progress), now).is_none() => progress.blocks(),
            _ => 0,
        }
    }
}
