ghost use Rattle.std.specs.Prelude.{◌≡◌, ℕ, ◌<◌, ◌≤◌, ◌+◌, ◌*◌, ◌++◌, ◌∷◌, List, [], length, get_or, set, Some, None, Option};
ghost use Rattle.std.proofs.Props.{props};
ghost use Rattle.can_frame.specs.Cutting.{payload_of};
ghost use Rattle.can_frame.specs.Identifier.{IsIdentifier};
ghost use Rattle.can_frame.specs.Piece.{piece_of};
ghost use Rattle.transfer_rx.specs.declared.key.Key.{Key};
ghost use Rattle.transfer_rx.specs.Ages.{AreSince};
ghost use Rattle.transfer_rx.specs.Crcs.{HaveCrcs, HaveCrcsOf, IsTurnUnder, IsUnder};
ghost use Rattle.transfer_rx.specs.Filled.{AreFilled, Fills, HasRoomFor, IsFree};
ghost use Rattle.transfer_rx.specs.Keys.{key_of};
ghost use Rattle.transfer_rx.specs.Outcome.{out_of_turn};
ghost use Rattle.transfer_rx.specs.Places.{Arranged, Places, KeepPlaces, KeepSessions, left};
ghost use Rattle.transfer_rx.specs.Heard.{IfDelivers, UnlessDelivers, told_with};
ghost use Rattle.transfer_rx.specs.Ranges.{IsInRange};
ghost use Rattle.transfer_rx.specs.Reassembly.{answer_of, session_after, session_step};
ghost use Rattle.transfer_rx.specs.Sessions.{Session, session_for};
ghost use Rattle.transfer_rx.specs.Progress.{IsProgressOf};
ghost use Rattle.transfer_rx.specs.Turns.{Completes, GoesOn, IsRoomy, IsTurn};
ghost use Rattle.transfer_rx.specs.Used.{AreUnused};
ghost use Rattle.transfer_rx.specs.Verdicts.{IfPart, IfWhole, says};

use crate::accept::Wanted;
use crate::key::Key;
use crate::progress::{Found, Progress};
use crate::transfer::{Heard, Transfer};
use crate::turn::Turn;
use crate::verdict::Verdict;
use block_pool::{BlockPool, NoBlock};
use can_frame::{Frame, Mark, Why};

/// S places, each free or with a session, and a pool with a chain of bytes for each.
#[derive(Drop)]
pub struct Sessions<const S: usize, const N: usize> {
    pub progress: [Option<Progress>; S],
    pub pool: BlockPool<N, S>,

    /// No session took its last frame before this moment, in ms.
    pub oldest: u64,

    /// No place from this one on has a session: none of them is looked at.
    pub used: usize,
    pub ghost few: { S ≤ 1024 },
    pub ghost blocks: { N ≤ 1024 },
    pub ghost chains: { length pool ≡ S },
    pub ghost filled: { AreFilled progress pool },
    pub ghost since: { AreSince oldest progress } by { Prim.hlevel props },
    pub ghost within: { used ≤ S },
    pub ghost unused: { AreUnused used progress } by { Prim.hlevel props },
}

impl<const S: usize, const N: usize> Sessions<S, N> {
    pub fn new() -> Sessions<S, N>
        requires most { S ≤ 1024 }
        requires blocks { N ≤ 1024 }
        ensures sessions { KeepSessions result.progress result.pool [] }
        ensures crcs { (signature_of : Key → Option ℕ) →
            HaveCrcs signature_of result.progress result.pool }
    {
        Sessions {
            progress: [None; S],
            pool: BlockPool::new(),
            oldest: u64::MAX,
            used: 0,
        }
    }

    /// Where a frame comes, and what it leads to there.
    pub fn turn(&self, wanted: &Wanted, frame: &Frame, now: u64, free: usize) -> Turn
        requires few { free ≤ 16384 }
        requires crcs { HaveCrcsOf
            (key_of wanted.now.ident) wanted.now.signature self.now.progress self.now.pool }
        ensures room { IsRoomy S self.now.pool (piece_of frame.now) result }
        ensures crc { IsTurnUnder
            (key_of wanted.now.ident) wanted.now.signature self.now.pool result }
        ensures turn { (places : Places) (sessions : List Session) →
            KeepPlaces self.now.progress self.now.pool places →
            Arranged (left now places) sessions → IsFree N (left now places) free →
            IsTurn S self.now.pool N (key_of wanted.now.ident) wanted.now.signature
            (piece_of frame.now) now (left now places) sessions result }
    {
        let tail = frame.tail();
        let found = match self.session_for(Key::of(&wanted.ident), &tail, now) {
            Ok(found) => found,
            Err(why) => return Turn::Refused(why),
        };
        if let Some(why) = found.progress.out_of_turn(&tail) {
            return Turn::Out(found, why);
        }
        let verdict = self.verdict(&found, frame, wanted.signature, now, free);
        Turn::Next(found, verdict)
    }

    /// Does what a turn says, and tells it. `delivered` becomes the transfer that is delivered, if any.
    pub fn settle(
        &mut self,
        turn: Turn,
        wanted: &Wanted,
        frame: &Frame,
        mark: Mark,
        now: u64,
        delivered: &mut Transfer,
    ) -> Heard
        requires room { IsRoomy S self.old.pool (piece_of frame.now) turn }
        requires crc { IsTurnUnder
            (key_of wanted.now.ident) wanted.now.signature self.old.pool turn }
        requires ident { IsIdentifier wanted.now.ident }
        ensures ranges { IfDelivers result (IsInRange delivered.new) }
        ensures kept { UnlessDelivers result (delivered.new ≡ delivered.old) }
        ensures answer { (most : ℕ) (places : Places) (sessions : List Session) →
            KeepPlaces self.old.progress self.old.pool places → Arranged places sessions →
            IsTurn most self.old.pool N (key_of wanted.now.ident) wanted.now.signature
            (piece_of frame.now) now places sessions turn →
            told_with delivered.new result ≡ (session_step most N wanted.now
            (piece_of frame.now) mark now sessions).answer }
        ensures sessions { (most : ℕ) (places : Places) (sessions : List Session) →
            KeepPlaces self.old.progress self.old.pool places → Arranged places sessions →
            IsTurn most self.old.pool N (key_of wanted.now.ident) wanted.now.signature
            (piece_of frame.now) now places sessions turn →
            KeepSessions self.new.progress self.new.pool
            (session_step most N wanted.now (piece_of frame.now) mark now sessions).sessions }
        ensures crcs { (signature_of : Key → Option ℕ) →
            signature_of (key_of wanted.now.ident) ≡ Some wanted.now.signature →
            HaveCrcs signature_of self.old.progress self.old.pool →
            HaveCrcs signature_of self.new.progress self.new.pool }
    {
        match turn {
            Turn::Refused(why) => Heard::Dropped(why),
            Turn::Out(found, why) => {
                self.put(found.place, found.progress);
                Heard::Dropped(why)
            }
            Turn::Next(found, verdict) => {
                self.apply(found, verdict, wanted, frame, mark, now, delivered)
            }
        }
    }

    /// Cuts the session, or lets it grow, as the verdict says.
    fn apply(
        &mut self,
        found: Found,
        verdict: Verdict,
        wanted: &Wanted,
        frame: &Frame,
        mark: Mark,
        now: u64,
        delivered: &mut Transfer,
    ) -> Heard
        requires place { found.place < S }
        requires filled { Fills found.progress (get_or self.old.pool found.place []) }
        requires crc { IsUnder (key_of wanted.now.ident) wanted.now.signature self.old.pool found }
        requires room { IfPart verdict (GoesOn found (piece_of frame.now)) }
        requires within { IfWhole verdict (Completes found (piece_of frame.now)) }
        requires ident { IsIdentifier wanted.now.ident }
        ensures ranges { IfDelivers result (IsInRange delivered.new) }
        ensures kept { UnlessDelivers result (delivered.new ≡ delivered.old) }
        ensures answer { (places : Places) (session : Session) →
            KeepPlaces self.old.progress self.old.pool places →
            IfPart verdict (HasRoomFor N places found.place (7 * found.progress.taken + 7)) →
            IsProgressOf found.progress (get_or self.old.pool found.place []) session →
            told_with delivered.new result ≡
            answer_of wanted.now.ident (piece_of frame.now) mark session
            (says (payload_of (session.taken ++ piece_of frame.now ∷ [])) verdict) }
        ensures session { (places : Places) (session : Session) →
            KeepPlaces self.old.progress self.old.pool places →
            IfPart verdict (HasRoomFor N places found.place (7 * found.progress.taken + 7)) →
            IsProgressOf found.progress (get_or self.old.pool found.place []) session →
            out_of_turn (piece_of frame.now).tail session ≡ None →
            KeepPlaces self.new.progress self.new.pool (set places found.place (Some
            (session_after (piece_of frame.now) mark now session
            (says (payload_of (session.taken ++ piece_of frame.now ∷ [])) verdict)))) }
        ensures crcs { (signature_of : Key → Option ℕ) →
            signature_of (key_of wanted.now.ident) ≡ Some wanted.now.signature →
            HaveCrcs signature_of self.old.progress self.old.pool →
            HaveCrcs signature_of self.new.progress self.new.pool }
    {
        match verdict {
            Verdict::Whole => {
                self.fill(
                    found.completed(wanted.ident, frame, mark),
                    frame.data(),
                    delivered,
                );
                self.put(found.place, found.progress.cut_off(now));
                Heard::Delivered
            }
            Verdict::Open => {
                let more = frame.data();
                match self.grow(
                    found.place,
                    found.progress,
                    more,
                    wanted.signature,
                    mark,
                    now,
                ) {
                    Ok(()) => Heard::Part,
                    Err(NoBlock) => Heard::Dropped(Why::NoBlock),
                }
            }
            Verdict::Spoiled(why) => {
                self.put(found.place, found.progress.cut_off(now));
                Heard::Dropped(why)
            }
        }
    }
}
