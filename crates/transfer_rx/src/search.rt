ghost use Rattle.std.specs.Prelude.{◌≡◌, ℕ, ◌<◌, List, [], length, get_or, false, Some, None, IfOk, IfSome, MatchOption, Option};
ghost use Rattle.transfer_rx.specs.Chains.{is_of_key, place_of};
ghost use Rattle.transfer_rx.specs.Crcs.{HaveCrcsOf, IsUnder};
ghost use Rattle.transfer_rx.specs.Filled.{Fills};
ghost use Rattle.transfer_rx.specs.Places.{Arranged, IsSearchResult, IsSessionOfKey, IsSessionAtPlace, Places, KeepPlaces, has_key, kept, left};
ghost use Rattle.transfer_rx.specs.Sessions.{Session, session_for, session_of};
ghost use Rattle.transfer_rx.specs.Progress.{IsProgressAt};

use crate::age::unless_old;
use crate::key::Key;
use crate::progress::{Found, Progress};
use crate::sessions::Sessions;
use can_frame::{Tail, Why};

impl<const S: usize, const N: usize> Sessions<S, N> {
    /// The session that a frame comes to, as the frame finds it, or why there is none.
    pub fn session_for(&self, key: Key, tail: &Tail, now: u64) -> Result<Found, Why>
        requires { tail.now.id < 32 }
        ensures place { IfOk result (λ found. found.place < S) }
        ensures filled { IfOk result
            (λ found. Fills found.progress (get_or self.now.pool found.place [])) }
        ensures crc { (signature : ℕ) → HaveCrcsOf key signature self.now.progress self.now.pool →
            IfOk result (IsUnder key signature self.now.pool) }
        ensures found { (places : Places) (sessions : List Session) →
            KeepPlaces self.now.progress self.now.pool places →
            Arranged (left now places) sessions →
            IsSearchResult self.now.pool key (left now places) sessions result
            (session_for S key tail.now now sessions) }
    {
        if let Some(found) = self.find(key, now) {
            return Ok(Found {
                place: found.place,
                progress: found.progress.restarted(tail),
            });
        }
        if !tail.start {
            return Err(Why::Start);
        }
        match self.free(now) {
            Some(place) => Ok(Found {
                place,
                progress: Progress::opened(key, tail, now),
            }),
            None => Err(Why::NoSession),
        }
    }

    /// The place of a key's session, too old or not.
    pub fn place_of(&self, key: Key) -> Option<usize>
        ensures { result ≡ place_of key self.now.progress }
    {
        self.progress.iter().position(|there| is_of_key(there, key))
    }

    /// The session of a key.
    fn find(&self, key: Key, now: u64) -> Option<Found>
        ensures place { IfSome result (λ found. found.place < S) }
        ensures filled { IfSome result
            (λ found. Fills found.progress (get_or self.now.pool found.place [])) }
        ensures crc { (signature : ℕ) → HaveCrcsOf key signature self.now.progress self.now.pool →
            IfSome result (IsUnder key signature self.now.pool) }
        ensures found { (places : Places) (sessions : List Session) →
            KeepPlaces self.now.progress self.now.pool places →
            Arranged (left now places) sessions →
            MatchOption result (session_of key sessions ≡ None)
            (IsSessionOfKey self.now.pool key (left now places) sessions) }
    {
        for place in 0..self.used {
            if let Some(found) = self.find_at(place, key, now) {
                return Some(found);
            }
        }
        None
    }

    /// The session of a key, where it is at this place.
    fn find_at(&self, place: usize, key: Key, now: u64) -> Option<Found>
        requires { place < S }
        ensures place { IfSome result (λ found. found.place ≡ place) }
        ensures filled { IfSome result
            (λ found. Fills found.progress (get_or self.now.pool place [])) }
        ensures crc { (signature : ℕ) → HaveCrcsOf key signature self.now.progress self.now.pool →
            IfSome result (IsUnder key signature self.now.pool) }
        ensures found { (places : Places) → KeepPlaces self.now.progress self.now.pool places →
            MatchOption result (has_key key (get_or (left now places) place None) ≡ false)
            (IsSessionAtPlace self.now.pool key (left now places)) }
    {
        if !is_of_key(&self.progress[place], key) {
            return None;
        }
        match self.recent(place, now) {
            Some(progress) => Some(Found { place, progress }),
            None => None,
        }
    }

    /// The first place without a session.
    fn free(&self, now: u64) -> Option<usize>
        ensures place { IfSome result (λ place. place < S) }
        ensures free { (places : Places) (sessions : List Session) →
            KeepPlaces self.now.progress self.now.pool places →
            Arranged (left now places) sessions →
            MatchOption result (length sessions ≡ S)
            (λ place. (length sessions < S) × (get_or (left now places) place None ≡ None)) }
    {
        for place in 0..self.used {
            if self.recent(place, now).is_none() {
                return Some(place);
            }
        }
        if self.used == S {
            return None;
        }
        Some(self.used)
    }

    /// The session at a place, unless it is too old.
    pub fn recent(&self, place: usize, now: u64) -> Option<Progress>
        requires { place < S }
        ensures filled { IfSome result
            (λ progress. Fills progress (get_or self.now.pool place [])) }
        ensures same { IfSome result (λ progress. get_or self.now.progress place None ≡
            Some progress) }
        ensures recent { (places : Places) → KeepPlaces self.now.progress self.now.pool places →
            IsProgressAt result (get_or self.now.pool place []) (get_or
            (left now places) place None) }
    {
        unless_old(self.progress[place], now)
    }
}

fn is_of_key(there: &Option<Progress>, key: Key) -> bool
    ensures { result ≡ is_of_key key there.now }
{
    match there {
        Some(progress) => progress.key == key,
        None => false,
    }
}
