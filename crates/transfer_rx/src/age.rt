//! Which sessions are too old, and are forgotten.

ghost use Rattle.std.specs.Prelude.{◌≡◌, ◌↔◌, ◌-◌, ◌≤◌, ℕ, true, List, Some, None, IfSome, Option};
ghost use Rattle.can_frame.specs.Timing.{transfer_timeout};
ghost use Rattle.transfer_rx.specs.declared.key.Key.{Key};
ghost use Rattle.transfer_rx.specs.Ages.{AreSince};
ghost use Rattle.transfer_rx.specs.Crcs.{HaveCrcs};
ghost use Rattle.transfer_rx.specs.Places.{Places, KeepPlaces, kept, left};
ghost use Rattle.transfer_rx.specs.Progress.{IsProgressAt};
ghost use Rattle.transfer_rx.specs.Sessions.{Session};
ghost use Rattle.transfer_rx.specs.Used.{AreUnused};

use crate::progress::Progress;
use crate::sessions::Sessions;
use can_frame::timing::TRANSFER_TIMEOUT;

impl<const S: usize, const N: usize> Sessions<S, N> {
    /// Forgets the sessions that are too old. Their blocks are free again.
    pub fn forget(&mut self, now: u64)
        ensures places { (places : Places) → KeepPlaces self.old.progress self.old.pool places →
            KeepPlaces self.new.progress self.new.pool (left now places) }
        ensures crcs { (signature_of : Key → Option ℕ) →
            HaveCrcs signature_of self.old.progress self.old.pool →
            HaveCrcs signature_of self.new.progress self.new.pool }
    {
        if self.has_none_old(now) {
            return;
        }
        self.clear_old(now);
        self.oldest = oldest_of(&self.progress, self.used);
    }

    /// Whether even the oldest session is not too old.
    pub fn has_none_old(&self, now: u64) -> bool
        ensures exact { result ≡ true ↔ (now - self.now.oldest ≤ transfer_timeout) }
        ensures places { result ≡ true → (places : Places) →
            KeepPlaces self.now.progress self.now.pool places → left now places ≡ places }
    {
        now.saturating_sub(self.oldest) <= TRANSFER_TIMEOUT
    }

    /// Clears the places whose sessions are too old.
    fn clear_old(&mut self, now: u64)
        ensures places { (places : Places) → KeepPlaces self.old.progress self.old.pool places →
            KeepPlaces self.new.progress self.new.pool (left now places) }
        ensures crcs { (signature_of : Key → Option ℕ) →
            HaveCrcs signature_of self.old.progress self.old.pool →
            HaveCrcs signature_of self.new.progress self.new.pool }
    {
        for place in 0..self.used {
            if self.progress[place].is_none() {
                continue;
            }
            let progress = unless_old(self.progress[place], now);
            self.keep(place, progress);
        }
    }
}

/// The moment of the oldest session, and the last of all moments where there is none.
fn oldest_of<const S: usize>(kept: &[Option<Progress>; S], used: usize) -> u64
    requires within { used ≤ S }
    requires unused { AreUnused used kept.now }
    ensures { AreSince result kept.now }
{
    let mut oldest = u64::MAX;
    for place in 0..used {
        if let Some(progress) = kept[place] {
            oldest = oldest.min(progress.moment);
        }
    }
    oldest
}

/// What is kept at a place, unless it is too old.
pub fn unless_old(progress: Option<Progress>, now: u64) -> Option<Progress>
    ensures kept { (bytes : List ℕ) (there : Option Session) → IsProgressAt progress bytes there →
        IsProgressAt result bytes (kept now there) }
    ensures same { IfSome result (λ p. progress ≡ Some p) }
{
    match progress {
        Some(it) if now.saturating_sub(it.moment) <= TRANSFER_TIMEOUT => Some(it),
        _ => None,
    }
}
