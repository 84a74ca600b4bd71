ghost use Rattle.std.specs.Prelude.{◌≡◌, ◌≢◌, ◌↔◌, IsErr, IsNone, IsOk, OnErr, OnOk, ℕ, ◌<◌, ◌+◌, ◌*◌, [], length, get_or, set, false, Some, None, IfSome, Option};
ghost use Rattle.block_pool.specs.Chains.{appended, free_blocks, further_blocks};
ghost use Rattle.can_frame.specs.Cutting.{Piece, tail_at};
ghost use Rattle.transfer_rx.specs.declared.key.Key.{Key};
ghost use Rattle.transfer_rx.specs.Crcs.{HasCrc, HasOwnCrc, HaveCrcs};
ghost use Rattle.transfer_rx.specs.Filled.{Fills, HasRoomFor, emptied};
ghost use Rattle.transfer_rx.specs.Places.{Places, KeepPlaces, KeepSessions, kept};
ghost use Rattle.transfer_rx.specs.Reassembly.{grown};
ghost use Rattle.transfer_rx.specs.Sessions.{Session, others};
ghost use Rattle.transfer_rx.specs.Progress.{IsProgressOf};

use crate::progress::Progress;
use crate::sessions::Sessions;
use block_pool::{BlockPool, NoBlock};
use can_frame::Mark;

impl<const S: usize, const N: usize> Sessions<S, N> {
    /// Sets what is kept of the session at a place. Where nothing is taken, its chain is empty.
    pub fn put(&mut self, place: usize, progress: Progress)
        requires place { place < S }
        requires filled { Fills progress (get_or self.old.pool place []) }
        ensures session { (places : Places) (session : Session) →
            KeepPlaces self.old.progress self.old.pool places →
            IsProgressOf progress (get_or self.old.pool place []) session →
            KeepPlaces self.new.progress self.new.pool (set places place (Some session)) }
        ensures crcs { (signature_of : Key → Option ℕ) →
            HasOwnCrc signature_of progress (get_or self.old.pool place []) →
            HaveCrcs signature_of self.old.progress self.old.pool →
            HaveCrcs signature_of self.new.progress self.new.pool }
    {
        self.oldest = self.oldest.min(progress.moment);
        self.used = self.used.max(place + 1);
        set_place(&mut self.progress, &mut self.pool, place, progress);
    }

    /// Puts one more frame to the session at a place, where there are blocks for it.
    pub fn grow(
        &mut self,
        place: usize,
        progress: Progress,
        more: &[u8],
        signature: u64,
        mark: Mark,
        now: u64,
    ) -> Result<(), NoBlock>
        requires place { place < S }
        requires room { progress.taken < 54 }
        requires seven { length more.now ≡ 7 }
        requires filled { Fills progress (get_or self.old.pool place []) }
        ensures fits { (places : Places) → KeepPlaces self.old.progress self.old.pool places →
            HasRoomFor N places place (7 * progress.taken + 7) → IsOk result }
        ensures grown { OnOk result ((places : Places) (session : Session) (piece : Piece) →
            KeepPlaces self.old.progress self.old.pool places →
            IsProgressOf progress (get_or self.old.pool place []) session → piece.bytes ≡ more.now →
            piece.tail ≡ tail_at session.expected (length session.taken) false →
            KeepPlaces self.new.progress self.new.pool (set places place (Some
            (grown piece mark now session)))) }
        ensures crcs { (signature_of : Key → Option ℕ) →
            signature_of progress.key ≡ Some signature →
            HasCrc signature progress (get_or self.old.pool place []) →
            HaveCrcs signature_of self.old.progress self.old.pool →
            HaveCrcs signature_of self.new.progress self.new.pool }
    {
        let grown = progress.grown(mark, now, signature, more);
        let cut = progress.cut_off(now);
        self.oldest = self.oldest.min(now);
        self.used = self.used.max(place + 1);
        add_frame(
            &mut self.progress,
            &mut self.pool,
            place,
            progress.taken,
            more,
            grown,
            cut,
        )
    }

    /// Keeps what is at a place, or clears it.
    pub fn keep(&mut self, place: usize, progress: Option<Progress>)
        requires place { place < self.old.used }
        requires same { IfSome progress (λ p. get_or self.old.progress place None ≡ Some p) }
        ensures progress { self.new.progress ≡ set self.old.progress place progress }
        ensures used { self.new.used ≡ self.old.used }
        ensures others { (i : ℕ) → i ≢ place →
            get_or self.new.pool i [] ≡ get_or self.old.pool i [] }
        ensures kept { IfSome progress (λ p. get_or self.new.pool place [] ≡
            get_or self.old.pool place []) }
    {
        keep_at(&mut self.progress, &mut self.pool, place, progress);
    }

    /// Forgets all sessions. Only the places that were used are touched.
    pub fn clear(&mut self)
        ensures sessions { KeepSessions self.new.progress self.new.pool [] }
        ensures crcs { (signature_of : Key → Option ℕ) →
            HaveCrcs signature_of self.new.progress self.new.pool }
    {
        for place in 0..self.used {
            self.keep(place, None);
        }
        self.oldest = u64::MAX;
        self.used = 0;
    }
}

/// Sets what is kept of a session. Where nothing is taken, its chain is emptied.
fn set_place<const S: usize, const N: usize>(
    kept: &mut [Option<Progress>; S],
    pool: &mut BlockPool<N, S>,
    place: usize,
    progress: Progress,
)
    requires { place < S }
    ensures kept { kept.new ≡ set kept.old place (Some progress) }
    ensures pool { pool.new ≡ emptied progress.taken place pool.old }
{
    cut(pool, place, progress.taken);
    kept[place] = Some(progress);
}

/// Puts one more frame behind those taken, where there are blocks for it; else the session is cut.
fn add_frame<const S: usize, const N: usize>(
    kept: &mut [Option<Progress>; S],
    pool: &mut BlockPool<N, S>,
    place: usize,
    taken: u8,
    more: &[u8],
    grown: Progress,
    cut_off: Progress,
) -> Result<(), NoBlock>
    requires { place < S }
    ensures none { IsErr result ↔ (free_blocks N (emptied taken place pool.old) < further_blocks
        (get_or (emptied taken place pool.old) place []) more.now) }
    ensures ok_kept { OnOk result (kept.new ≡ set kept.old place (Some grown)) }
    ensures ok_pool { OnOk result (pool.new ≡
        appended (emptied taken place pool.old) place more.now) }
    ensures err_kept { OnErr result (kept.new ≡ set kept.old place (Some cut_off)) }
    ensures err_pool { OnErr result (pool.new ≡ set (emptied taken place pool.old) place []) }
{
    cut(pool, place, taken);
    match pool.append(place, more) {
        Ok(()) => {
            kept[place] = Some(grown);
            Ok(())
        }
        Err(NoBlock) => {
            pool.release(place);
            kept[place] = Some(cut_off);
            Err(NoBlock)
        }
    }
}

/// Keeps what is at a place, or clears it. What is kept is not touched.
fn keep_at<const S: usize, const N: usize>(
    kept: &mut [Option<Progress>; S],
    pool: &mut BlockPool<N, S>,
    place: usize,
    progress: Option<Progress>,
)
    requires place { place < S }
    requires same { IfSome progress (λ p. get_or kept.old place None ≡ Some p) }
    requires none { get_or kept.old place None ≡ None → get_or pool.old place [] ≡ [] }
    ensures kept { kept.new ≡ set kept.old place progress }
    ensures others { (i : ℕ) → i ≢ place → get_or pool.new i [] ≡ get_or pool.old i [] }
    ensures same { IfSome progress (λ p. pool.new ≡ pool.old) }
    ensures empty { IsNone progress → get_or pool.new place [] ≡ [] }
    ensures size { length pool.new ≡ length pool.old }
{
    if progress.is_none() && kept[place].is_some() {
        pool.release(place);
        kept[place] = None;
    }
}

/// Empties the chain of a place where nothing is taken.
fn cut<const N: usize, const S: usize>(pool: &mut BlockPool<N, S>, place: usize, taken: u8)
    requires { place < S }
    ensures { pool.new ≡ emptied taken place pool.old }
{
    if taken == 0 {
        pool.release(place);
    }
}
