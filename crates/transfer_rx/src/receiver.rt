ghost use Rattle.std.specs.Prelude.{◌≡◌, ◌≤◌, ◌<◌, ◌++◌, [], IfOk, IfSome, List, None, Some, length, option_map};
ghost use Rattle.can_frame.specs.Identifier.{IsIdentifier};
ghost use Rattle.can_frame.specs.Piece.{piece_of};
ghost use Rattle.transfer_rx.specs.Acceptance.{AnswersByRows, is_for, wanted};
ghost use Rattle.transfer_rx.specs.Crcs.{HaveCrcs, signature_in};
ghost use Rattle.transfer_rx.specs.Fronts.{HasFront, front_bytes};
ghost use Rattle.transfer_rx.specs.Heard.{IfDelivers, UnlessDelivers, delivery_with, heading_in, told_with};
ghost use Rattle.transfer_rx.specs.Keys.{key_of};
ghost use Rattle.transfer_rx.specs.Ranges.{IfDelivered, IsInRange};
ghost use Rattle.transfer_rx.specs.Reassembly.{answer, arrival_of, delivered, next};
ghost use Rattle.transfer_rx.specs.Sessions.{Session};
ghost use Rattle.transfer_rx.specs.Told.{delivered_after, delivery_of, told};

use crate::accept::{AcceptRow, Wanted};
use crate::key::Key;
use crate::sessions::Sessions;
use crate::transfer::{Heading, Heard, Took, Transfer};
use crate::turn::{Coming, alone};
use arrayvec::ArrayVec;
use block_pool::BlockPool;
use can_frame::{Frame, Ident, Kind, Mark, Why};

/// Reassembles the transfers that its rows accept, in at most S sessions, whose frames use at most N
/// blocks of 28 bytes.
///
/// A receiver stands for the list of its sessions (`HasSessions`). `callable` and `answers` owe that the closure may be
/// called, and that it answers as the rows. The first cause of a drop (`Why`) that holds is told, in the order of
/// docs/FORMATS.md, "Report".
#[derive(Drop)]
pub struct Receiver<F, const S: usize, const N: usize> {
    me: u8,
    rows: ArrayVec<AcceptRow, 16>,
    accept: F,
    sessions: Sessions<S, N>,

    /// The transfer that was delivered last.
    delivered: Transfer,
    ghost crcs: { HaveCrcs (signature_in rows.items) sessions.progress sessions.pool },
}

impl<F: Fn(Kind, u16) -> Option<u64> + Copy, const S: usize, const N: usize> Receiver<F, S, N> {
    ghost use Rattle.transfer_rx.specs.Views.{HasChains, HasSessions, accept_of, chain_of, chains_in, delivered_by, setting_of};

    /// What `hear` tells of a frame, with a copy of the transfer that it delivers.
    pub fn take(&mut self, frame: &Frame, mark: Mark, now: u64) -> Took
        requires callable { F.IsAlwaysCallable (accept_of self.old) }
        requires answers { AnswersByRows (F.post (accept_of self.old)) (setting_of self.old).rows }
        ensures answer { (sessions : List Session) → HasSessions self.old sessions →
            told result ≡ answer (setting_of self.old) sessions (arrival_of frame.now mark now) }
        ensures ranges { IfDelivered result IsInRange }
        ensures sessions { (sessions : List Session) → HasSessions self.old sessions →
            HasSessions self.new (next (setting_of self.old) sessions
            (arrival_of frame.now mark now)) }
        ensures delivered { delivered_by self.new ≡ delivered_after result (delivered_by self.old) }
        ensures setting { setting_of self.new ≡ setting_of self.old }
        ensures accept { accept_of self.new ≡ accept_of self.old }
    {
        match self.hear(frame, mark, now) {
            Heard::Delivered => Took::Delivered(self.delivered.copy()),
            Heard::Part => Took::Part,
            Heard::Dropped(why) => Took::Dropped(why),
        }
    }

    /// Takes a frame at a moment in milliseconds, and tells what it led to; a transfer that it delivers
    /// is the one that `delivered` lends from then on. Of a frame that is dropped the cause is told, and its
    /// session goes on as the definition says: after a wrong CRC or length, or for want of blocks, it
    /// waits for the next transfer ID.
    pub fn hear(&mut self, frame: &Frame, mark: Mark, now: u64) -> Heard
        requires callable { F.IsAlwaysCallable (accept_of self.old) }
        requires answers { AnswersByRows (F.post (accept_of self.old)) (setting_of self.old).rows }
        ensures answer { (sessions : List Session) → HasSessions self.old sessions →
            told_with (delivered_by self.new) result ≡
            answer (setting_of self.old) sessions (arrival_of frame.now mark now) }
        ensures ranges { IfDelivers result (IsInRange (delivered_by self.new)) }
        ensures kept { UnlessDelivers result (delivered_by self.new ≡ delivered_by self.old) }
        ensures sessions { (sessions : List Session) → HasSessions self.old sessions →
            HasSessions self.new (next (setting_of self.old) sessions
            (arrival_of frame.now mark now)) }
        ensures setting { setting_of self.new ≡ setting_of self.old }
        ensures accept { accept_of self.new ≡ accept_of self.old }
    {
        let accept = self.accept;
        self.hear_by(accept, frame, mark, now)
    }

    /// The transfer that `take` would deliver, if any. Nothing changes.
    pub fn peek(&self, frame: &Frame, mark: Mark, now: u64) -> Option<Transfer>
        requires callable { F.IsAlwaysCallable (accept_of self.now) }
        requires answers { AnswersByRows (F.post (accept_of self.now)) (setting_of self.now).rows }
        ensures answer { (sessions : List Session) → HasSessions self.now sessions →
            option_map delivery_of result ≡
            delivered (answer (setting_of self.now) sessions (arrival_of frame.now mark now)) }
        ensures ranges { IfSome result IsInRange }
    {
        let coming = self.coming(frame, mark, now)?;
        let mut transfer = Transfer::blank();
        self.sessions.fill(coming, frame.data(), &mut transfer);
        Some(transfer)
    }

    /// The transfer that `hear` would deliver, if any, without its payload. Nothing changes.
    pub fn foretell(&self, frame: &Frame, mark: Mark, now: u64) -> Option<Heading>
        requires callable { F.IsAlwaysCallable (accept_of self.now) }
        requires answers { AnswersByRows (F.post (accept_of self.now)) (setting_of self.now).rows }
        ensures answer { (sessions : List Session) → HasSessions self.now sessions →
            result ≡ option_map heading_in
            (delivered (answer (setting_of self.now) sessions (arrival_of frame.now mark now))) }
        ensures ident { IfSome result (λ heading. IsIdentifier heading.ident) }
        ensures id { IfSome result (λ heading. heading.id < 32) }
    {
        let coming = self.coming(frame, mark, now)?;
        Some(coming.heading)
    }

    /// The transfer that a frame would complete.
    fn coming(&self, frame: &Frame, mark: Mark, now: u64) -> Option<Coming>
        requires callable { F.IsAlwaysCallable self.now.accept }
        requires answers { AnswersByRows (F.post self.now.accept) self.now.rows.items }
        ensures ident { IfSome result (λ coming. IsIdentifier coming.heading.ident) }
        ensures id { IfSome result (λ coming. coming.heading.id < 32) }
        ensures front { IfSome result (λ coming. HasFront S self.now.sessions.pool
            coming.front (length (piece_of frame.now).bytes)) }
        ensures delivery { (sessions : List Session) → HasSessions self.now sessions →
            option_map (λ coming. delivery_with coming.heading
            (front_bytes self.now.sessions.pool coming.front ++ (piece_of frame.now).bytes))
            result ≡
            delivered (answer (setting_of self.now) sessions (arrival_of frame.now mark now)) }
    {
        if !frame.tail().end {
            return None;
        }
        let wanted = match self.wanted(self.accept, frame) {
            Ok(wanted) => wanted,
            Err(_) => return None,
        };
        if wanted.ident.kind.is_anonymous() {
            return match alone(wanted.ident, frame, mark) {
                Ok(coming) => Some(coming),
                Err(_) => None,
            };
        }
        let free = self.sessions.free_without_old(now);
        let turn = self.sessions.turn(&wanted, frame, now, free);
        self.sessions.foretell(turn, wanted.ident, frame, mark)
    }

    /// The pool that keeps the bytes of the sessions, each in a chain of its own; every other chain
    /// is empty.
    pub fn pool(&self) -> &BlockPool<N, S>
        ensures pool { result.now ≡ chains_in self.now }
        ensures chains { (sessions : List Session) → HasSessions self.now sessions →
            HasChains self.now sessions }
    {
        &self.sessions.pool
    }

    /// The number of the chain that has the bytes of the session of a kind, number and source, each
    /// frame without its tail; None where there is no such session. An expired session still counts until
    /// the next frame that belongs to a session.
    pub fn chain_of(&self, kind: Kind, number: u16, source: u8) -> Option<usize>
        ensures chain { result ≡
            chain_of self.now (record { kind = kind; number = number; source = source }) }
        ensures chains { (sessions : List Session) → HasSessions self.now sessions →
            HasChains self.now sessions }
    {
        self.sessions.place_of(Key {
            kind,
            number,
            source,
        })
    }
}

impl<F: Copy, const S: usize, const N: usize> Receiver<F, S, N> {
    ghost use Rattle.transfer_rx.specs.Views.{HasSessions, accept_of, delivered_by, setting_of};

    /// A receiver without sessions. `me` is its own node ID, 1 to 127: it takes services for this node
    /// and no frame from it. With 0 it takes services for every node, and frames from every one.
    /// `accept` gives the signature of the first row with a kind and number, where there is one.
    pub fn new(me: u8, rows: ArrayVec<AcceptRow, 16>, accept: F) -> Receiver<F, S, N>
        requires most { S ≤ 1024 }
        requires blocks { N ≤ 1024 }
        ensures sessions { HasSessions result [] }
        ensures blank { (delivered_by result).payload.items ≡ [] }
        ensures setting { setting_of result ≡
            record { rows = rows.items; me = me; sessions = S; blocks = N } }
        ensures accept { accept_of result ≡ accept }
    {
        Receiver {
            me,
            rows,
            accept,
            sessions: Sessions::new(),
            delivered: Transfer::blank(),
        }
    }

    /// Forgets all sessions, and takes frames for the node `me` from now on, as a new receiver does. It
    /// stays where it is: the time goes by the sessions that there were, and not by its size.
    pub fn reset(&mut self, me: u8)
        ensures sessions { HasSessions self.new [] }
        ensures delivered { delivered_by self.new ≡ delivered_by self.old }
        ensures setting { setting_of self.new ≡ record (setting_of self.old) { me = me } }
        ensures accept { accept_of self.new ≡ accept_of self.old }
    {
        self.sessions.clear();
        self.me = me;
    }

    /// What `hear` does, with a closure that is handed in.
    pub fn hear_by<G: Fn(Kind, u16) -> Option<u64> + Copy>(
        &mut self,
        accept: G,
        frame: &Frame,
        mark: Mark,
        now: u64,
    ) -> Heard
        requires callable { G.IsAlwaysCallable accept }
        requires answers { AnswersByRows (G.post accept) (setting_of self.old).rows }
        ensures answer { (sessions : List Session) → HasSessions self.old sessions →
            told_with (delivered_by self.new) result ≡
            answer (setting_of self.old) sessions (arrival_of frame.now mark now) }
        ensures ranges { IfDelivers result (IsInRange (delivered_by self.new)) }
        ensures kept { UnlessDelivers result (delivered_by self.new ≡ delivered_by self.old) }
        ensures sessions { (sessions : List Session) → HasSessions self.old sessions →
            HasSessions self.new (next (setting_of self.old) sessions
            (arrival_of frame.now mark now)) }
        ensures setting { setting_of self.new ≡ setting_of self.old }
        ensures accept { accept_of self.new ≡ accept_of self.old }
    {
        let wanted = match self.wanted(accept, frame) {
            Ok(wanted) => wanted,
            Err(why) => return Heard::Dropped(why),
        };
        if wanted.ident.kind.is_anonymous() {
            return self
                .sessions
                .hear_alone(wanted.ident, frame, mark, &mut self.delivered);
        }
        self.sessions.forget(now);
        let free = self.sessions.free_blocks();
        let turn = self.sessions.turn(&wanted, frame, now, free);
        self.sessions
            .settle(turn, &wanted, frame, mark, now, &mut self.delivered)
    }

    /// The transfer that was delivered last. Before the first one it is a blank, without bytes.
    pub fn delivered(&self) -> &Transfer
        ensures { result.now ≡ delivered_by self.now }
    {
        &self.delivered
    }

    /// The closure that was given to it.
    pub fn accept(&self) -> F
        ensures { result ≡ accept_of self.now }
    {
        self.accept
    }

    /// The fields and the signature of a frame that is wanted, or why it is not.
    fn wanted<G: Fn(Kind, u16) -> Option<u64> + Copy>(
        &self,
        accept: G,
        frame: &Frame,
    ) -> Result<Wanted, Why>
        requires callable { G.IsAlwaysCallable accept }
        requires answers { AnswersByRows (G.post accept) self.now.rows.items }
        ensures wanted { result ≡ wanted self.now.rows.items self.now.me frame.now.id }
        ensures ident { IfOk result (λ w. IsIdentifier w.ident) }
        ensures signature { IfOk result (λ w. signature_in self.now.rows.items (key_of w.ident) ≡
            Some w.signature) }
    {
        let Some(ident) = Ident::read(frame.id) else {
            return Err(Why::BadIdent);
        };
        if !self.is_for_me(&ident) {
            return Err(Why::NotWanted);
        }
        match accept(ident.kind, ident.number) {
            Some(signature) => Ok(Wanted { ident, signature }),
            None => Err(Why::NotWanted),
        }
    }

    fn is_for_me(&self, ident: &Ident) -> bool
        ensures { result ≡ is_for self.now.me ident.now }
    {
        self.me == 0
            || !(ident.kind.is_service() && ident.dest != self.me) && ident.source != self.me
    }
}
