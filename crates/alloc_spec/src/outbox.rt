ghost use Rattle.std.specs.Prelude.{◌≡◌, ◌<◌, ◌≤◌, ◌↔◌, [], length, option_map, IsNone};
ghost use Rattle.can_frame.specs.Identifier.{IsIdentifier};
ghost use Rattle.can_frame.specs.Sizes.{node_ids};
ghost use Rattle.transfer_tx.specs.Queue.{left_behind, next_out, queued_frames};
ghost use Rattle.transfer_tx.specs.Views.{queued_of};
ghost use Rattle.alloc_spec.specs.Transfers.{first_ids, has_room, id_of, outgoing};
ghost use Rattle.alloc_spec.specs.Transfers as transfers;
ghost use Rattle.alloc_spec.specs.Outbox.{counted_if, queued_if};

use crate::counters::Counters;
use crate::transfers::{ident_of, signature_of};
use can_frame::What;
use dsdl_codec::Payload;
use std::marker::Model;
use transfer_tx::{Marked, NoRoom, Outgoing, Sender};

/// How many frames wait for the bus at most.
const QUEUE: u8 = 32;

/// What waits for the bus, and the transfer IDs of what comes next.
#[derive(Drop)]
pub struct Outbox {
    me: u8,
    queue: Sender<32>,
    ids: Counters,
}

impl Model for Outbox {
    ghost use Rattle.std.specs.Prelude.{◌≤◌};
    ghost use Rattle.alloc_spec.specs.Outbox.{Waiting};

    ghost Value = { Waiting };

    ghost view = { λ o. record { me = o.me; queue = o.queue; ids = o.ids } };

    ghost invariant = { λ o. (1 ≤ o.me) × (o.me ≤ 127) };
}

impl Outbox {
    pub fn new(me: u8) -> Outbox
        requires least { 1 ≤ me }
        requires most { me ≤ 127 }
        ensures { result ≡ record { me = me; queue = []; ids = first_ids } }
    {
        Outbox {
            me,
            queue: Sender::new(),
            ids: Counters::new(),
        }
    }

    /// How many frames wait.
    pub fn queued(&self) -> u8
        ensures { result ≡ length self.now.queue }
    {
        QUEUE - self.queue.room() as u8
    }

    pub fn pop(&mut self) -> Option<Marked>
        ensures next { option_map queued_of result ≡ next_out self.old.queue }
        ensures rest { self.new ≡ record self.old { queue = left_behind self.old.queue } }
        ensures none { IsNone result ↔ (self.old.queue ≡ []) }
    {
        self.queue.pop()
    }

    pub fn clear(&mut self)
        ensures { self.new ≡ record self.old { queue = [] } }
    {
        self.queue.clear();
    }

    /// The transfer ID of the next message, or of the next request to a node.
    pub fn next_id(&self, what: What, to: u8) -> u8
        requires { to < node_ids }
        ensures id { result ≡ id_of self.now.ids what to }
        ensures range { result < 32 }
    {
        self.ids.next(what, to)
    }

    /// Queues a message, or a request to a node, where there is room for all its frames; its
    /// counter goes on exactly then.
    pub fn send(&mut self, what: What, to: u8, payload: Payload, step: u64) -> bool
        requires { IsIdentifier (transfers.ident_of self.old.me what to) }
        ensures fitted { result ≡ has_room self.old.queue payload.items }
        ensures next { self.new ≡ record self.old {
          queue = queued_if result self.old.queue
              (queued_frames (outgoing self.old.me what to
              (id_of self.old.ids what to) payload.items) step 0);
          ids = counted_if result what to
              self.old.ids;
        } }
    {
        let id = self.ids.next(what, to);
        let fitted = self.put(what, to, id, payload, step, 0);
        if fitted {
            self.ids.advance(what, to);
        }
        fitted
    }

    /// Queues a response, under the transfer ID of its request, which the step `re` made.
    pub fn answer(
        &mut self,
        what: What,
        to: u8,
        id: u8,
        payload: Payload,
        step: u64,
        re: u64,
    ) -> bool
        requires ident { IsIdentifier (transfers.ident_of self.old.me what to) }
        requires id { id < 32 }
        ensures fitted { result ≡ has_room self.old.queue payload.items }
        ensures next { self.new ≡ record self.old {
          queue = queued_if result self.old.queue
              (queued_frames (outgoing self.old.me what to id payload.items) step re);
        } }
    {
        self.put(what, to, id, payload, step, re)
    }

    fn put(&mut self, what: What, to: u8, id: u8, payload: Payload, step: u64, re: u64) -> bool
        requires ident { IsIdentifier (transfers.ident_of self.old.me what to) }
        requires id { id < 32 }
        ensures fitted { result ≡ has_room self.old.queue payload.items }
        ensures next { self.new ≡ record self.old {
          queue = queued_if result self.old.queue
              (queued_frames (outgoing self.old.me what to id payload.items) step re);
        } }
    {
        let transfer = Outgoing {
            ident: ident_of(self.me, what, to),
            signature: signature_of(what),
            id,
            payload,
        };
        match self.queue.offer(&transfer, step, re) {
            Ok(()) => true,
            Err(NoRoom) => false,
        }
    }
}
