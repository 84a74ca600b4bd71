ghost use Rattle.std.specs.Prelude.{◌≡◌, ◌<◌, ◌≤◌, ◌↔◌, [], Some, IsNone, IfSome, length, option_map, take, drop, Bool};
ghost use Rattle.std.specs.Str.{bytes_eq};
ghost use Rattle.can_frame.specs.Identifier.{IsIdentifier};
ghost use Rattle.transfer_tx.specs.Queue.{left_behind, next_out};
ghost use Rattle.transfer_tx.specs.Views.{queued_of};
ghost use Rattle.allocatee.specs.Asking.{after_answer, asking_from, first_stage, at_moment, begins_with, due, with_follow_up, with_node_id, next_stage, has_room, after_allocation, ident_of, after_interruption, request_offer, outgoing, request_bytes, request_wait, without_first_frame, clock_phase, with_timer_restarted};
ghost use Rattle.allocatee.specs.Asking as asking;

use crate::timer::{FollowUp, Timer};
use arrayvec::ArrayVec;
use can_frame::{ALLOCATION, Ident, Kind, NodeId, Sent, Uid, What};
use dsdl_codec::{Allocation, Payload};
use std::marker::Model;
use transfer_tx::{Marked, NoRoom, Outgoing, Sender};

/// How many frames wait for the bus at most.
const QUEUE: u8 = 8;

/// A device that asks for a node ID, without its receiver.
#[derive(Drop)]
pub(crate) struct Applicant {
    uid: Uid,
    preferred: u8,
    queue: Sender<8>,

    /// The transfer ID of what it sends next.
    id: u8,

    /// The greatest moment so far.
    moment: u64,

    /// The next first-stage request is due when it has passed.
    request: Timer,

    follow_up: Option<FollowUp>,
    holds: Option<NodeId>,
}

impl Model for Applicant {
    ghost use Rattle.std.specs.Prelude.{ℕ, ◌≡◌, ◌<◌, ◌≤◌, Some, length};
    ghost use Rattle.allocatee.specs.declared.timer.FollowUp.{FollowUp};
    ghost use Rattle.allocatee.specs.Asking.{Asking};

    ghost Value = { Asking };

    ghost view = { λ a. record {
      uid = a.uid;
      preferred = a.preferred;
      queue = a.queue;
      id = a.id;
      moment = a.moment;
      request = a.request;
      follow_up = a.follow_up;
      holds = a.holds;
    } };

    ghost invariant = { λ a. (length a.uid ≡ 16) × (a.preferred < 128) × (a.id < 32) ×
        ((f : FollowUp) → a.follow_up ≡ Some f → f.known ≤ 16) };
}

impl Applicant {
    /// A device whose request timer starts at a moment.
    pub fn new(uid: Uid, preferred: u8, now: u64, word: u32) -> Applicant
        requires { preferred < 128 }
        ensures { result ≡ asking_from uid preferred now word }
    {
        Applicant {
            uid,
            preferred,
            queue: Sender::new(),
            id: 0,
            moment: now,
            request: Timer {
                since: now,
                length: request_wait(word),
            },
            follow_up: None,
            holds: None,
        }
    }

    /// How each step begins: time goes on, never back.
    pub fn begin(&mut self, now: u64)
        ensures { self.new ≡ at_moment now self.old }
    {
        self.moment = self.moment.max(now);
    }

    /// A reading of its clock: a follow-up request that is due is offered; where none is, a first-stage request,
    /// if that is due. A device that holds a node ID offers nothing.
    #[tactic(auto, unfolding(crate::specs::Asking::clock_phase))]
    pub fn tick(&mut self, word: u32, step: u64) -> ArrayVec<Sent, 1>
        ensures sent { result.items ≡ (clock_phase step word self.old).sent }
        ensures asking { self.new ≡ (clock_phase step word self.old).asking }
    {
        match (self.holds, self.due()) {
            (Some(_), _) => ArrayVec::new(),
            (None, Some(known)) => self.follow(known, word, step),
            (None, None) => self.ask(word, step),
        }
    }

    /// How many bytes of its unique ID the answer had that its follow-up follows, where that one is due.
    fn due(&self) -> Option<usize>
        ensures due { result ≡ due self.now.moment self.now.follow_up }
        ensures known { IfSome result (λ known. known ≤ 16) }
    {
        match self.follow_up {
            Some(follow_up) => {
                if follow_up.timer.has_passed(self.moment) {
                    Some(follow_up.known)
                } else {
                    None
                }
            }
            None => None,
        }
    }

    /// It offers a follow-up request, with the bytes behind those of the answer.
    fn follow(&mut self, known: usize, word: u32, step: u64) -> ArrayVec<Sent, 1>
        requires { known ≤ 16 }
        ensures sent { result.items ≡ (next_stage step word (Some known) self.old).sent }
        ensures asking { self.new ≡ (next_stage step word (Some known) self.old).asking }
    {
        self.follow_up = None;
        let part = self.part_from(known);
        self.offer(false, part, word, step)
    }

    /// It offers a first-stage request, where its request timer has passed.
    fn ask(&mut self, word: u32, step: u64) -> ArrayVec<Sent, 1>
        ensures sent { result.items ≡ (first_stage step word self.old).sent }
        ensures asking { self.new ≡ (first_stage step word self.old).asking }
    {
        if !self.request.has_passed(self.moment) {
            return ArrayVec::new();
        }
        self.wait_anew(word);
        let part = self.part_from(0);
        self.offer(true, part, word, step)
    }

    fn wait_anew(&mut self, word: u32)
        ensures { self.new ≡ with_timer_restarted word self.old }
    {
        self.request = Timer {
            since: self.moment,
            length: request_wait(word),
        };
    }

    /// The next 6 bytes of its unique ID from a place on, or as many as are left.
    fn part_from(&self, from: usize) -> ArrayVec<u8, 16>
        requires { from ≤ 16 }
        ensures part { result.items ≡ take 6 (drop from self.now.uid) }
    {
        let rest = &self.uid[from..];
        let mut part = ArrayVec::new();
        match part.try_extend_from_slice(&rest[..rest.len().min(6)]) {
            Ok(()) => part,
            Err(_) => unreachable!(),
        }
    }

    /// It offers a part of its unique ID to its queue; its transfer ID goes on where it fits.
    fn offer(
        &mut self,
        first_part: bool,
        uid: ArrayVec<u8, 16>,
        word: u32,
        step: u64,
    ) -> ArrayVec<Sent, 1>
        ensures sent { result.items ≡ (request_offer step word first_part uid.items self.old).sent }
        ensures asking { self.new ≡ (request_offer step word first_part uid.items self.old).asking }
    {
        let message = Allocation {
            node: self.preferred,
            first_part,
            uid,
        };
        let fitted = self.send(message.write(), word, step);
        let mut sent = ArrayVec::new();
        sent.push(Sent {
            what: What::Alloc,
            to: 0,
            fitted,
        });
        sent
    }

    /// Puts an anonymous message into its queue where it fits, and says whether it did.
    fn send(&mut self, payload: Payload, word: u32, step: u64) -> bool
        ensures fitted { result ≡ has_room self.old.queue payload.items }
        ensures asking { self.new ≡ asking.with_queued step word payload.items result self.old }
    {
        let transfer = Outgoing {
            ident: ident_of(word),
            signature: ALLOCATION.signature,
            id: self.id,
            payload,
        };
        match self.queue.offer(&transfer, step, 0) {
            Ok(()) => {
                self.id = (self.id + 1) % 32;
                true
            }
            Err(NoRoom) => false,
        }
    }

    /// It receives an Allocation: a request of a device, which is anonymous, or an answer of an allocator.
    #[tactic(auto, unfolding(crate::specs::Asking::after_allocation))]
    pub fn hear(&mut self, anonymous: bool, message: &Allocation, word: u32)
        ensures { self.new ≡ after_allocation word anonymous message.now self.old }
    {
        if self.holds.is_some() {
            return;
        }
        self.wait_anew(word);
        self.follow_up = None;
        if anonymous {
            return;
        }
        self.take_answer(message, word);
    }

    /// An answer of an allocator: to its whole unique ID, to bytes that it begins with, or to another device.
    fn take_answer(&mut self, message: &Allocation, word: u32)
        ensures { self.new ≡ after_answer word message.now self.old }
    {
        let _few = message.uid.remaining_capacity();
        if self.is_whole(&message.uid) {
            self.take_id(message.node);
        } else if self.begins_with(&message.uid) {
            self.follow_from(message.uid.len(), word);
        }
    }

    fn is_whole(&self, bytes: &[u8]) -> bool
        ensures { result ≡ bytes_eq bytes.now self.now.uid }
    {
        bytes == self.uid.as_slice()
    }

    fn begins_with(&self, bytes: &[u8]) -> bool
        ensures { result ≡ begins_with self.now.uid bytes.now }
    {
        !bytes.is_empty() && self.uid.starts_with(bytes)
    }

    /// A follow-up request with the bytes behind these waits for its moment.
    fn follow_from(&mut self, known: usize, word: u32)
        requires { known ≤ 16 }
        ensures { self.new ≡ with_follow_up word known self.old }
    {
        self.follow_up = Some(FollowUp {
            timer: Timer {
                since: self.moment,
                length: u64::from(word) % 401,
            },
            known,
        });
    }

    /// It holds the node ID from now on, where that is one of 1 to 125.
    fn take_id(&mut self, node: u8)
        ensures { self.new ≡ with_node_id node self.old }
    {
        if node > 125 {
            return;
        }
        if let Some(node) = NodeId::new(node) {
            self.holds = Some(node);
        }
    }

    /// The next frame for the bus.
    pub fn pop(&mut self) -> Option<Marked>
        ensures next { option_map queued_of result ≡ next_out self.old.queue }
        ensures rest { self.new ≡ without_first_frame self.old }
        ensures none { IsNone result ↔ (self.old.queue ≡ []) }
    {
        self.queue.pop()
    }

    /// How many frames wait.
    pub fn queued(&self) -> u8
        ensures { result ≡ length self.now.queue }
    {
        QUEUE - self.queue.room() as u8
    }

    /// The node ID that it holds.
    pub fn holds(&self) -> Option<NodeId>
        ensures { result ≡ self.now.holds }
    {
        self.holds
    }

    /// The greatest moment so far.
    pub fn moment(&self) -> u64
        ensures { result ≡ self.now.moment }
    {
        self.moment
    }
}

/// The length of the request timer, in ms, drawn anew at each restart.
fn request_wait(word: u32) -> u64
    ensures { result ≡ request_wait word }
{
    600 + u64::from(word) % 401
}

/// An anonymous message; its discriminator comes from the word.
fn ident_of(word: u32) -> Ident
    ensures ident { result ≡ ident_of word }
    ensures ranges { IsIdentifier result }
{
    Ident {
        priority: 30,
        kind: Kind::Anonymous,
        number: ALLOCATION.number,
        source: 0,
        dest: 0,
        discriminator: (word % 16384) as u16,
    }
}
