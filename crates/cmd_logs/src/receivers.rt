ghost use Rattle.std.specs.Prelude.{◌≡◌, ◌≤◌, ◌||◌, [], cond, length, option_map, slice_get, Bool, List, Option, None, Some, ℕ};
ghost use Rattle.can_frame.specs.Sizes.{most_members};
ghost use Rattle.transfer_rx.specs.Acceptance.{AnswersByRows};
ghost use Rattle.transfer_rx.specs.Memory.{ReceiverFitsInMemory};
ghost use Rattle.transfer_rx.specs.Reassembly.{Delivery, answer, arrival_of, delivered};
ghost use Rattle.transfer_rx.specs.Sessions.{Session};
ghost use Rattle.transfer_rx.specs.Told.{delivery_of, told};
ghost use Rattle.transfer_rx.specs.Views.{setting_of};
ghost use Rattle.cmd_logs.specs.Watched.{Watch, by_messages, by_service, heard, message_setting, no_mark, service_setting, unwatched, watched_rows};

use crate::rows::watched_rows;
use can_frame::{Frame, Ident, Kind, Mark};
use transfer_rx::{Receiver, Took, Transfer};

/// The receiver of the services for one node, if there is a node.
#[derive(Drop)]
pub(crate) struct Seat<F> {
    id: Option<u8>,
    receiver: Receiver<F, 64, 64>,
    ghost rows: { (setting_of receiver).rows ≡ watched_rows },
    ghost setting: { (own : ℕ) → id ≡ Some own → setting_of receiver ≡ service_setting own },
}

impl<F: Fn(Kind, u16) -> Option<u64> + Copy> Seat<F> {
    ghost use Rattle.cmd_logs.specs.Watching.{HasServices, Moves, is_at, seat_accept};

    fn new(id: Option<u8>, accept: F) -> Seat<F>
        requires memory { ReceiverFitsInMemory F.row 64 64 }
        requires callable { F.IsAlwaysCallable accept }
        requires answers { AnswersByRows (F.post accept) watched_rows }
        ensures id { result.id ≡ id }
        ensures services { HasServices result (λ id. []) }
        ensures accept { seat_accept result ≡ accept }
    {
        Seat {
            id,
            receiver: Receiver::new(id.unwrap_or(0), watched_rows(), accept),
        }
    }

    /// Takes a frame of a service for a node, where it is the node of this seat: the transfer that it
    /// delivers.
    fn take(&mut self, id: u8, frame: &Frame, now: u64) -> Option<Transfer>
        requires memory { ReceiverFitsInMemory F.row 64 64 }
        requires callable { F.IsAlwaysCallable (seat_accept self.old) }
        requires answers { AnswersByRows (F.post (seat_accept self.old)) watched_rows }
        ensures gives { (services : ℕ → List Session) → HasServices self.old services →
            option_map delivery_of result ≡ cond (is_at self.old.id id) (delivered (answer (service_setting id)
            (services id) (arrival_of frame.now no_mark now))) None }
        ensures moves { Moves self.old self.new id (arrival_of frame.now no_mark now) }
        ensures accept { seat_accept self.new ≡ seat_accept self.old }
    {
        if !self.is_at(id) {
            return None;
        }
        delivered(self.receiver.take(frame, NO_MARK, now))
    }

    /// Whether this is the seat of a node.
    fn is_at(&self, id: u8) -> bool
        ensures { result ≡ is_at self.now.id id }
    {
        match self.id {
            Some(own) => own == id,
            None => false,
        }
    }
}

/// The receivers of a watch: one of the messages of all nodes, and one of the services for each of up to
/// five nodes. All keep one closure.
#[derive(Drop)]
pub(crate) struct Receivers<F> {
    messages: Receiver<F, 64, 64>,
    first: Seat<F>,
    second: Seat<F>,
    third: Seat<F>,
    fourth: Seat<F>,
    fifth: Seat<F>,
    ghost setting: { setting_of messages ≡ message_setting },
    ghost first_accept: { first.receiver.accept ≡ messages.accept },
    ghost second_accept: { second.receiver.accept ≡ messages.accept },
    ghost third_accept: { third.receiver.accept ≡ messages.accept },
    ghost fourth_accept: { fourth.receiver.accept ≡ messages.accept },
    ghost fifth_accept: { fifth.receiver.accept ≡ messages.accept },
}

impl<F: Fn(Kind, u16) -> Option<u64> + Copy> Receivers<F> {
    ghost use Rattle.cmd_logs.specs.Watching.{HasWatch, watch_accept};

    /// The receivers of the services for these nodes, and that of messages.
    pub fn new(ids: &[u8], accept: F) -> Receivers<F>
        requires five { length ids.now ≤ most_members }
        requires memory { ReceiverFitsInMemory F.row 64 64 }
        requires callable { F.IsAlwaysCallable accept }
        requires answers { AnswersByRows (F.post accept) watched_rows }
        ensures watch { HasWatch result ids.now unwatched }
        ensures accept { watch_accept result ≡ accept }
    {
        Receivers {
            messages: Receiver::new(0, watched_rows(), accept),
            first: Seat::new(id_at(ids, 0), accept),
            second: Seat::new(id_at(ids, 1), accept),
            third: Seat::new(id_at(ids, 2), accept),
            fourth: Seat::new(id_at(ids, 3), accept),
            fifth: Seat::new(id_at(ids, 4), accept),
        }
    }

    /// Gives a frame to the receiver that it is for, if any: the transfer that it delivers.
    pub fn take(&mut self, frame: &Frame, now: u64) -> Option<Transfer>
        requires memory { ReceiverFitsInMemory F.row 64 64 }
        requires callable { F.IsAlwaysCallable (watch_accept self.old) }
        requires answers { AnswersByRows (F.post (watch_accept self.old)) watched_rows }
        ensures gives { (ids : List ℕ) (watch : Watch) → HasWatch self.old ids watch →
            option_map delivery_of result ≡ (heard ids watch (arrival_of frame.now no_mark now)).gives }
        ensures watch { (ids : List ℕ) (watch : Watch) → HasWatch self.old ids watch →
            HasWatch self.new ids (heard ids watch (arrival_of frame.now no_mark now)).after }
        ensures accept { watch_accept self.new ≡ watch_accept self.old }
    {
        match Ident::read(frame.id) {
            Some(ident) => {
                if ident.kind.is_service() {
                    self.take_service(ident.dest, frame, now)
                } else {
                    self.take_message(frame, now)
                }
            }
            None => None,
        }
    }

    /// Gives a frame of a message to the receiver of messages.
    fn take_message(&mut self, frame: &Frame, now: u64) -> Option<Transfer>
        requires memory { ReceiverFitsInMemory F.row 64 64 }
        requires callable { F.IsAlwaysCallable (watch_accept self.old) }
        requires answers { AnswersByRows (F.post (watch_accept self.old)) watched_rows }
        ensures gives { (ids : List ℕ) (watch : Watch) → HasWatch self.old ids watch →
            option_map delivery_of result ≡
            (by_messages watch (arrival_of frame.now no_mark now)).gives }
        ensures watch { (ids : List ℕ) (watch : Watch) → HasWatch self.old ids watch →
            HasWatch self.new ids (by_messages watch (arrival_of frame.now no_mark now)).after }
        ensures accept { watch_accept self.new ≡ watch_accept self.old }
    {
        delivered(self.messages.take(frame, NO_MARK, now))
    }

    /// Gives a frame of a service for a node to the receiver of that node, if there is one.
    fn take_service(&mut self, id: u8, frame: &Frame, now: u64) -> Option<Transfer>
        requires memory { ReceiverFitsInMemory F.row 64 64 }
        requires callable { F.IsAlwaysCallable (watch_accept self.old) }
        requires answers { AnswersByRows (F.post (watch_accept self.old)) watched_rows }
        ensures gives { (ids : List ℕ) (watch : Watch) → HasWatch self.old ids watch →
            option_map delivery_of result ≡
            (by_service ids watch (arrival_of frame.now no_mark now) id).gives }
        ensures watch { (ids : List ℕ) (watch : Watch) → HasWatch self.old ids watch →
            HasWatch self.new ids (by_service ids watch (arrival_of frame.now no_mark now) id).after }
        ensures accept { watch_accept self.new ≡ watch_accept self.old }
    {
        let first = self.first.take(id, frame, now);
        let second = self.second.take(id, frame, now);
        let third = self.third.take(id, frame, now);
        let fourth = self.fourth.take(id, frame, now);
        let fifth = self.fifth.take(id, frame, now);
        either(first, either(second, either(third, either(fourth, fifth))))
    }
}

/// The node at a place, if there is one.
fn id_at(ids: &[u8], place: usize) -> Option<u8>
    ensures { result ≡ slice_get ids.now place }
{
    ids.get(place).copied()
}

/// The mark of a frame that no server made.
const NO_MARK: Mark = Mark {
    step: 0,
    re: 0,
    place: 0,
};

/// What a frame delivered, if anything.
fn delivered(took: Took) -> Option<Transfer>
    ensures { option_map delivery_of result ≡ delivered (told took) }
{
    match took {
        Took::Delivered(transfer) => Some(transfer),
        Took::Part | Took::Dropped(_) => None,
    }
}

/// What one of two receivers delivered. Only those of one node take a frame.
fn either(one: Option<Transfer>, other: Option<Transfer>) -> Option<Transfer>
    ensures { (is_one is_other : Bool) (delivery : Option Delivery) →
        option_map delivery_of one ≡ cond is_one delivery None →
        option_map delivery_of other ≡ cond is_other delivery None →
        option_map delivery_of result ≡ cond (is_one || is_other) delivery None }
{
    match one {
        Some(transfer) => Some(transfer),
        None => other,
    }
}
