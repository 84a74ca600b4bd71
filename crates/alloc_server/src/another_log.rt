//! Whether an event brings a call of another log.

ghost use Rattle.std.specs.Prelude.{◌≡◌, ◌+◌, None, Some, IsSome};
ghost use Rattle.raft_core.specs.StoredPuts.{store_of};
ghost use Rattle.raft_log.specs.DurableViews.{durable_state};
ghost use Rattle.raft_model.specs.Decisions.{is_distinct_from_all};
ghost use Rattle.transfer_rx.specs.Acceptance.{AnswersByRows};
ghost use Rattle.transfer_rx.specs.Reassembly.{arrival_of};
ghost use Rattle.transfer_rx.specs.Told.{delivery_of};
ghost use Rattle.alloc_spec.specs.Accepted as accepted;
ghost use Rattle.alloc_spec.specs.Accepted.{AllocatorReceiverFitsInMemory};
ghost use Rattle.alloc_spec.specs.AllocatorState.{AllocatorState};
ghost use Rattle.alloc_server.specs.AnotherLog.{another_log, caller_by, caller_in, contradicts, counts_as_told, differs_at, differs_before, is_append_request, is_same_entry, repeats_committed};

use crate::server::Server;
use alloc_spec::Event;
use can_frame::{APPEND_ENTRIES, Entry, Frame, Ident, Kind, Mark, is_same_uid};
use disk_model::Disk;
use dsdl_codec::AppendRequest;
use node_discovery::Counting;
use raft_log::Durable;
use transfer_rx::Transfer;

impl<D: Disk, F: Fn(Kind, u16) -> Option<u64> + Copy> Server<D, F> {
    ghost use Rattle.alloc_server.specs.Server.{StandsFor, accepts, event_of, fault_of};

    /// The member whose log is another one, where the event brings a call of it: in its own term or a later one
    /// a member of the list calls it to append, and what the call has of a place that this member has committed
    /// differs from what stands there, or its entry behind those places repeats a node ID or a unique ID of theirs.
    /// A server that was not told its list, or that has failed, answers `None`. Nothing changes.
    pub fn another_log(&self, event: &Event) -> Option<u8>
        requires memory { AllocatorReceiverFitsInMemory F.row }
        requires callable { F.IsAlwaysCallable (accepts self.now) }
        requires answers { AnswersByRows (F.post (accepts self.now)) accepted.rows }
        ensures another { (t : AllocatorState) → StandsFor self.now t →
            result ≡ another_log t (event_of event.now) }
        ensures failed { IsSome (fault_of self.now) → result ≡ None }
    {
        if self.failed() {
            return None;
        }
        match event {
            Event::Tick { now: _, word: _ } => None,
            Event::Rx { frame, mark, now } => self.caller_by(frame, *mark, *now),
        }
    }

    /// The same of a frame.
    fn caller_by(&self, frame: &Frame, mark: Mark, now: u64) -> Option<u8>
        requires memory { AllocatorReceiverFitsInMemory F.row }
        requires callable { F.IsAlwaysCallable (accepts self.now) }
        requires answers { AnswersByRows (F.post (accepts self.now)) accepted.rows }
        ensures { (t : AllocatorState) → StandsFor self.now t →
            result ≡ caller_by t (arrival_of frame.now mark now) }
    {
        if !is_told(self.member.counting) {
            return None;
        }
        let now = self.member.latest.max(now);
        let Some(transfer) = self.receiver.peek(frame, mark, now) else {
            return None;
        };
        self.caller_in(&transfer)
    }

    /// The same of a whole transfer.
    fn caller_in(&self, transfer: &Transfer) -> Option<u8>
        ensures { (t : AllocatorState) → StandsFor self.now t →
            result ≡ caller_in t (Some (delivery_of transfer.now)) }
    {
        if !is_append_request(&transfer.ident) || !self.member.lists(transfer.ident.source) {
            return None;
        }
        let Some(request) = AppendRequest::read(&transfer.payload) else {
            return None;
        };
        if contradicts(&self.member.durable, &request) {
            Some(transfer.ident.source)
        } else {
            None
        }
    }
}

/// Whether a member that counts so was told its list.
fn is_told(counting: Counting) -> bool
    ensures { result ≡ counts_as_told counting }
{
    match counting {
        Counting::OfSpell => false,
        Counting::SinceAnswer => true,
    }
}

/// Whether a transfer is a request of AppendEntries.
fn is_append_request(ident: &Ident) -> bool
    ensures { result ≡ is_append_request ident.now }
{
    match ident.kind {
        Kind::Request => ident.number == APPEND_ENTRIES.number,
        Kind::Message | Kind::Anonymous | Kind::Response => false,
    }
}

/// Whether a request of the own term or a later one contradicts what is committed.
fn contradicts<D: Disk>(d: &Durable<D>, request: &AppendRequest) -> bool
    ensures { result ≡ contradicts (store_of (durable_state d.now)) request.now }
{
    d.term() <= request.term
        && (differs_before(d, request) || differs_at(d, request) || repeats_committed(d, request))
}

/// The place of the previous entry is committed, and the term there is another one.
fn differs_before<D: Disk>(d: &Durable<D>, request: &AppendRequest) -> bool
    ensures { result ≡ differs_before (store_of (durable_state d.now)) request.now }
{
    let place = request.prev_index;
    1 <= place && place <= d.commit() && d.entry(place).term != request.prev_term
}

/// The place of the new entry is committed, and the entry there is another one.
fn differs_at<D: Disk>(d: &Durable<D>, request: &AppendRequest) -> bool
    ensures { result ≡ differs_at (store_of (durable_state d.now)) (request.now.prev_index + 1)
        request.now.entry }
{
    match &request.entry {
        Some(entry) => {
            request.prev_index < d.commit() && !is_same(&d.entry(request.prev_index + 1), entry)
        }
        None => false,
    }
}

/// The place of the new entry is not committed, and a committed entry has its node ID or its unique ID.
fn repeats_committed<D: Disk>(d: &Durable<D>, request: &AppendRequest) -> bool
    ensures { result ≡ repeats_committed (store_of (durable_state d.now)) (request.now.prev_index + 1)
        request.now.entry }
{
    match &request.entry {
        Some(entry) => {
            d.commit() <= request.prev_index
                && !is_distinct_from_all(entry, &d.log()[..usize::from(d.commit())])
        }
        None => false,
    }
}

/// Whether an entry may stand in one log with each of these.
fn is_distinct_from_all(entry: &Entry, log: &[Entry]) -> bool
    ensures { result ≡ is_distinct_from_all entry.now log.now }
{
    log.iter().all(|earlier| entry.is_distinct_from(earlier))
}

fn is_same(a: &Entry, b: &Entry) -> bool
    ensures { result ≡ is_same_entry a.now b.now }
{
    a.term == b.term && is_same_uid(&a.uid, &b.uid) && a.node == b.node
}
