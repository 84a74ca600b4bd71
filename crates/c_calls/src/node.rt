ghost use Rattle.std.specs.Prelude.{◌≡◌, ◌≤◌, ◌↔◌, IsTrue, slice_index, ℕ};
ghost use Rattle.std.specs.Int.{from_le_bytes, w64};
ghost use Rattle.can_frame.specs.Sizes.{most_members};
ghost use Rattle.alloc_spec.specs.Accepted as accepted;
ghost use Rattle.alloc_spec.specs.Rules.{IsToldAll, rules_by};
ghost use Rattle.raft_model.specs.Lists.{In};
ghost use Rattle.transfer_rx.specs.Acceptance.{first_signature};

use alloc_server::{Event, Role, Server, accept_rows};
use alloc_spec::are_members;
use c_disk::FdDisk;
use can_frame::sizes::MOST_MEMBERS;
use can_frame::{Entry, Kind};
use kv_store::OpenFault;

/// What a call answers.
const DONE: u64 = 0;

const NOT_MADE: u64 = 1;

const CLOSED: u64 = 2;

const FAULT: u64 = 3;

const NOT_ALL_MEMBERS: u64 = 7;

const TOO_LATE: u64 = 8;

const DAMAGED: u64 = 256;

/// The answer to `TAKE` has this bit where there was a frame.
const SOME: u64 = 1 << 63;

/// An allocator in one piece of memory.
///
/// A node that is open stands for an allocator of the definition (`IsAt`).
#[derive(Drop)]
pub struct Node {
    /// None where the node ID or the size of the cluster is not possible.
    server: Option<Server<FdDisk, ()>>,
    id: u8,
    size: u8,
    steps: u64,

    /// It was opened, and has made no step since, nor was it told who its members are.
    is_new: bool,

    /// The bytes of the frame that was taken last.
    pub(crate) bytes: u64,
    ghost least: { 1 ≤ id },
    ghost most: { id ≤ 125 },
    ghost some: { 1 ≤ size },
    ghost five: { size ≤ most_members },
}

impl Node {
    ghost use Rattle.alloc_server.specs.Server.{event_of};
    ghost use Rattle.c_calls.specs.At.{Entries, IsNew, Learns, MayLearn, Opens, Steps, Takes, Views};

    /// A node with this ID, of a cluster of `size` members, on the disk behind a descriptor. It is not open:
    /// nothing was read yet. Where there is no such ID or size, it stays closed for ever.
    pub fn closed(id: u32, size: u32, fd: u32) -> Node
        ensures new { IsNew result id size }
    {
        if id < 1 || 125 < id || size < 1 || size > MOST_MEMBERS as u32 {
            return Node {
                server: None,
                id: 1,
                size: 1,
                steps: 0,
                is_new: false,
                bytes: 0,
            };
        }
        let (id, size) = (id as u8, size as u8);
        let fd = i32::try_from(fd).unwrap_or(-1);
        Node {
            server: Some(Server::closed(id, size, FdDisk::new(fd), accept_rows(), ())),
            id,
            size,
            steps: 0,
            is_new: false,
            bytes: 0,
        }
    }

    /// Opens with what is stored, at a moment and with a random word.
    pub(crate) fn open(&mut self, now: u64, word: u32) -> u64
        ensures opens { Opens self.old self.new now word result }
        ensures id { self.new.id ≡ self.old.id }
        ensures size { self.new.size ≡ self.old.size }
    {
        let Some(server) = &mut self.server else {
            return NOT_MADE;
        };
        match server.reopen(self.id, self.size, now, word) {
            Ok(()) => {
                self.is_new = true;
                DONE
            }
            Err(OpenFault::Damaged(key)) => DAMAGED + u64::from(key),
            Err(OpenFault::Fault(_)) => FAULT,
        }
    }

    /// Is told all members of its cluster, once, and before its first step.
    pub(crate) fn learn(&mut self, members: &[u8]) -> u64
        ensures learns { Learns self.old self.new members.now result }
        ensures id { self.new.id ≡ self.old.id }
        ensures size { self.new.size ≡ self.old.size }
    {
        let status = self.may_learn(members);
        if status != DONE {
            return status;
        }
        self.is_new = false;
        if let Some(server) = &mut self.server {
            server.learn(members);
        }
        DONE
    }

    /// What it answers when it is told these members.
    fn may_learn(&self, members: &[u8]) -> u64
        ensures { MayLearn self.now members.now result }
    {
        let Some(server) = &self.server else {
            return NOT_MADE;
        };
        if server.failed() {
            CLOSED
        } else if !self.is_new {
            TOO_LATE
        } else if !are_all_members(members, self.id, self.size) {
            NOT_ALL_MEMBERS
        } else {
            DONE
        }
    }

    /// Makes a step.
    pub(crate) fn step(&mut self, event: Event) -> u64
        ensures steps { Steps self.old self.new (event_of event) result }
        ensures id { self.new.id ≡ self.old.id }
        ensures size { self.new.size ≡ self.old.size }
    {
        let Some(server) = &mut self.server else {
            return NOT_MADE;
        };
        if server.failed() {
            return CLOSED;
        }
        self.steps = self.steps.wrapping_add(1);
        self.is_new = false;
        match server.step_by(accept, event, self.steps) {
            Ok(_) => DONE,
            Err(_) => FAULT,
        }
    }

    /// Takes the next frame for the bus: its identifier, and how many bytes of data it has.
    pub(crate) fn take(&mut self) -> u64
        ensures takes { Takes self.old self.new result }
        ensures id { self.new.id ≡ self.old.id }
        ensures size { self.new.size ≡ self.old.size }
    {
        let Some(server) = &mut self.server else {
            return 0;
        };
        let Some(next) = server.pop() else {
            return 0;
        };
        let bytes = next.frame.bytes.as_slice();
        self.bytes = word_of(bytes);
        SOME + ((bytes.len() as u64) << 32) + u64::from(next.frame.id)
    }

    /// A part of what it shows of itself.
    pub(crate) fn view(&self, part: u64) -> u64
        ensures { Views self.now part result }
    {
        let Some(server) = &self.server else {
            return 0;
        };
        let view = server.view();
        match part {
            0 => match view.role {
                Role::Follower => 0,
                Role::Candidate => 1,
                Role::Leader => 2,
            },
            1 => u64::from(view.term),
            2 => u64::from(view.vote),
            3 => u64::from(view.last),
            4 => u64::from(view.commit),
            5 => u64::from(view.queued),
            6 => u64::from(!server.failed()),
            _ => 0,
        }
    }

    /// A part of the entry at a place of the log, from 1.
    pub(crate) fn entry(&self, place: u64, part: u64) -> u64
        ensures { Entries self.now place part result }
    {
        let Some(server) = &self.server else {
            return 0;
        };
        if place < 1 || u64::from(server.view().last) < place {
            return 0;
        }
        let Entry { term, uid, node } = server.entry(place as u8);
        let (front, back) = uid.split_at(8);
        match part {
            0 => u64::from(node),
            1 => word_of(front),
            2 => word_of(back),
            3 => u64::from(term),
            _ => 0,
        }
    }
}

/// What an allocator receives: `alloc_server::accept`, under a name of this crate.
fn accept(kind: Kind, number: u16) -> Option<u64>
    ensures { result ≡ first_signature accepted.rows kind number }
{
    alloc_server::accept(kind, number)
}

/// Whether these may be all members of a cluster of this size, with this one among them.
fn are_all_members(members: &[u8], me: u8, size: u8) -> bool
    requires some { 1 ≤ size }
    requires five { size ≤ most_members }
    ensures { IsTrue result ↔ IsToldAll me (rules_by size members.now) }
{
    if members.len() != size as usize {
        return false;
    }
    has(members, me) && are_members(members)
}

fn has(members: &[u8], node: u8) -> bool
    ensures { IsTrue result ↔ In node members.now }
{
    members.contains(&node)
}

/// The first eight bytes as a number, the first one lowest, and zeros where there are fewer.
fn word_of(bytes: &[u8]) -> u64
    ensures { result ≡ from_le_bytes w64 bytes.now }
{
    let word = [
        byte_at(bytes, 0),
        byte_at(bytes, 1),
        byte_at(bytes, 2),
        byte_at(bytes, 3),
        byte_at(bytes, 4),
        byte_at(bytes, 5),
        byte_at(bytes, 6),
        byte_at(bytes, 7),
    ];
    u64::from_le_bytes(word)
}

/// The byte at a place, and 0 behind the last.
fn byte_at(bytes: &[u8], place: usize) -> u8
    ensures { result ≡ slice_index bytes.now place }
{
    match bytes.get(place) {
        Some(byte) => *byte,
        None => 0,
    }
}
