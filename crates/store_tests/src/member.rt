//! Member 1 of a cluster with what it has stored, for the tests.

ghost use Rattle.std.specs.Prelude.{◌≡◌, ◌<◌, ◌≤◌};
ghost use Rattle.std.proofs.Props.{props};
ghost use Rattle.can_frame.specs.Sizes.{most_members};
ghost use Rattle.raft_core.specs.Fits.{Fits};
ghost use Rattle.raft_core.specs.OneFit.{Fits-prop};
ghost use Rattle.raft_core.specs.RaftViews.{raft_size};
ghost use Rattle.raft_core.specs.Telling.{IsNext};
ghost use Rattle.raft_log.specs.DurableViews.{durable_state};

use can_frame::sizes::LOG_LIMIT;
use can_frame::{Entry, NodeId, Uid, is_zero};
use disk_model::{IMAGE, MemoryDisk};
use dsdl_codec::{AppendAnswer, AppendRequest, VoteAnswer, VoteRequest};
use raft_core::{Call, Proposed, Raft, Role, Telling};
use raft_log::{Durable, may_follow, origin};

/// The entry that gives a node ID to the unique ID of one repeated byte.
pub(crate) fn pair(term: u32, byte: u8, node: u8) -> Entry {
    Entry {
        term,
        uid: [byte; 16],
        node,
    }
}

/// The entry that keeps a node ID back.
pub(crate) fn reservation(term: u32, node: u8) -> Entry {
    Entry {
        term,
        node,
        ..Entry::default()
    }
}

pub(crate) fn blank(term: u32) -> Entry {
    Entry {
        term,
        ..Entry::default()
    }
}

/// What is stored: a term, no vote, these entries, which came by the exchange, and a commit index.
pub(crate) fn stored(term: u32, entries: &[Entry], commit: u8) -> Option<Durable<MemoryDisk>> {
    let mut durable = Durable::open(MemoryDisk::new(&[0; IMAGE])).ok()?;
    if durable.term() < term {
        durable.set_term(term).ok()?;
    }
    for entry in entries {
        append(&mut durable, *entry)?;
    }
    if durable.commit() < commit && commit <= durable.last() {
        durable.set_commit(commit).ok()?;
    }
    Some(durable)
}

fn append(durable: &mut Durable<MemoryDisk>, entry: Entry) -> Option<()> {
    if durable.last() as usize >= LOG_LIMIT || !may_follow(durable.log(), durable.term(), &entry) {
        return None;
    }
    durable.append(entry, origin::EXCHANGE).ok()
}

/// What is seen of a member: its role, term, vote, last and commit index.
pub(crate) type View = (Role, u32, u8, u8, u8);

/// A member with what it has stored. A call takes it, and gives it back where no put failed.
#[derive(Drop)]
pub(crate) struct Member {
    pub raft: Raft,
    pub durable: Durable<MemoryDisk>,

    /// How many members its cluster has.
    pub size: u8,
    ghost sized: { raft_size raft ≡ size },
    ghost fits: { Fits raft (durable_state durable) } by { Prim.hlevel (props, Fits-prop) },
}

impl Member {
    /// Member 1 of a cluster of this size, opened at 0 ms with a word.
    pub fn open(durable: Durable<MemoryDisk>, size: u8, word: u32) -> Member
        requires some { 1 ≤ size }
        requires five { size ≤ most_members }
    {
        let raft = Raft::new(1, size, 0, word);
        Member {
            raft,
            durable,
            size,
        }
    }

    /// Member 1 of 3 that has waited 2,000 ms, and leads by the vote of member 2.
    pub fn leader(durable: Durable<MemoryDisk>) -> Option<Member> {
        Member::open(durable, 3, 0).lead()
    }

    /// From now on its blank waits until a quorum has its log.
    pub fn waiting(self) -> Member {
        let Member {
            mut raft,
            durable,
            size,
        } = self;
        raft.wait_until_heard();
        Member {
            raft,
            durable,
            size,
        }
    }

    /// One of 3 that opened, after it has waited 2,000 ms: it leads by the vote of member 2.
    pub fn lead(self) -> Option<Member> {
        let member = self.tick(2000, 0)?;
        let (member, _) = member.call(2, 0, 2000)?;
        let term = member.durable.term();
        let (member, _) = member.vote_answer(2, 0, term, true, 2000)?;
        Some(member)
    }

    pub fn view(&self) -> View {
        (
            self.raft.role(),
            self.durable.term(),
            self.durable.vote(),
            self.durable.last(),
            self.durable.commit(),
        )
    }

    /// The entry at a place.
    pub fn entry(&self, place: u8) -> Option<Entry> {
        if place > self.durable.last() {
            return None;
        }
        Some(self.durable.entry(place))
    }

    /// A tick, with members 2 and 3 known.
    pub fn tick(self, now: u64, word: u32) -> Option<Member> {
        let Member {
            mut raft,
            mut durable,
            size,
        } = self;
        if size != 3 {
            return None;
        }
        raft.tick(&mut durable, &[2, 3], true, now, word).ok()?;
        Some(Member {
            raft,
            durable,
            size,
        })
    }

    /// The call that is owed to a peer, made in step 1 under a transfer ID.
    pub fn call(self, peer: u8, id: u8, now: u64) -> Option<(Member, Call)>
        requires most { peer ≤ 125 }
        requires id { id < 32 }
    {
        let Member {
            mut raft,
            durable,
            size,
        } = self;
        let call = raft.call(&durable, peer, now)?;
        raft.called(&durable, peer, &call, id, 1, now);
        Some((
            Member {
                raft,
                durable,
                size,
            },
            call,
        ))
    }

    pub fn vote_answer(
        self,
        from: u8,
        id: u8,
        term: u32,
        granted: bool,
        now: u64,
    ) -> Option<(Member, bool)>
        requires { from ≤ 125 }
    {
        let Member {
            mut raft,
            mut durable,
            size,
        } = self;
        let answer = VoteAnswer { term, granted };
        let taken = raft
            .on_vote_answer(&mut durable, from, id, &answer, now)
            .ok()?;
        Some((
            Member {
                raft,
                durable,
                size,
            },
            taken,
        ))
    }

    pub fn append_answer(
        self,
        from: u8,
        id: u8,
        term: u32,
        success: bool,
        now: u64,
    ) -> Option<(Member, bool)>
        requires { from ≤ 125 }
    {
        let Member {
            mut raft,
            mut durable,
            size,
        } = self;
        let answer = AppendAnswer { term, success };
        let taken = raft
            .on_append_answer(&mut durable, from, id, &answer, now)
            .ok()?;
        Some((
            Member {
                raft,
                durable,
                size,
            },
            taken,
        ))
    }

    pub fn vote_request(
        self,
        from: u8,
        request: &VoteRequest,
        now: u64,
    ) -> Option<(Member, VoteAnswer)>
        requires least { 1 ≤ from }
        requires most { from ≤ 125 }
    {
        let Member {
            mut raft,
            mut durable,
            size,
        } = self;
        let answer = raft.on_vote_request(&mut durable, from, request, now).ok()?;
        Some((
            Member {
                raft,
                durable,
                size,
            },
            answer,
        ))
    }

    pub fn append_request(
        self,
        from: u8,
        request: &AppendRequest,
        now: u64,
    ) -> Option<(Member, AppendAnswer)> {
        let Member {
            mut raft,
            mut durable,
            size,
        } = self;
        let answer = raft
            .on_append_request(&mut durable, from, request, now)
            .ok()?;
        Some((
            Member {
                raft,
                durable,
                size,
            },
            answer,
        ))
    }

    /// Proposes a node ID for the unique ID of one repeated byte, which came by the exchange.
    pub fn propose(self, byte: u8, node: u8) -> Option<(Member, Proposed)> {
        let Member {
            mut raft,
            mut durable,
            size,
        } = self;
        let uid: Uid = [byte; 16];
        let node = NodeId::new(node)?;
        if is_zero(&uid) || node.get() > 125 {
            return None;
        }
        let proposed = raft
            .propose(&mut durable, &uid, node, origin::EXCHANGE)
            .ok()?;
        Some((
            Member {
                raft,
                durable,
                size,
            },
            proposed,
        ))
    }

    pub fn reserve(self, node: u8) -> Option<(Member, Proposed)> {
        let Member {
            mut raft,
            mut durable,
            size,
        } = self;
        let node = NodeId::new(node)?;
        if node.get() > 125 {
            return None;
        }
        let reserved = raft.reserve(&mut durable, node).ok()?;
        Some((
            Member {
                raft,
                durable,
                size,
            },
            reserved,
        ))
    }

    pub fn commit(self) -> Option<Member> {
        let Member {
            mut raft,
            mut durable,
            size,
        } = self;
        raft.commit(&mut durable).ok()?;
        Some(Member {
            raft,
            durable,
            size,
        })
    }

    pub fn expire(self, now: u64) -> Member {
        let Member {
            mut raft,
            durable,
            size,
        } = self;
        raft.expire(now);
        Member {
            raft,
            durable,
            size,
        }
    }

    /// What is to be told next, which is told.
    pub fn tell(self) -> (Member, Telling) {
        let telling = self.raft.tell(&self.durable);
        let member = match telling {
            Telling::Nothing => self,
            Telling::Skip(place) | Telling::Pair(place, ..) => self.told(place),
        };
        (member, telling)
    }

    /// The entry at this place was told, or passed over.
    fn told(self, place: u8) -> Member
        requires next { IsNext self.raft (durable_state self.durable) place }
    {
        let Member {
            mut raft,
            durable,
            size,
        } = self;
        raft.told(place);
        Member {
            raft,
            durable,
            size,
        }
    }
}
