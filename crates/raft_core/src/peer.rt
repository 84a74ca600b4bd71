ghost use Rattle.std.specs.Prelude.{◌≡◌, ◌≤◌, ◌+◌, ◌-◌, true, false, Some, None};
ghost use Rattle.can_frame.specs.Log.{log_limit};
ghost use Rattle.raft_core.specs.Times as clock;

use can_frame::timing::{CALL_TIMEOUT, HEARTBEAT_INTERVAL};

/// What a call asks a peer for.
#[derive(Clone, Copy)]
pub(crate) enum Asked {
    /// Its vote.
    Vote,

    /// To have the leader's log up to this place.
    Append(u8),
}

/// A call that waits for its answer.
#[derive(Clone, Copy)]
pub(crate) struct Waiting {
    pub asked: Asked,

    /// The transfer ID under which the answer comes.
    pub id: u8,

    /// The step that made the call.
    pub step: u64,

    /// When it was made, in milliseconds.
    pub sent: u64,
}

/// What a member keeps of another one.
#[derive(Clone, Copy)]
pub(crate) struct Peer {
    /// For a candidate: whether it counts the peer's vote.
    pub voted: bool,

    /// For a candidate: whether the peer answered a vote request of this term.
    pub answered: bool,

    /// For a leader: the place of the entry that the peer is sent next.
    pub next: u8,

    /// For a leader: the peer has its log up to this place.
    pub matched: u8,

    /// For a leader: when the peer was last sent an append request, since the win.
    pub appended: Option<u64>,

    pub call: Option<Waiting>,
}

impl Peer {
    ghost use Rattle.raft_core.specs.declared.peer.Waiting.{Waiting};
    ghost use Rattle.raft_core.specs.Peers.{asked_under, expired, fresh, moved_on, voter};

    /// A peer of which nothing is known: it is sent the entry at this place first.
    pub fn new(next: u8) -> Peer
        ensures { result ≡ fresh next }
    {
        Peer {
            voted: false,
            answered: false,
            next,
            matched: 0,
            appended: None,
            call: None,
        }
    }

    /// A peer that voted for the candidate.
    pub fn voter() -> Peer
        ensures { result ≡ voter }
    {
        Peer {
            voted: true,
            ..Peer::new(1)
        }
    }

    /// A call that waits too long is given up.
    pub fn expire(&mut self, now: u64)
        ensures { self.new ≡ expired now self.old }
    {
        if let Some(call) = self.call {
            if now.saturating_sub(call.sent) >= CALL_TIMEOUT {
                self.call = None;
            }
        }
    }

    /// The earlier of a moment and that of the call, where one waits.
    pub fn since(&self, moment: u64) -> u64
        ensures moment { result ≤ moment }
        ensures call { (call : Waiting) → self.now.call ≡ Some call → result ≤ call.sent }
    {
        match self.call {
            Some(call) => moment.min(call.sent),
            None => moment,
        }
    }

    /// Whether the next append request is due: the interval has passed since the last, or there was none.
    pub fn is_silent(&self, now: u64) -> bool
        ensures { result ≡ clock.is_silent self.now.appended now }
    {
        match self.appended {
            Some(moment) => now.saturating_sub(moment) >= HEARTBEAT_INTERVAL,
            None => true,
        }
    }

    /// What the call asks for that waits under a transfer ID.
    pub fn asked_under(&self, id: u8) -> Option<Asked>
        ensures { result ≡ asked_under id self.now.call }
    {
        let call = self.call?;
        if call.id == id {
            Some(call.asked)
        } else {
            None
        }
    }

    /// The peer answered an append request that reached up to a place. Where it refused it, the entry
    /// before is tried next.
    pub fn move_on(&mut self, reach: u8, success: bool)
        requires reach { reach ≤ log_limit }
        requires matched { self.old.matched ≤ log_limit }
        ensures { self.new ≡ moved_on reach success self.old }
    {
        if success {
            self.matched = self.matched.max(reach);
            self.next = self.matched + 1;
        } else {
            self.next = self.next.saturating_sub(1).max(1);
        }
    }
}
