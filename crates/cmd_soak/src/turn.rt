ghost use Rattle.std.specs.Prelude.{◌≤◌};
ghost use Rattle.can_frame.specs.Sizes.{most_members};
ghost use Rattle.cmd_soak.specs.Growth.{room_for};
ghost use Rattle.cmd_soak.specs.Rounds.{each, has_turn, opens, sends_some, ticks};

use crate::soaking::Soaking;
use bus_rows::Row;
use can_frame::Kind;

/// How many frames a member puts on the bus in its turn, at the most.
const MOST_SENT: u8 = 8;

/// What each member does once in a round.
#[derive(Clone, Copy, Debug, PartialEq, Eq)]
pub(crate) enum Turn {
    /// A member that is stopped opens.
    Open,

    /// One that runs reads its clock.
    Tick,

    /// A member is given the frames of the bus that came since it was given some; of these some are lost, and
    /// some come twice.
    Hear,

    /// One that runs puts frames on the bus, eight at the most.
    Send,
}

impl<F: Fn(Kind, u16) -> Option<u64> + Copy, G: Fn(Kind, u16) -> Option<u64> + Copy> Soaking<F, G> {
    ghost use Rattle.cmd_soak.specs.Soaking.{AllocateesReceive, Does, HasRoom, Keeps, MembersReceive};

    /// Each member has its turn.
    pub(crate) fn each(&mut self, turn: Turn, size: u8)
        requires members { MembersReceive F.row F.IsAlwaysCallable F.post self.old.world }
        requires allocatees { AllocateesReceive G.row G.IsAlwaysCallable G.post self.old.world }
        requires room { HasRoom (room_for turn 5) 42949672960 self.old }
        requires size { size ≤ most_members }
        ensures stands { Does (each turn size) self.old self.new }
        ensures keeps { Keeps self.old self.new }
    {
        for place in 0..size {
            self.member(turn, place + 1);
        }
    }

    fn member(&mut self, turn: Turn, n: u8)
        requires members { MembersReceive F.row F.IsAlwaysCallable F.post self.old.world }
        requires allocatees { AllocateesReceive G.row G.IsAlwaysCallable G.post self.old.world }
        requires room { HasRoom (room_for turn 1) 8589934592 self.old }
        ensures stands { Does (has_turn turn n) self.old self.new }
        ensures keeps { Keeps self.old self.new }
    {
        match turn {
            Turn::Open => self.open(n),
            Turn::Tick => self.tick(n),
            Turn::Hear => self.hear(n),
            Turn::Send => self.send(n),
        }
    }

    fn open(&mut self, n: u8)
        requires members { MembersReceive F.row F.IsAlwaysCallable F.post self.old.world }
        requires allocatees { AllocateesReceive G.row G.IsAlwaysCallable G.post self.old.world }
        requires room { HasRoom 1 1 self.old }
        ensures stands { Does (opens n) self.old self.new }
        ensures keeps { Keeps self.old self.new }
    {
        if self.shows(n) {
            return;
        }
        let word = self.chance.word();
        self.give(&Row::Open {
            n,
            told: self.told,
            ms: self.moment,
            word,
        });
    }

    fn tick(&mut self, n: u8)
        requires members { MembersReceive F.row F.IsAlwaysCallable F.post self.old.world }
        requires allocatees { AllocateesReceive G.row G.IsAlwaysCallable G.post self.old.world }
        requires room { HasRoom 1 1 self.old }
        ensures stands { Does (ticks n) self.old self.new }
        ensures keeps { Keeps self.old self.new }
    {
        if !self.shows(n) {
            return;
        }
        let word = self.chance.word();
        self.give(&Row::Tick {
            n,
            ms: self.moment,
            word,
        });
    }

    fn send(&mut self, n: u8)
        requires members { MembersReceive F.row F.IsAlwaysCallable F.post self.old.world }
        requires allocatees { AllocateesReceive G.row G.IsAlwaysCallable G.post self.old.world }
        requires room { HasRoom 8 8 self.old }
        ensures stands { Does (sends_some n) self.old self.new }
        ensures keeps { Keeps self.old self.new }
    {
        if !self.shows(n) {
            return;
        }
        let mut left = MOST_SENT;
        while left > 0 {
            if !self.take(&Row::Send { n }) {
                return;
            }
            left -= 1;
        }
    }
}
