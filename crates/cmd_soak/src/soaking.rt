ghost use Rattle.std.specs.Prelude.{◌≡◌, ◌≤◌, ◌<◌, ◌*◌, ℕ, List, length};
ghost use Rattle.can_frame.specs.Sizes.{most_members};
ghost use Rattle.disk_model.specs.Pattern.{IsUsable};
ghost use Rattle.outside.specs.declared.pattern.Pattern.{Pattern};
ghost use Rattle.bus_rows.specs.declared.row.Row.TheVariants.{AOpen, Crash};
ghost use Rattle.bus_rows.specs.ReportLine.{is_stop as tells_of_stop, report_line_of};
ghost use Rattle.cmd_soak.specs.Counts.{counts_of};
ghost use Rattle.cmd_soak.specs.Rounds.{Soak, asks_in_time, each, for_each, gives, has_round, shows as is_shown};

use crate::counts::Counts;
use crate::pairs::pairs;
use crate::requests::request;
use crate::turn::Turn;
use bus_rows::{Row, Told};
use bus_world::World;
use can_frame::Kind;
use cmd_io::Draws;

/// A cluster, and what came of the rows that it was given.
#[derive(Drop)]
pub(crate) struct Soaking<F, G> {
    pub(crate) world: World<F, G>,
    /// Whether members are told who the members are when they open.
    pub(crate) told: bool,

    pub(crate) chance: Draws,

    /// How many frames the world was made for.
    pub(crate) room: usize,

    /// The moment of the round, in ms.
    pub(crate) moment: u64,

    /// How many frames of the bus each member was given, or has lost, before this round.
    pub(crate) heard: usize,

    /// How many rows told of a stop.
    pub(crate) stops: u64,

    /// How many rows were refused.
    pub(crate) refused: u64,
}

impl<F: Fn(Kind, u16) -> Option<u64> + Copy, G: Fn(Kind, u16) -> Option<u64> + Copy> Soaking<F, G> {
    ghost use Rattle.cmd_soak.specs.Soaking.{AllocateesReceive, Does, HasRoom, Keeps, MembersReceive, StandsFor, Tries};

    pub fn new(world: World<F, G>, room: usize, told: bool, seed: u64) -> Soaking<F, G>
        ensures { result ≡ record {
          world = world;
          told = told;
          chance = seed;
          room = room;
          moment = 0;
          heard = 0;
          stops = 0;
          refused = 0;
        } }
    {
        Soaking {
            world,
            told,
            chance: Draws::new(seed),
            room,
            moment: 0,
            heard: 0,
            stops: 0,
            refused: 0,
        }
    }

    /// What came of so many rounds of a cluster of so many members.
    pub fn counts(&self, rounds: u64, size: u8) -> Counts
        requires { HasRoom 0 0 self.now }
        ensures { (s : Soak) → StandsFor self.now s → result ≡ counts_of rounds size s }
    {
        Counts {
            rounds,
            frames: self.frames() as u64,
            stops: self.stops,
            refused: self.refused,
            pairs: pairs(&self.world, size),
        }
    }

    /// How many frames are on the bus.
    pub(crate) fn frames(&self) -> usize
        requires { HasRoom 0 0 self.now }
        ensures count { (s : Soak) → StandsFor self.now s → result ≡ length s.world.frames }
        ensures few { result ≤ self.now.room }
    {
        self.room - self.world.frames_left()
    }

    /// So many rounds of a cluster of so many members.
    pub fn rounds(&mut self, rounds: u64, size: u8)
        requires members { MembersReceive F.row F.IsAlwaysCallable F.post self.old.world }
        requires allocatees { AllocateesReceive G.row G.IsAlwaysCallable G.post self.old.world }
        requires room { HasRoom (rounds * 41) (rounds * 274877906944) self.old }
        requires rounds { rounds ≤ 20000 }
        requires least { 1 ≤ size }
        requires most { size ≤ most_members }
        ensures stands { Does (for_each (has_round size) 1 rounds) self.old self.new }
        ensures keeps { Keeps self.old self.new }
    {
        for done in 0..rounds {
            self.round(done + 1, size);
        }
    }

    /// The round with this number.
    fn round(&mut self, number: u64, size: u8)
        requires members { MembersReceive F.row F.IsAlwaysCallable F.post self.old.world }
        requires allocatees { AllocateesReceive G.row G.IsAlwaysCallable G.post self.old.world }
        requires room { HasRoom 41 274877906944 self.old }
        requires number { number ≤ 20000 }
        requires least { 1 ≤ size }
        requires most { size ≤ most_members }
        ensures stands { Does (has_round size number) self.old self.new }
        ensures keeps { Keeps self.old self.new }
    {
        self.moment = 50 * number;
        self.arm_by_chance(size);
        self.each(Turn::Open, size);
        self.ask_in_time(number);
        self.each(Turn::Tick, size);
        self.each(Turn::Hear, size);
        self.heard = self.frames();
        self.each(Turn::Send, size);
    }

    /// In one round of four a device asks for a node ID, in one of its three stages.
    fn ask_in_time(&mut self, number: u64)
        requires members { MembersReceive F.row F.IsAlwaysCallable F.post self.old.world }
        requires allocatees { AllocateesReceive G.row G.IsAlwaysCallable G.post self.old.world }
        requires room { HasRoom 1 1 self.old }
        ensures stands { Does (asks_in_time number) self.old self.new }
        ensures keeps { Keeps self.old self.new }
    {
        if number % 4 == 1 {
            self.give(&Row::Ext {
                frame: request(number / 4),
            });
        }
    }

    /// Whether a member runs, and has not failed.
    pub(crate) fn shows(&self, n: u8) -> bool
        ensures { (s : Soak) → StandsFor self.now s → result ≡ is_shown n s }
    {
        self.world.view(n).is_some()
    }

    /// Gives the world a row, and counts what came of it.
    pub(crate) fn give(&mut self, row: &Row)
        requires members { MembersReceive F.row F.IsAlwaysCallable F.post self.old.world }
        requires allocatees { AllocateesReceive G.row G.IsAlwaysCallable G.post self.old.world }
        requires room { HasRoom 1 1 self.old }
        requires filled { (n calls : ℕ) (pattern : Pattern) → row.now ≡ Crash n calls pattern →
            IsUsable pattern }
        requires preferred { (a : ℕ) (uid : List ℕ) (pref ms word : ℕ) →
            row.now ≡ AOpen a uid pref ms word → pref < 128 }
        ensures stands { Does (gives row.now) self.old self.new }
        ensures keeps { Keeps self.old self.new }
    {
        if !self.take(row) {
            self.refused += 1;
        }
    }

    /// Gives the world a row, and counts a stop; whether it was taken.
    pub(crate) fn take(&mut self, row: &Row) -> bool
        requires members { MembersReceive F.row F.IsAlwaysCallable F.post self.old.world }
        requires allocatees { AllocateesReceive G.row G.IsAlwaysCallable G.post self.old.world }
        requires room { HasRoom 1 1 self.old }
        requires filled { (n calls : ℕ) (pattern : Pattern) → row.now ≡ Crash n calls pattern →
            IsUsable pattern }
        requires preferred { (a : ℕ) (uid : List ℕ) (pref ms word : ℕ) →
            row.now ≡ AOpen a uid pref ms word → pref < 128 }
        ensures tries { (s : Soak) → StandsFor self.old s → Tries result row.now s self.new }
        ensures keeps { Keeps self.old self.new }
    {
        match self.world.row(row) {
            Ok(told) => {
                self.stops += u64::from(is_stop(&told));
                true
            }
            Err(_) => false,
        }
    }
}

fn is_stop(told: &Told) -> bool
    ensures { result ≡ tells_of_stop (report_line_of told.now) }
{
    match told {
        Told::Stopped { .. } => true,
        Told::Opened { .. }
        | Told::Stepped { .. }
        | Told::Failed { .. }
        | Told::Armed { .. }
        | Told::Popped { .. }
        | Told::Outside { .. }
        | Told::AOpened { .. }
        | Told::AStepped { .. }
        | Told::APopped { .. }
        | Told::AEnded { .. } => false,
    }
}
