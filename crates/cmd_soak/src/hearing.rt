ghost use Rattle.std.specs.Prelude.{◌≡◌, ◌<◌, ℕ, List};
ghost use Rattle.disk_model.specs.Pattern.{IsUsable};
ghost use Rattle.outside.specs.declared.pattern.Pattern.{Pattern};
ghost use Rattle.bus_rows.specs.declared.row.Row.TheVariants.{AOpen, Crash};
ghost use Rattle.cmd_soak.specs.Rounds.{hears, hears_all, repeats};

use crate::soaking::Soaking;
use bus_rows::Row;
use can_frame::Kind;

/// One frame of so many is lost.
const FRAMES_PER_LOSS: u32 = 16;

/// One frame of so many that is given comes once more.
const FRAMES_PER_REPEAT: u32 = 16;

impl<F: Fn(Kind, u16) -> Option<u64> + Copy, G: Fn(Kind, u16) -> Option<u64> + Copy> Soaking<F, G> {
    ghost use Rattle.cmd_soak.specs.Soaking.{AllocateesReceive, Does, HasRoom, Keeps, MembersReceive};

    pub(crate) fn hear(&mut self, n: u8)
        requires members { MembersReceive F.row F.IsAlwaysCallable F.post self.old.world }
        requires allocatees { AllocateesReceive G.row G.IsAlwaysCallable G.post self.old.world }
        requires room { HasRoom 1 8589934592 self.old }
        ensures stands { Does (hears_all n) self.old self.new }
        ensures keeps { Keeps self.old self.new }
    {
        let heard = self.heard;
        let came = self.frames().saturating_sub(heard);
        for more in 0..came {
            self.hear_frame(n, (heard + 1 + more) as u32);
        }
    }

    fn hear_frame(&mut self, n: u8, k: u32)
        requires members { MembersReceive F.row F.IsAlwaysCallable F.post self.old.world }
        requires allocatees { AllocateesReceive G.row G.IsAlwaysCallable G.post self.old.world }
        requires room { HasRoom 1 2 self.old }
        ensures stands { Does (hears n k) self.old self.new }
        ensures keeps { Keeps self.old self.new }
    {
        if self.chance.below(FRAMES_PER_LOSS) == 0 {
            return;
        }
        if !self.shows(n) {
            return;
        }
        let row = Row::Rx {
            n,
            k,
            ms: self.moment,
        };
        self.give(&row);
        self.repeat(&row);
    }

    /// By chance, a row comes once more.
    fn repeat(&mut self, row: &Row)
        requires members { MembersReceive F.row F.IsAlwaysCallable F.post self.old.world }
        requires allocatees { AllocateesReceive G.row G.IsAlwaysCallable G.post self.old.world }
        requires room { HasRoom 1 1 self.old }
        requires filled { (n calls : ℕ) (pattern : Pattern) → row.now ≡ Crash n calls pattern →
            IsUsable pattern }
        requires preferred { (a : ℕ) (uid : List ℕ) (pref ms word : ℕ) →
            row.now ≡ AOpen a uid pref ms word → pref < 128 }
        ensures stands { Does (repeats row.now) self.old self.new }
        ensures keeps { Keeps self.old self.new }
    {
        if self.chance.below(FRAMES_PER_REPEAT) == 0 {
            self.give(row);
        }
    }
}
