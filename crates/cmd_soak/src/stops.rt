ghost use Rattle.std.specs.Prelude.{◌≡◌, ◌≤◌, [], ◌∷◌};
ghost use Rattle.outside.specs.declared.pattern.Pattern.TheVariants.{Bytes};
ghost use Rattle.cmd_soak.specs.Rounds.{arms, arms_by_chance};

use crate::soaking::Soaking;
use arrayvec::ArrayVec;
use bus_rows::Row;
use can_frame::Kind;
use outside::Pattern;

/// One round of so many arms a stop.
const ROUNDS_PER_STOP: u32 = 64;

impl<F: Fn(Kind, u16) -> Option<u64> + Copy, G: Fn(Kind, u16) -> Option<u64> + Copy> Soaking<F, G> {
    ghost use Rattle.cmd_soak.specs.Soaking.{AllocateesReceive, Does, HasRoom, Keeps, MembersReceive};

    /// By chance, the disk of a member is to stop.
    pub(crate) fn arm_by_chance(&mut self, size: u8)
        requires members { MembersReceive F.row F.IsAlwaysCallable F.post self.old.world }
        requires allocatees { AllocateesReceive G.row G.IsAlwaysCallable G.post self.old.world }
        requires room { HasRoom 1 1 self.old }
        requires least { 1 ≤ size }
        ensures stands { Does (arms_by_chance size) self.old self.new }
        ensures keeps { Keeps self.old self.new }
    {
        if self.chance.below(ROUNDS_PER_STOP) == 0 {
            self.arm(size);
        }
    }

    fn arm(&mut self, size: u8)
        requires members { MembersReceive F.row F.IsAlwaysCallable F.post self.old.world }
        requires allocatees { AllocateesReceive G.row G.IsAlwaysCallable G.post self.old.world }
        requires room { HasRoom 1 1 self.old }
        requires least { 1 ≤ size }
        ensures stands { Does (arms size) self.old self.new }
        ensures keeps { Keeps self.old self.new }
    {
        let place = self.chance.below(u32::from(size));
        let call = self.chance.below(30);
        let byte = self.chance.below(256);
        self.give(&Row::Crash {
            n: place as u8 + 1,
            calls: call + 1,
            pattern: byte_pattern(byte as u8),
        });
    }
}

fn byte_pattern(byte: u8) -> Pattern
    ensures { result ≡ Bytes (record { items = byte ∷ [] }) }
{
    let mut bytes = ArrayVec::new();
    bytes.push(byte);
    Pattern::Bytes(bytes)
}
