//! Laws of the definitions, each the contract of a function that does nothing.

ghost use Rattle.bus_spec.specs.Cluster.{Cluster};
ghost use Rattle.bus_spec.specs.OwnLogs.{GivesOnce};
ghost use Rattle.bus_world.specs.World.{StandsFor};
ghost use Rattle.bus_world.specs.declared.world.World.{World};

use can_frame::Kind;

/// In no log of a world, of a member that runs or as its disk has it, is one node ID given to two
/// devices, or one device given two.
#[tactic(auto, using(crate::proofs::Promising::world_gives_once))]
pub fn logs_give_once<
    F: Fn(Kind, u16) -> Option<u64> + Copy,
    G: Fn(Kind, u16) -> Option<u64> + Copy,
>()
    ensures { (world : World F G) (c : Cluster) → StandsFor world c → GivesOnce c }
{}
