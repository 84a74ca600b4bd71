ghost use Rattle.std.specs.Prelude.{◌≡◌};
ghost use Rattle.bus_world.specs.World.{StandsFor};
ghost use Rattle.bus_spec.specs.Cluster.{Cluster};
ghost use Rattle.bus_spec.specs.Report.{entry_of};
ghost use Rattle.cmd_soak.specs.Counts.{commit_at, furthest, is_pair, pairs};

use bus_world::World;
use can_frame::{Kind, is_zero};

/// How many pairs stand in the longest committed list that a member shows: entries whose unique ID is not zeros.
#[tactic(auto, unfolding(crate::specs::Counts::pairs))]
pub(crate) fn pairs<F: Fn(Kind, u16) -> Option<u64> + Copy, G: Fn(Kind, u16) -> Option<u64> + Copy>(
    world: &World<F, G>,
    size: u8,
) -> u64
    ensures { (w : Cluster) → StandsFor world.now w → result ≡ pairs w size }
{
    let n = furthest(world, size);
    let mut pairs = 0;
    for place in 0..commit(world, n) {
        pairs += u64::from(is_pair(world, n, place + 1));
    }
    pairs
}

/// The first member that shows the greatest commit index; 0 where all show none or 0.
fn furthest<F: Fn(Kind, u16) -> Option<u64> + Copy, G: Fn(Kind, u16) -> Option<u64> + Copy>(
    world: &World<F, G>,
    size: u8,
) -> u8
    ensures { (w : Cluster) → StandsFor world.now w → result ≡ furthest w size }
{
    let mut furthest = 0;
    for place in 0..size {
        if commit(world, furthest) < commit(world, place + 1) {
            furthest = place + 1;
        }
    }
    furthest
}

/// The commit index that a member shows, 0 where it shows none.
fn commit<F: Fn(Kind, u16) -> Option<u64> + Copy, G: Fn(Kind, u16) -> Option<u64> + Copy>(
    world: &World<F, G>,
    n: u8,
) -> u8
    ensures { (w : Cluster) → StandsFor world.now w → result ≡ commit_at w n }
{
    match world.view(n) {
        Some(view) => view.commit,
        None => 0,
    }
}

/// Whether a member shows a pair at this place.
fn is_pair<F: Fn(Kind, u16) -> Option<u64> + Copy, G: Fn(Kind, u16) -> Option<u64> + Copy>(
    world: &World<F, G>,
    n: u8,
    place: u8,
) -> bool
    ensures { (w : Cluster) → StandsFor world.now w → result ≡ is_pair (entry_of w n place) }
{
    match world.entry(n, place) {
        Some(entry) => !is_zero(&entry.uid),
        None => false,
    }
}
