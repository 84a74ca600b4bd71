ghost use Rattle.std.specs.Prelude.{◌≡◌, ◌≤◌, ◌-◌, ◌↔◌, find, IfSome, IsNone};
ghost use Rattle.std.specs.Option.{option_or};
ghost use Rattle.id_selector.specs.Choice.{preference, upwards, downwards, is_free, chosen, IsFree, NoneFreeFrom, IsChoice};

use can_frame::NodeId;
use can_frame::sizes::NODE_IDS;

/// Chooses a node ID of 1 to 125 for a device that would like `preferred`: the least free one from
/// there up to 125, else the greatest free one below. A preference of 0 or above 125 counts as 125.
/// `taken` says of each number whether a node has it; `None` where 1 to 125 are all taken.
pub fn choose(taken: &[bool; NODE_IDS], preferred: u8) -> Option<NodeId>
    ensures chosen { result ≡ chosen taken.now preferred }
    ensures choice { IsChoice taken.now preferred result }
    ensures free { IfSome result (λ id. IsFree taken.now id) }
    ensures none { IsNone result ↔ NoneFreeFrom taken.now 1 }
{
    first_free(taken, counted(preferred))
}

fn counted(preferred: u8) -> u8
    ensures value { result ≡ preference preferred }
    ensures least { 1 ≤ result }
    ensures most { result ≤ 125 }
{
    if preferred == 0 || preferred > 125 {
        125
    } else {
        preferred
    }
}

fn first_free(taken: &[bool; NODE_IDS], from: u8) -> Option<NodeId>
    requires least { 1 ≤ from }
    requires most { from ≤ 125 }
    ensures { result
        ≡ option_or (find (is_free taken.now) (upwards from))
        (find (is_free taken.now) (downwards (from - 1))) }
{
    first_up(taken, from).or_else(|| first_down(taken, from))
}

fn first_up(taken: &[bool; NODE_IDS], from: u8) -> Option<NodeId>
    requires { 1 ≤ from }
    ensures { result ≡ find (is_free taken.now) (upwards from) }
{
    for id in from..126 {
        if !taken[id as usize] {
            return NodeId::new(id);
        }
    }
    None
}

fn first_down(taken: &[bool; NODE_IDS], from: u8) -> Option<NodeId>
    requires { from ≤ 125 }
    ensures { result ≡ find (is_free taken.now) (downwards (from - 1)) }
{
    for id in (1..from).rev() {
        if !taken[id as usize] {
            return NodeId::new(id);
        }
    }
    None
}
