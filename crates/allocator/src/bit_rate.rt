ghost use Rattle.std.specs.Prelude.{◌≡◌, ◌≤◌, ◌<◌, ◌^◌, ℕ, decimal, IfSome, IsNone};

use replay_text::read_number;
use std::env;

/// In the environment the bit rate of the CAN bus, by which it is known when an echo is late. What opens the socket sets
/// it, as `tools/on_can` and `tools/can_bridge` do.
const BIT_RATE: &str = "CALDROUZ_BIT_RATE";

/// The bit rate that the environment tells, if it does.
pub fn told_bit_rate(rt: &HostRuntime) -> Option<u32> {
    match env::var(rt, BIT_RATE) {
        Ok(text) => bit_rate_of(text.as_bytes()),
        Err(_) => None,
    }
}

/// The bit rate that a text spells in decimal, without leading zeros; none where it spells none.
fn bit_rate_of(text: &[u8]) -> Option<u32>
    ensures some { IfSome result (λ rate. (1 ≤ rate) × (text.now ≡ decimal rate)) }
    ensures none { IsNone result → (rate : ℕ) → 1 ≤ rate → rate < 2 ^ 32 → text.now ≡ decimal rate → ⊥ }
{
    let rate = read_number(text, u64::from(u32::MAX))?;
    if rate < 1 {
        return None;
    }
    Some(rate as u32)
}
