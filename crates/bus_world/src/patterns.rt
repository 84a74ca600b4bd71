ghost use Rattle.std.specs.Prelude.{◌≡◌};
ghost use Rattle.disk_model.specs.Pattern.{IsUsable};
ghost use Rattle.bus_world.specs.Patterns.{IsFilled};

use arrayvec::ArrayVec;
use outside::Pattern;

/// The same pattern again.
pub(crate) fn copy_of(pattern: &Pattern) -> Pattern
    requires { IsFilled pattern.now }
    ensures same { result ≡ pattern.now }
    ensures usable { IsUsable result }
{
    match pattern {
        Pattern::Old => Pattern::Old,
        Pattern::New => Pattern::New,
        Pattern::Bytes(bytes) => {
            let _few = bytes.remaining_capacity();
            let mut copy = ArrayVec::new();
            match copy.try_extend_from_slice(bytes) {
                Ok(()) => Pattern::Bytes(copy),
                Err(_) => unreachable!(),
            }
        }
    }
}
