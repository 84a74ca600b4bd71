//! The allocator as a static library for C.
//!
//! A C program gives a [`Node`] its memory, and drives it by calls. Each call is total in its numbers; of the
//! memory the caller owes what the `requires` say, and that no two calls on one node run at one time.
#![tactic(auto)]

ghost use denote.Param.{layout};
ghost use prog.Memory.{capped, size};
ghost use Rattle.std.specs.Borrow.{full_share, sem};
ghost use Rattle.std.specs.Prelude.{◌≡◌};
ghost use Rattle.std.specs.Ptr.{lies_at, room_at};
ghost use Rattle.c_calls.specs.At.{Calls, IsNew};
ghost use Rattle.c_calls.specs.contracts.node.Node.{the_row};
ghost use Rattle.c_calls.specs.declared.node.Node.{Node};

use c_calls::Node;
use std::mem::size_of;

/// How many bytes a node takes: those of the room that `caldrouz_make` asks for. Its memory is aligned to 8.
#[unsafe(no_mangle)]
pub extern "C" fn caldrouz_size() -> usize
    ensures { result ≡ capped (size (layout the_row)) }
{
    size_of::<Node>()
}

/// Makes a node in the room at `at`, which is not open, and cannot be opened where there is no such ID or size.
#[unsafe(no_mangle)]
pub unsafe extern "C" fn caldrouz_make(at: *mut u8, id: u32, size: u32, fd: u32)
    requires* { sem 𝓛 (room_at the_row at) }
    ensures* { ∃ₛ (λ (node : Node). sem 𝓛 (lies_at the_row full_share at node) ∗ ⌜ IsNew node id size ⌝) }
{
    (at as *mut Node).write(Node::closed(id, size, fd))
}

/// Does what the number `op` asks the node at `at` for, as `c_calls::call` says of it: whatever allocator of the
/// definition it stands for, afterwards it stands for that one after the opening, the step or the taking.
#[unsafe(no_mangle)]
pub unsafe extern "C" fn caldrouz_call(at: *mut u8, op: u32, now: u64, a: u64, b: u64) -> u64
    ghost node: { Node }
    requires* { sem 𝓛 (lies_at the_row full_share at node) }
    ensures* { ∃ₛ (λ (after : Node). sem 𝓛 (lies_at the_row full_share at after) ∗
        ⌜ Calls node after op now a b result ⌝) }
{
    c_calls::call(&mut *(at as *mut Node), op, now, a, b)
}
