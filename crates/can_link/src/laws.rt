//! Laws of the definitions, each the contract of a function that does nothing.

ghost use Rattle.std.specs.Prelude.{ℕ, List};
ghost use Rattle.can_link.specs.Packet.{IsPacket, IsSameFrame};
ghost use Rattle.outside.specs.declared.received.RawFrame.{RawFrame};

/// A packet is one frame at most: what is read from it is what was written.
pub fn a_packet_has_one_frame()
    ensures { (frame other : RawFrame) (bytes : List ℕ) →
        IsPacket frame bytes → IsPacket other bytes → IsSameFrame frame other }
{}
