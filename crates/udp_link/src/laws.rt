//! Laws of the definitions, each the contract of a function that does nothing.

ghost use Rattle.std.specs.Prelude.{ℕ, List};
ghost use Rattle.outside.specs.declared.received.RawFrame.{RawFrame};
ghost use Rattle.udp_link.specs.Datagram.{IsDatagram, IsSameFrame};

/// A datagram is one frame at most: what is read from it is what was written.
pub fn a_datagram_has_one_frame()
    ensures { (frame other : RawFrame) (bytes : List ℕ) →
        IsDatagram frame bytes → IsDatagram other bytes → IsSameFrame frame other }
{}
