ghost use Rattle.std.specs.Prelude.{◌≡◌};

use can_frame::{Ident, Kind};

/// A kind and number of transfers that a receiver takes, and the signature of their data type.
#[derive(Clone, Copy, Debug, PartialEq, Eq)]
pub struct AcceptRow {
    pub kind: Kind,
    pub number: u16,
    pub signature: u64,
}

/// Message 0 with signature 0: a blank for the unused places of a list of fixed capacity.
impl Default for AcceptRow {
    fn default() -> AcceptRow
        ensures { result ≡ record { kind = Kind.Message; number = 0; signature = 0 } }
    {
        AcceptRow {
            kind: Kind::Message,
            number: 0,
            signature: 0,
        }
    }
}

/// The fields and the signature of a frame that is wanted.
#[derive(Clone, Copy, Debug)]
pub struct Wanted {
    pub ident: Ident,
    pub signature: u64,
}
