ghost use Rattle.std.specs.Prelude.{◌≡◌};
ghost use Rattle.transfer_rx.specs.Keys.{key_of};

use can_frame::{Ident, Kind};

/// What the frames of one session have in common.
#[derive(Clone, Copy, Debug, PartialEq, Eq)]
pub struct Key {
    pub kind: Kind,
    pub number: u16,
    pub source: u8,
}

impl Key {
    pub fn of(ident: &Ident) -> Key
        ensures { result ≡ key_of ident.now }
    {
        Key {
            kind: ident.kind,
            number: ident.number,
            source: ident.source,
        }
    }
}
