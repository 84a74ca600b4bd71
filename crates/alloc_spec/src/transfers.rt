//! How the transfers of an allocator go over the bus.

ghost use Rattle.std.specs.Prelude.{◌≡◌};
ghost use Rattle.alloc_spec.specs.Transfers as transfers;

use can_frame::{Ident, What};

/// The signature of a transfer's data type, from which its CRC begins.
pub(crate) fn signature_of(what: What) -> u64
    ensures { result ≡ transfers.signature_of what }
{
    what.transfer_type().data_type.signature
}

/// The identifier of a transfer to a node, 0 for a message. Everything that an allocator sends has
/// priority 30.
pub fn ident_of(me: u8, what: What, to: u8) -> Ident
    ensures { result ≡ transfers.ident_of me what to }
{
    let transfer_type = what.transfer_type();
    Ident {
        priority: 30,
        kind: transfer_type.kind,
        number: transfer_type.data_type.number,
        source: me,
        dest: to,
        discriminator: 0,
    }
}
