ghost use Rattle.std.specs.Prelude.{◌≡◌, ◌↔◌, IsTrue};
ghost use Rattle.can_frame.specs.Log.{HasUid, HasNodeId};
ghost use Rattle.can_frame.specs.Zeros.{zeros};

/// The unique ID of a device, 16 bytes.
pub type Uid = [u8; 16];

/// An entry of the replicated log: in a term, a node ID is given to the device with a unique ID
/// (`uavcan.protocol.dynamic_node_id.server.Entry`). With a unique ID of zeros it is given to nobody:
/// node ID 0 makes a blank, by which a new leader commits what it found, and a node ID of 1 to 125 a
/// reservation, which keeps the ID of a node that is there back from the devices that ask.
#[derive(Clone, Copy, Debug, Default, PartialEq, Eq)]
pub struct Entry {
    pub term: u32,
    pub uid: Uid,
    pub node: u8,
}

/// Whether two unique IDs are the same. The last bytes are compared first: where they differ, as those of
/// two devices mostly do, no other byte is read.
pub fn is_same_uid(a: &Uid, b: &Uid) -> bool
    ensures { IsTrue result ↔ (a.now ≡ b.now) }
{
    a[15] == b[15] && a == b
}

/// Whether all its bytes are 0: no device has this unique ID.
pub fn is_zero(uid: &Uid) -> bool
    ensures { IsTrue result ↔ (uid.now ≡ zeros) }
{
    is_same_uid(uid, &[0; 16])
}

/// Whether an entry of a log has this unique ID.
pub fn has_uid(log: &[Entry], uid: &Uid) -> bool
    ensures { IsTrue result ↔ HasUid log.now uid.now }
{
    log.iter().any(|entry| is_same_uid(&entry.uid, uid))
}

/// Whether an entry of a log has this node ID: a device was given it, or it is kept back.
pub fn has_node_id(log: &[Entry], node: u8) -> bool
    ensures { IsTrue result ↔ HasNodeId log.now node }
{
    log.iter().any(|entry| entry.node == node)
}

impl Entry {
    ghost use Rattle.can_frame.specs.Log.{IsBlank, IsReservation, IsPair, IsWellFormed, AreDistinct};

    pub fn is_blank(&self) -> bool
        ensures { IsTrue result ↔ IsBlank self.now }
    {
        self.node == 0 && is_zero(&self.uid)
    }

    /// Whether it keeps a node ID of 1 to 125 back, so that no device is given it.
    pub fn is_reservation(&self) -> bool
        ensures { IsTrue result ↔ IsReservation self.now }
    {
        1 <= self.node && self.node <= 125 && is_zero(&self.uid)
    }

    /// Whether it gives a node ID of 1 to 125 to a unique ID that is not all zeros.
    pub fn is_pair(&self) -> bool
        ensures { IsTrue result ↔ IsPair self.now }
    {
        1 <= self.node && self.node <= 125 && !is_zero(&self.uid)
    }

    /// Whether it is a blank, a reservation or a pair.
    pub fn is_well_formed(&self) -> bool
        ensures { IsTrue result ↔ IsWellFormed self.now }
    {
        self.is_blank() || self.is_reservation() || self.is_pair()
    }

    /// Whether the two may stand in one log: blanks may, and others differ in node ID, and in unique
    /// ID unless both are zeros.
    pub fn is_distinct_from(&self, other: &Entry) -> bool
        ensures { IsTrue result ↔ AreDistinct self.now other.now }
    {
        self.is_blank()
            || other.is_blank()
            || self.node != other.node
                && (!is_same_uid(&self.uid, &other.uid) || is_zero(&self.uid))
    }
}
