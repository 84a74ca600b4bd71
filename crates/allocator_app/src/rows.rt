ghost use Rattle.std.specs.Prelude.{◌≡◌, ◌↔◌, IsTrue};

use bus_world::Unlawful;

/// What came of rows.
#[derive(Clone, Copy, Debug, PartialEq, Eq)]
pub(crate) enum Rows {
    /// All of them were taken.
    Taken,

    /// They were taken up to bytes that are none.
    NoRow,

    /// They were taken up to one that is refused.
    Refused(Unlawful),

    /// As many were taken as may come, and more bytes come.
    Full,
}

impl Rows {
    /// Whether all of them were taken.
    pub fn are_taken(&self) -> bool
        ensures { IsTrue result ↔ (self.now ≡ Rows.Taken) }
    {
        matches!(self, Rows::Taken)
    }
}

/// Which object of the outside failed.
#[derive(Clone, Copy, Debug, PartialEq, Eq)]
pub(crate) enum Fault {
    Source,
    Sink,
}
