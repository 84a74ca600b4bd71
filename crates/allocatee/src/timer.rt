ghost use Rattle.std.specs.Prelude.{◌≡◌};

/// A span of time from a moment on, in milliseconds.
#[derive(Clone, Copy, Debug, PartialEq, Eq)]
pub struct Timer {
    pub since: u64,
    pub length: u64,
}

/// A follow-up request that waits.
#[derive(Clone, Copy, Debug, PartialEq, Eq)]
pub struct FollowUp {
    pub timer: Timer,

    /// How many bytes of the unique ID the answer had.
    pub known: usize,
}

impl Timer {
    ghost use Rattle.allocatee.specs.Asking.{has_passed};

    /// Whether it has passed at a moment. None of it has at a moment before its beginning.
    pub fn has_passed(self, now: u64) -> bool
        ensures { result ≡ has_passed now self }
    {
        self.length <= now.saturating_sub(self.since)
    }
}
