ghost use Rattle.std.specs.Prelude.{◌≡◌, ◌≤◌, false};
ghost use Rattle.outside.specs.Faults.{Rose};

/// Which device calls fail, and how many did.
#[derive(Clone, Copy)]
pub struct Calls {
    /// The device call that stops the disk, counted from the next one. 0 is none.
    pub stop_in: u64,

    /// The device call that fails alone, counted from the next one. 0 is none.
    pub fail_in: u64,

    /// Whether a device call has stopped the disk.
    pub stopped: bool,

    /// How many device calls failed.
    pub faults: u64,
}

impl Calls {
    ghost use Rattle.disk_model.specs.Calls.{acts, after_call};
    ghost use Rattle.disk_model.specs.Memory.{nothing_set};

    /// None is set to fail.
    pub fn nothing_set(faults: u64) -> Calls
        ensures { result ≡ nothing_set faults }
    {
        Calls {
            stop_in: 0,
            fail_in: 0,
            stopped: false,
            faults,
        }
    }

    /// Counts a device call, and tells whether it acts.
    pub fn count(&mut self) -> bool
        ensures result { result ≡ acts self.old }
        ensures calls { self.new ≡ after_call self.old }
        ensures later { self.old.faults ≤ self.new.faults }
        ensures cause { result ≡ false → Rose self.old.faults self.new.faults }
    {
        let stops = self.stopped || self.stop_in == 1;
        let fails = self.fail_in == 1;
        self.stop_in = self.stop_in.saturating_sub(1);
        self.fail_in = self.fail_in.saturating_sub(1);
        self.stopped = stops;
        if stops || fails {
            self.faults = self.faults.saturating_add(1);
        }
        !(stops || fails)
    }
}
