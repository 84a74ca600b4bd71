ghost use Rattle.std.specs.Prelude.{◌≤◌};

/// How many bits a number has.
#[derive(Clone, Copy, Debug, PartialEq, Eq)]
pub struct Width {
    pub bits: u8,
    ghost fits: { bits ≤ 64 },
}
