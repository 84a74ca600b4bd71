ghost use Rattle.std.specs.Prelude.{◌≡◌, ◌≤◌, ◌<◌, ◌%◌, ◌^◌};
ghost use Rattle.cmd_io.specs.Draws.{next_state, word_at};

use std::marker::Model;

/// A generator of numbers: the same seed gives the same numbers again. It is seen as the number where it
/// stands.
#[derive(Drop)]
pub struct Draws {
    state: u64,
}

impl Model for Draws {
    ghost use Rattle.std.specs.Prelude.{ℕ, ◌<◌, ◌^◌};

    ghost Value = { ℕ };

    ghost view = { λ draws. draws.state };

    ghost invariant = { λ draws. draws.state < 2 ^ 64 };
}

impl Draws {
    /// The numbers of this seed.
    pub fn new(seed: u64) -> Draws
        ensures { result ≡ seed }
    {
        Draws { state: seed }
    }

    /// The next number, below 2^31.
    pub fn word(&mut self) -> u32
        ensures moved { self.new ≡ next_state self.old }
        ensures word { result ≡ word_at self.new }
    {
        self.state = self
            .state
            .wrapping_mul(6_364_136_223_846_793_005)
            .wrapping_add(1_442_695_040_888_963_407);
        (self.state >> 33) as u32
    }

    /// The next number, made one below `bound`: what is left of it by division.
    pub fn below(&mut self, bound: u32) -> u32
        requires { 1 ≤ bound }
        ensures moved { self.new ≡ next_state self.old }
        ensures drawn { result ≡ word_at self.new % bound }
        ensures below { result < bound }
    {
        self.word() % bound
    }
}
