ghost use Rattle.std.specs.Prelude.{◌≡◌};

use dsdl_codec::Allocation;

/// A stage of the exchange. Each has one request.
#[derive(Clone, Copy, Debug, PartialEq, Eq)]
pub enum Stage {
    First,
    Second,
    Third,
}

impl Stage {
    ghost use Rattle.alloc_exchange.specs.Exchange.{stage_of, stage_length, bytes_before};

    /// The stage that a request is of.
    pub fn of(message: &Allocation) -> Stage
        ensures { result ≡ stage_of message.now }
    {
        if message.first_part {
            Stage::First
        } else if message.uid.len() == 6 {
            Stage::Second
        } else {
            Stage::Third
        }
    }

    /// How many bytes of the unique ID its request brings.
    pub fn length(self) -> usize
        ensures { result ≡ stage_length self }
    {
        match self {
            Stage::First | Stage::Second => 6,
            Stage::Third => 4,
        }
    }

    /// How many bytes were collected before it.
    pub fn bytes_before(self) -> usize
        ensures { result ≡ bytes_before self }
    {
        match self {
            Stage::First => 0,
            Stage::Second => 6,
            Stage::Third => 12,
        }
    }
}
