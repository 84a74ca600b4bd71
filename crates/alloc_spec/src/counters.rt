ghost use Rattle.std.specs.Prelude.{◌≡◌, ◌<◌};
ghost use Rattle.can_frame.specs.Sizes.{node_ids};
ghost use Rattle.alloc_spec.specs.Transfers.{first_ids, id_of, ids_after};

use can_frame::What;
use can_frame::sizes::NODE_IDS;
use std::marker::Model;

/// The transfer IDs that come next: one for each message type, and one for each service and
/// destination.
#[derive(Drop)]
pub(crate) struct Counters {
    alloc: u8,
    disc: u8,
    stat: u8,

    /// By destination, as the next two.
    info: [u8; NODE_IDS],

    vote: [u8; NODE_IDS],
    append: [u8; NODE_IDS],
}

impl Model for Counters {
    ghost use Rattle.std.specs.Prelude.{ℕ, ◌≡◌, ◌<◌, slice_index};
    ghost use Rattle.alloc_spec.specs.Transfers.{Ids};

    ghost Value = { Ids };

    ghost view = { λ c. record {
      alloc = c.alloc;
      disc = c.disc;
      stat = c.stat;
      info = c.info;
      vote
          = c.vote;
      append = c.append;
    } };

    ghost invariant = { λ c. (c.alloc < 32) × (c.disc < 32) × (c.stat < 32) × ((node : ℕ) →
        slice_index c.info node < 32) × ((node : ℕ) → slice_index c.vote node < 32) × ((node : ℕ) →
        slice_index c.append node < 32) };
}

impl Counters {
    pub fn new() -> Counters
        ensures { result ≡ first_ids }
    {
        Counters {
            alloc: 0,
            disc: 0,
            stat: 0,
            info: [0; NODE_IDS],
            vote: [0; NODE_IDS],
            append: [0; NODE_IDS],
        }
    }

    /// The transfer ID of the next message, or of the next request to a node.
    pub fn next(&self, what: What, to: u8) -> u8
        requires { to < node_ids }
        ensures id { result ≡ id_of self.now what to }
        ensures range { result < 32 }
    {
        match what {
            What::Alloc => self.alloc,
            What::Disc => self.disc,
            What::Stat => self.stat,
            What::InfoQ | What::Info => self.info[to as usize],
            What::VoteQ | What::Vote => self.vote[to as usize],
            What::AppQ | What::App => self.append[to as usize],
        }
    }

    /// The transfer with the next transfer ID was queued.
    pub fn advance(&mut self, what: What, to: u8)
        requires { to < node_ids }
        ensures { self.new ≡ ids_after what to self.old }
    {
        let id = (self.next(what, to) + 1) % 32;
        match what {
            What::Alloc => self.alloc = id,
            What::Disc => self.disc = id,
            What::Stat => self.stat = id,
            What::InfoQ | What::Info => self.info[to as usize] = id,
            What::VoteQ | What::Vote => self.vote[to as usize] = id,
            What::AppQ | What::App => self.append[to as usize] = id,
        }
    }
}
