ghost use Rattle.std.specs.Prelude.{◌≡◌, ◌≤◌, IfOk, IfErr, length};
ghost use Rattle.can_frame.specs.Log.{log_limit};
ghost use Rattle.raft_log.specs.Rules.{IsDamagedAt};
ghost use Rattle.raft_log.specs.Stored.{told_origins};

use crate::origin::LEADER;
use crate::state::State;
use arrayvec::ArrayVec;
use can_frame::Entry;
use can_frame::sizes::LOG_LIMIT;
use disk_model::IMAGE;
use kv_store::Table;

/// The stored state of an image that is read and not opened, so nothing is written.
#[derive(Default, Drop)]
pub struct Stored {
    pub term: u32,

    /// The node that it voted for in this term, 0 for none.
    pub vote: u8,

    /// How many of the entries are committed.
    pub commit: u8,
    pub entries: ArrayVec<Entry, LOG_LIMIT>,

    /// How each entry came into the log: a number of [`crate::origin`]. One that was stored before origins
    /// were is 0.
    pub origins: ArrayVec<u8, LOG_LIMIT>,
}

impl Stored {
    ghost use Rattle.raft_log.specs.Reading.{IsReadFrom, IsReadable};

    /// The state that an image stands for, as an opening finds it. The error is the first key that is
    /// damaged.
    ///
    /// A key is damaged also where its value breaks a rule of the stored state.
    pub fn read(image: &[u8; IMAGE]) -> Result<Stored, u8>
        ensures state { IfOk result (λ stored. IsReadFrom image.now stored) }
        ensures damaged { IfErr result (λ key. IsDamagedAt image.now key) }

        // Of what is read the log is injective, and the commit index is a place of it or 0.
        ensures readable { IfOk result (λ stored. IsReadable stored) }
    {
        let table = Table::read(image)?;
        match State::read(&table) {
            Ok(state) => Ok(Stored {
                term: state.term,
                vote: state.vote,
                commit: state.commit,
                origins: told(&state.origins),
                entries: state.log,
            }),
            Err(key) => Err(key),
        }
    }
}

/// Origins as numbers.
fn told(origins: &[Option<u8>]) -> ArrayVec<u8, LOG_LIMIT>
    requires { length origins.now ≤ log_limit }
    ensures { result.items ≡ told_origins origins.now }
{
    let mut told = ArrayVec::new();
    for origin in origins {
        told.push(origin.unwrap_or(LEADER));
    }
    told
}
