ghost use Rattle.std.specs.Prelude.{◌≡◌, ◌≤◌};
ghost use Rattle.arrayvec.specs.ArrayVec.{array_vec_len};
ghost use Rattle.kv_store.specs.Image.{value_limit};

use crate::keys::{COMMIT, FIRST_ENTRY, LAST, TERM, VERSION, VOTE};
use crate::origin::LEADER;
use crate::state::State;
use crate::values::{NEWEST, write_entry, write_term};
use can_frame::Entry;
use kv_store::{Value, value_of};

/// A change of the stored state that one put makes.
#[derive(Clone, Copy)]
pub enum Change {
    Term(u32),
    Vote(u8),

    /// The entry after the last, with its origin. It is not read until last counts it.
    Next(Entry, u8),

    /// Last counts the entry after it.
    Longer(Entry, u8),

    /// Last counts the entries up to this place alone.
    Shorter(u8),
    Commit(u8),

    /// The entry at this place, counted from 0, with the origin that it lacks.
    Origin(u8),

    /// The newest version of a store.
    Version,
}

impl Change {
    ghost use Rattle.raft_log.specs.Changes.{FitsBytes, MayMake, put_of};
    ghost use Rattle.raft_log.specs.DeviceCalls.{bytes_of, key_of};
    ghost use Rattle.raft_log.specs.StateViews.{stored_of};

    /// The key that it puts.
    pub fn key(&self, state: &State) -> u8
        requires { MayMake self.now (stored_of state.now) }
        ensures { result ≡ key_of (put_of self.now (stored_of state.now)) (stored_of state.now) }
    {
        match self {
            Change::Term(_) => TERM,
            Change::Vote(_) => VOTE,
            Change::Next(_, _) => FIRST_ENTRY + state.log.len() as u8,
            Change::Longer(_, _) | Change::Shorter(_) => LAST,
            Change::Commit(_) => COMMIT,
            Change::Origin(place) => FIRST_ENTRY + *place,
            Change::Version => VERSION,
        }
    }

    /// The value that it puts there.
    pub fn value(&self, state: &State) -> Value
        requires { MayMake self.now (stored_of state.now) }
        ensures fits { FitsBytes self.now (stored_of state.now) }
        ensures bytes { result.items ≡ bytes_of (put_of self.now (stored_of state.now)) }
        ensures short { array_vec_len result ≤ value_limit }
    {
        match self {
            Change::Term(term) => value_of(&write_term(*term)),
            Change::Next(entry, origin) => value_of(&write_entry(entry, *origin)),
            Change::Origin(place) => {
                let entry = &state.log[*place as usize];
                value_of(&write_entry(entry, LEADER))
            }
            Change::Longer(_, _) => value_of(&[state.log.len() as u8 + 1]),
            Change::Version => value_of(&[NEWEST]),
            Change::Vote(byte) | Change::Shorter(byte) | Change::Commit(byte) => value_of(&[*byte]),
        }
    }
}
