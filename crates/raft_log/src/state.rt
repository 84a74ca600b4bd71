ghost use Rattle.std.specs.Prelude.{◌≡◌, ◌≤◌, ◌<◌, ◌^◌, IfOk, IfErr, IfSome, IsNone, length};
ghost use Rattle.arrayvec.specs.ArrayVec.{array_vec_len};
ghost use Rattle.can_frame.specs.Log.{log_limit};
ghost use Rattle.kv_store.specs.TableViews.{table_map};
ghost use Rattle.raft_log.specs.MayFollow.{MayFollow};
ghost use Rattle.raft_log.specs.Rules.{IsEntryValue, IsFirstBroken, Stores, entry_of};

use crate::change::Change;
use crate::keys::{COMMIT, FIRST_ENTRY, LAST, TERM, VERSION, VOTE};
use crate::may_follow;
use crate::origin::LEADER;
use crate::values::{
    NEWEST, is_entry, read_byte, read_entry, read_origin, read_term, read_version,
};
use arrayvec::ArrayVec;
use can_frame::Entry;
use can_frame::sizes::LOG_LIMIT;
use kv_store::Table;

/// A stored state in memory. A vote of 0 is none.
#[derive(Drop)]
pub struct State {
    pub term: u32,
    pub vote: u8,
    pub log: ArrayVec<Entry, LOG_LIMIT>,
    pub commit: u8,

    /// Of each entry; none where it is stored in the first form, which has no place for it.
    pub origins: ArrayVec<Option<u8>, LOG_LIMIT>,

    /// Of the store, 0 where none is stored.
    pub version: u8,
    pub ghost narrow: { term < 2 ^ 32 },
    pub ghost short: { array_vec_len log ≤ log_limit },
    pub ghost even: { array_vec_len origins ≡ array_vec_len log },
}

impl State {
    ghost use Rattle.raft_log.specs.Changes.{MayMake, put_of};
    ghost use Rattle.raft_log.specs.StateViews.{stored_of};
    ghost use Rattle.raft_log.specs.Stored.{after_put, first_state};

    /// The state that a run begins with.
    pub fn first() -> State
        ensures { stored_of result ≡ first_state }
    {
        State {
            term: 0,
            vote: 0,
            log: ArrayVec::new(),
            commit: 0,
            origins: ArrayVec::new(),
            version: 0,
        }
    }

    /// The state that the values of a store are. The error is the first key whose rule does not hold.
    pub fn read(table: &Table) -> Result<State, u8>
        ensures state { IfOk result (λ state. Stores (table_map table.now) (stored_of state)) }
        ensures broken { IfErr result (λ key. IsFirstBroken (table_map table.now) key) }
    {
        let Some(version) = read_version(table.get(VERSION)) else {
            return Err(VERSION);
        };
        let Some(term) = read_term(table.get(TERM)) else {
            return Err(TERM);
        };
        let Some(vote) = read_byte(table.get(VOTE), 125) else {
            return Err(VOTE);
        };
        let Some(last) = read_byte(table.get(LAST), LOG_LIMIT as u8) else {
            return Err(LAST);
        };
        let Some(commit) = read_byte(table.get(COMMIT), last) else {
            return Err(COMMIT);
        };
        let mut log = ArrayVec::new();
        let mut origins = ArrayVec::new();
        for place in 0..last {
            let value = table.get(FIRST_ENTRY + place);
            let Some(entry) = read_next(&log, term, value, version) else {
                return Err(FIRST_ENTRY + place);
            };
            log.push(entry);
            origins.push(read_origin(value));
        }
        Ok(State {
            term,
            vote,
            log,
            commit,
            origins,
            version,
        })
    }

    /// The state after a change.
    pub fn make(&mut self, change: Change)
        requires { MayMake change (stored_of self.old) }
        ensures { stored_of self.new ≡ after_put (put_of change (stored_of self.old))
            (stored_of self.old) }
    {
        match change {
            Change::Term(term) => self.term = term,
            Change::Vote(node) => self.vote = node,
            // Nothing reads it yet.
            Change::Next(_, _) => {}
            Change::Longer(entry, origin) => {
                self.log.push(entry);
                self.origins.push(Some(origin));
            }
            Change::Shorter(place) => {
                self.log.truncate(place as usize);
                self.origins.truncate(place as usize);
            }
            Change::Commit(place) => self.commit = place,
            Change::Origin(place) => self.origins[place as usize] = Some(LEADER),
            Change::Version => self.version = NEWEST,
        }
    }
}

/// The entry that these bytes stand for, where they have its form and it may follow the log.
fn read_next(log: &[Entry], term: u32, value: &[u8], version: u8) -> Option<Entry>
    ensures found { IfSome result (λ entry. (entry ≡ entry_of value.now) ×
        IsEntryValue version value.now × MayFollow log.now term entry) }
    ensures none { IsNone result → IsEntryValue version value.now →
        MayFollow log.now term (entry_of value.now) → ⊥ }
{
    if !is_entry(value, version) {
        return None;
    }
    let entry = read_entry(value);
    if !may_follow(log, term, &entry) {
        return None;
    }
    Some(entry)
}
