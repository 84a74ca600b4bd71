//! Worked cases of what is stored, and of the Raft rules that store it: disks in files and in memory, the store of 132
//! keys by its device calls, the term, vote, log and commit index of a member over a disk that stops or fails at each
//! call, and the calls of the Raft handlers one by one.
#![tactic(auto)]

#[cfg(test)]
mod appending;
#[cfg(test)]
mod durable;
#[cfg(test)]
mod elections;
#[cfg(test)]
mod file;
#[cfg(test)]
mod leading;
#[cfg(test)]
mod member;
#[cfg(test)]
mod memory;
#[cfg(test)]
mod same;
#[cfg(test)]
mod store;
