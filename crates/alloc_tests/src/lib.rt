//! Worked cases of one allocator over a disk in memory, and of one device that asks for a node ID: each takes a table of
//! events, and says of each what a report would. Beside them what an allocator knows of the nodes on its bus.
//!
//! A schedule of a whole cluster has a folder under `examples/` instead. Here stand the cases that begin with a
//! stored log, those in which one call is looked at alone, and those that no cluster comes to by itself.
#![tactic(auto)]

#[cfg(test)]
mod bus;
#[cfg(test)]
mod calls;
#[cfg(test)]
mod device_calls;
#[cfg(test)]
mod device_rules;
#[cfg(test)]
mod device_table;
#[cfg(test)]
mod faults;
#[cfg(test)]
mod full_log;
#[cfg(test)]
mod image;
#[cfg(test)]
mod nodes;
#[cfg(test)]
mod peers;
#[cfg(test)]
mod reserved;
#[cfg(test)]
mod same;
#[cfg(test)]
mod server_table;
