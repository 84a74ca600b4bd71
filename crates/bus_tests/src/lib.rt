//! Worked cases of what goes over the bus and comes from the outside: clocks, streams and links, real ones too; frames,
//! transfers and data types, by published values; rows of a schedule, lines of recorded logs, and descriptions of data
//! types.
#![tactic(auto)]

#[cfg(test)]
mod candump;
#[cfg(test)]
mod clock;
#[cfg(test)]
mod descriptions;
#[cfg(test)]
mod frame;
#[cfg(test)]
mod frames;
#[cfg(test)]
mod link;
#[cfg(test)]
mod paced_clock;
#[cfg(test)]
mod receiver;
#[cfg(test)]
mod same;
#[cfg(test)]
mod schedules;
#[cfg(test)]
mod sender;
#[cfg(test)]
mod sink;
#[cfg(test)]
mod slcan;
#[cfg(test)]
mod source;
#[cfg(test)]
mod timely_link;
#[cfg(test)]
mod types;
