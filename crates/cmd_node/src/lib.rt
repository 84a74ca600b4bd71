//! Allocators of a cluster that run over links, disks and a clock of the outside.
//!
//! [`node`] opens some allocators of a cluster, gives each so many turns, and stops them. A turn
//! (`specs/Turn.antt`) is a step at the clock, the next item of the allocator's link, and the next frame
//! of its queue. What all of them do together is a definition over the servers in time of
//! `alloc_spec`: `specs/Opening.antt` says what they begin as, `specs/Turns.antt` how their turns come
//! one after the other, `specs/Report.antt` what is written, `specs/WholeRun.antt` what a run to its end
//! leaves on links and disks, and `specs/CutRun.antt` what one leaves that was cut off.
#![tactic(auto)]

mod fault;
mod frames;
mod run;
mod runner;
mod runners;
mod step;
mod steps;
mod turns;
mod words;

pub use run::node;
