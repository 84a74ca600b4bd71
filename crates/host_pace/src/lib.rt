//! The clock and the links of a process that runs allocators in a vehicle.
//!
//! [`PacedClock`] is a clock over another one, and sleeps while nothing comes. [`TimelyLink`] is a link over
//! another one that lets no old frame pass. Both tell no contents. Their clauses say what they make of the
//! contents of the link and the clock below them (`specs/Timely.antt`, `specs/Paced.antt`): what is handed on,
//! that a frame goes out once and where the time allows, and that readings are those of the clock below. How
//! long the clock sleeps is only tested.
#![tactic(auto)]

mod paced;
mod timely;

pub use paced::PacedClock;
pub use timely::TimelyLink;
