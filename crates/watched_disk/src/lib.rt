//! A disk that looks for its file before each sync.
//!
//! A member keeps its store in a file that it opened once. Somebody may move that file, or put another one at its
//! path, which a second process then opens: two processes of one member, each with a store. [`WatchedDisk`] looks before
//! each sync whether the file is still there, and where it is not, no call succeeds from then on
//! (`specs/Watched.antt`). [`FileAtPath`] looks by the numbers that the system has for a file. It also refuses a file
//! that others than its user may write (`specs/Place.antt`).
//!
//! What the system tells of a file is not said by any contract. Nor is the kind of its file system, which std does not
//! tell.
#![tactic(auto)]

mod disk;
mod open;
mod place;
mod watch;

pub use disk::WatchedDisk;
pub use open::open_watched;
pub use place::FileAtPath;
pub use watch::Watch;
