//! A disk, seen by what a stop may leave of it.
//!
//! Reads give some bytes. The last sync that succeeded made some bytes stable, and some were written
//! since (`specs/Contents.antt`). A stop leaves an image that agrees with the stable one wherever
//! nothing was written; what was written since may be anything, also where the write failed. After a
//! sync that succeeds a stop leaves what reads give.
//!
//! A stop in place of a device call shows as the failure of that call and of all later ones. So what a
//! stop at any moment of a call may leave is said of the images at each exit of it, for every disk and
//! whichever device calls fail.
//!
//! [`Disk`] says besides which device calls were made (`Makes` in `specs/Device.antt`), and the disk in
//! memory, [`MemoryDisk`], exactly what each makes of it (`specs/Memory.antt`). So code that is generic
//! over disks can be followed call by call on a disk in memory. [`FileDisk`] is a disk in a file, which
//! tells nothing.
#![tactic(auto)]

mod calls;
mod disk;
mod file;
pub mod laws;
mod memory;
mod ranges;

pub use disk::{Disk, IMAGE};
pub use file::FileDisk;
pub use memory::MemoryDisk;
