//! A disk behind a descriptor that the caller opened.
//!
//! [`FdDisk`] reads and writes by POSIX's `pread`, `pwrite` and `fdatasync`. On a machine with an operating
//! system these are the C library's. Firmware without one defines the three over its flash or FRAM, and
//! picks the number that stands for it. As a disk in a file it tells no contents. A call is done where its answer says
//! that all of it is (`specs/Calls.antt`).
#![tactic(auto)]

mod calls;
mod disk;

pub use disk::FdDisk;
