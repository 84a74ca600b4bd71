//! A store of 132 keys, each with a value of up to 32 bytes, that survives stops.
//!
//! An image of the disk stands for a map from keys to values (`specs/Image.antt`). Each key has two
//! copies and a selector that chooses one of them. A put writes the other copy, and then turns the
//! selector: a stop at any moment leaves the old map or the new one, and once the put has succeeded the
//! new one alone. After a put that failed a store answers the same fault until it is opened again; whether
//! that put is done, only an opening finds. [`Store::reopen`] opens a store where it stands, [`Store::open`]
//! one of its own.
//!
//! What an image holds can be read without a store, too: one value of it by [`Image::value`], all of them by
//! [`Table::read`].
//!
//! [`Store::put`] and [`Store::open`] say besides which device calls were made. On a disk in memory these
//! can be followed call by call: `specs/KeyDisk.antt` is the disk by keys, and [`laws::the_disk_by_keys`]
//! says that it is just what becomes of such a disk.
#![tactic(auto)]

mod fault;
pub mod laws;
mod load;
mod replace;
mod store;
mod table;
mod value;

pub use fault::{Fault, OpenFault, OpenRefused};
pub use store::Store;
pub use table::Table;
pub use value::{Image, KEYS, VALUE, Value, value_of};
