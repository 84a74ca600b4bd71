//! One allocator that is driven by calls with numbers, as a C program makes them.
//!
//! Each call is total: whatever the numbers are, it returns, and what they do not fit changes nothing.
//! A [`Node`] has all its memory in itself, and takes none. Between two calls no closure is kept in it, so
//! it can lie in memory that the caller gave.
#![tactic(auto)]

mod calling;
pub mod laws;
mod node;

pub use calling::call;
pub use node::Node;
