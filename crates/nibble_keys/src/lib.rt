//! Keys as paths of nibbles, and the packed form that a path has in a record.
#![tactic(auto)]

mod flags;
pub mod laws;
mod nibbles;
mod pack_error;
mod packing;
mod unpacking;

pub use nibbles::{LONGEST_PATH, Nibbles};
pub use pack_error::PackError;
pub use packing::{join_nibbles, pack, packed_len, put_packed};
pub use unpacking::Packed;

#[cfg(test)]
mod tests;
