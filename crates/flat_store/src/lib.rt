//! The map of the head, and the changes of each other live block. The map of a block is that of
//! the head with the changes of the blocks on the way laid over.
#![tactic(auto)]

mod errors;
mod flat;
mod laws;
mod lists;
mod maps;
mod moves;

pub use errors::{PairsError, PairsOverError};
pub use flat::Flat;
pub use laws::what_is_kept_follows_its_blocks;

#[cfg(test)]
mod tests;
