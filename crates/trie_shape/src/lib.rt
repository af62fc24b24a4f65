//! How the one trie of some pairs is put together: its parts and how they join, their records,
//! digests and usages, the root of a whole state, and where a node fits.
#![tactic(auto)]

mod building;
mod close_error;
mod closed;
mod closing;
mod costs;
mod fitting;
pub mod laws;
mod rows;
mod sub;

pub use building::{Built, build};
pub use close_error::CloseError;
pub use closed::Closed;
pub use closing::close_branch;
pub use costs::own_cost;
pub use fitting::{fits, fitting_node};
pub use rows::value_ref;
pub use sub::Sub;

#[cfg(test)]
mod tests;
