//! Reading a trie by its root from any store of texts: the value of a key, the pairs from a key on,
//! the usage of a root.
#![tactic(auto)]

mod errors;
mod following;
mod listing;
mod loading;
mod lookup;
mod usage;
mod walk;

pub use errors::{ListError, ReadError};
pub use listing::list;
pub use lookup::get;
pub use usage::usage_of;

#[cfg(test)]
mod list_tests;
#[cfg(test)]
mod tests;
