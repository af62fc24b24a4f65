//! Texts by digest: stores that answer the text of a digest, and stores that count how often each
//! text is wanted and forget it with its last use. Also sets of texts, and partial states: texts
//! that came from a stranger, with a mark on those that were loaded.
#![tactic(auto)]

mod errors;
mod held;
mod keyed;
mod marked;
mod mem_nodes;
mod nodes;
mod partial_reading;
mod partial_texts;
mod text_set;
mod texts;

pub use errors::{AddError, PartialError, ReserveError};
pub use mem_nodes::MemNodes;
pub use nodes::Nodes;
pub use partial_texts::PartialTexts;
pub use text_set::{TextSet, write_partial};
pub use texts::Texts;

#[cfg(test)]
mod partial_tests;
#[cfg(test)]
mod tests;
