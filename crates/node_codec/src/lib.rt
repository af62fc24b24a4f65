//! The nodes of a trie, and the records that they are stored as.
#![tactic(auto)]

mod kids;
mod kids_view;
pub mod laws;
mod layout;
mod node;
mod node_error;
mod node_view;
mod ordinals;
mod reading;
mod value_ref;
mod writing;

pub use kids::Kids;
pub use kids_view::KidsView;
pub use node::Node;
pub use node_error::NodeError;
pub use node_view::NodeView;
pub use reading::read_node;
pub use value_ref::ValueRef;
pub use writing::{write_branch, write_extension, write_leaf, write_node};

#[cfg(test)]
mod reading_tests;
#[cfg(test)]
mod tests;
