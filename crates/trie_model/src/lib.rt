//! The state of a shard and its canonical trie.
#![tactic(auto)]

pub mod examples;
pub mod laws;
