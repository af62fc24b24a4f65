//! What a reading of a trie visits over any set of texts, and how it ends.
#![tactic(auto)]

pub mod laws;
