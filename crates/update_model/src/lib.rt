//! What a batch of changes makes of a trie as far as it can be seen: the new top, the texts that are made and those that are taken out. Laws say that over a state's texts this is what the definitions of batches say of the states before and after.
#![tactic(auto)]

pub mod examples;
pub mod laws;
