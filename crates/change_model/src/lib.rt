//! Batches of changes: the state after them, the places that they touch and write, what they make, gain and lose, and what they visit over any set of texts.
#![tactic(auto)]

pub mod examples;
pub mod laws;
