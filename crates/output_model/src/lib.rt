//! What the program writes, and how it ends.
#![tactic(auto)]

pub mod examples;
pub mod laws;
