//! A batch of changes, and the state with it laid over.
#![tactic(auto)]

pub mod laws;
