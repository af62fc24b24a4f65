//! Recordings of a state, and what is visited over any set of texts where one is replayed.
#![tactic(auto)]

pub mod laws;
