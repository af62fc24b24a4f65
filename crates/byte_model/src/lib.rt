//! The bytes of the store's records.
#![tactic(auto)]

pub mod laws;
