//! Live blocks over forks, and what a block and a move of the head make of them.
#![tactic(auto)]

pub mod examples;
pub mod laws;
