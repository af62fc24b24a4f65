//! The tree of live blocks: which blocks are live, on which each stands, and what a move of the
//! head passes and drops.
#![tactic(auto)]

mod block;
mod commits;
mod errors;
mod forks;
mod ids;
mod links;
mod nearest;
mod plans;

pub use errors::{ForkError, MoveError, NotLive};
pub use forks::Forks;
pub use ids::{Ids, Move};

#[cfg(test)]
mod tests;
