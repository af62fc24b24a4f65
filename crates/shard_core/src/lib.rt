//! The state of one shard: the tries of all live blocks in one store of nodes, and flat storage over
//! the tree of blocks.
#![tactic(auto)]

mod accepting;
mod adding;
mod block;
mod errors;
mod ledger;
mod occurrences;
mod releasing;
mod shard;
mod texts;
mod tries;

pub use block::{Applied, Block, HeadMoved, Stats};
pub use errors::{ApplyError, FlatError, HeadError, ShardPairsError, Stopped, TrieError};
pub use shard::Shard;

#[cfg(test)]
mod history;
#[cfg(test)]
mod history_tests;
#[cfg(test)]
mod shard_tests;
