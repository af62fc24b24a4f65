ghost use Rattle.std.specs.Prelude.{◌≡◌};
ghost use Rattle.shard_core.specs.Errors.{by_add, by_fork, by_move, by_reserve, no_memory, no_memory_for_move};

use base_core::Digest;
use fork_tree::{ForkError, MoveError};
use std::alloc::AllocError;
use text_store::{AddError, ReserveError};

/// Why a block is not applied. The first of these that holds is named.
#[derive(Clone, Copy, Debug, PartialEq, Eq)]
pub enum ApplyError {
    /// An earlier call was cut short by the store or by a clash.
    Stopped,
    /// Its id is live.
    Known,
    /// Its prev is not live.
    NoPrev,
    /// It is not higher than its prev.
    Height,
    /// As many blocks are live as may be.
    FullBlocks,
    /// Its state has more pairs than it may have.
    FullPairs,
    /// A text that it makes shares its digest with a different one, or has the zero digest. It is
    /// the least such digest.
    Clash { digest: Digest },
    /// The store failed.
    StoreFault,
    /// There was no memory.
    NoMemory,
}

impl From<AllocError> for ApplyError {
    ghost from_gives = { λ _ given. given ≡ no_memory };

    fn from(_error: AllocError) -> ApplyError {
        ApplyError::NoMemory
    }
}

impl From<ReserveError> for ApplyError {
    ghost from_gives = { λ error given. given ≡ by_reserve error };

    fn from(error: ReserveError) -> ApplyError {
        match error {
            ReserveError::Fault => ApplyError::StoreFault,
            ReserveError::NoMemory => ApplyError::NoMemory,
        }
    }
}

impl From<AddError> for ApplyError {
    ghost from_gives = { λ error given. given ≡ by_add error };

    fn from(error: AddError) -> ApplyError {
        match error {
            AddError::Clash { digest } => ApplyError::Clash { digest },
            AddError::Fault => ApplyError::StoreFault,
        }
    }
}

/// Why the head is not moved.
#[derive(Clone, Copy, Debug, PartialEq, Eq)]
pub enum HeadError {
    /// An earlier call was cut short by the store or by a clash.
    Stopped,
    /// The id is not live.
    NotLive,
    /// The store failed.
    StoreFault,
    /// There was no memory.
    NoMemory,
}

/// Why a live block is not read from flat storage.
#[derive(Clone, Copy, Debug, PartialEq, Eq)]
pub enum FlatError {
    /// An earlier call was cut short by the store or by a clash.
    Stopped,
    /// The id is not live.
    NotLive,
}

/// Why a live block is not read from its trie.
#[derive(Clone, Copy, Debug, PartialEq, Eq)]
pub enum TrieError {
    /// An earlier call was cut short by the store or by a clash.
    Stopped,
    /// The id is not live.
    NotLive,
    /// The store failed.
    StoreFault,
}

/// Why the map of a live block is not given.
#[derive(Clone, Copy, Debug, PartialEq, Eq)]
pub enum ShardPairsError {
    /// An earlier call was cut short by the store or by a clash.
    Stopped,
    /// The id is not live.
    NotLive,
    /// There was no memory.
    NoMemory,
}

/// An earlier call was cut short by the store or by a clash.
#[derive(Clone, Copy, Debug, PartialEq, Eq)]
pub struct Stopped;

impl From<ForkError> for ApplyError {
    ghost from_gives = { λ error given. given ≡ by_fork error };

    fn from(error: ForkError) -> ApplyError {
        match error {
            ForkError::Known => ApplyError::Known,
            ForkError::NoPrev => ApplyError::NoPrev,
            ForkError::Height => ApplyError::Height,
            ForkError::Full => ApplyError::FullBlocks,
        }
    }
}

impl From<MoveError> for HeadError {
    ghost from_gives = { λ error given. given ≡ by_move error };

    fn from(error: MoveError) -> HeadError {
        match error {
            MoveError::NotLive => HeadError::NotLive,
            MoveError::NoMemory => HeadError::NoMemory,
        }
    }
}

impl From<AllocError> for HeadError {
    ghost from_gives = { λ _ given. given ≡ no_memory_for_move };

    fn from(_error: AllocError) -> HeadError {
        HeadError::NoMemory
    }
}
