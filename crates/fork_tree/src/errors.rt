ghost use Rattle.std.specs.Prelude.{◌≡◌};
ghost use Rattle.fork_tree.specs.declared.errors.MoveError.TheVariants.{NoMemory};

use std::alloc::AllocError;

/// Why a block is refused. The first of these that holds is named.
#[derive(Clone, Copy, Debug, PartialEq, Eq)]
pub enum ForkError {
    /// Its id is live.
    Known,
    /// Its prev is not live.
    NoPrev,
    /// It is not higher than its prev.
    Height,
    /// As many blocks are live as may be.
    Full,
}

/// Why a move of the head is not planned.
#[derive(Clone, Copy, Debug, PartialEq, Eq)]
pub enum MoveError {
    /// The id is not live.
    NotLive,
    /// There was no memory.
    NoMemory,
}

impl From<AllocError> for MoveError {
    ghost from_gives = { λ _ given. given ≡ NoMemory };

    fn from(_error: AllocError) -> MoveError {
        MoveError::NoMemory
    }
}

/// An id that is not live.
#[derive(Clone, Copy, Debug, PartialEq, Eq)]
pub struct NotLive;
