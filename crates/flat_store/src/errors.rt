ghost use Rattle.std.specs.Prelude.{◌≡◌};

use std::alloc::AllocError;

/// Why the map of a block is not given.
#[derive(Clone, Copy, Debug, PartialEq, Eq)]
pub enum PairsError {
    /// The id is not live.
    NotLive,
    /// There was no memory.
    NoMemory,
}

impl From<AllocError> for PairsError {
    ghost use Rattle.flat_store.specs.declared.errors.PairsError.{PairsError};

    ghost from_gives = { λ _ given. given ≡ PairsError.NoMemory };

    fn from(_error: AllocError) -> PairsError {
        PairsError::NoMemory
    }
}

/// Why a map with changes laid over is not given.
#[derive(Clone, Copy, Debug, PartialEq, Eq)]
pub enum PairsOverError {
    /// The id is not live.
    NotLive,
    /// The map has more pairs than it may have.
    Full,
    /// There was no memory.
    NoMemory,
}

impl From<AllocError> for PairsOverError {
    ghost use Rattle.flat_store.specs.declared.errors.PairsOverError.{PairsOverError};

    ghost from_gives = { λ _ given. given ≡ PairsOverError.NoMemory };

    fn from(_error: AllocError) -> PairsOverError {
        PairsOverError::NoMemory
    }
}
