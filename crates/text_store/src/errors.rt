ghost use Rattle.std.specs.Prelude.{◌≡◌};
ghost use Rattle.text_store.specs.declared.errors.PartialError.TheVariants.{Frame, NoMemory};

use base_core::{BorshError, Digest};
use std::alloc::AllocError;

/// Why a store took no room for further texts.
#[derive(Debug, Drop)]
pub enum ReserveError {
    /// The store failed.
    Fault,
    /// There was no memory.
    NoMemory,
}

/// Why a text was not added.
#[derive(Debug, Drop)]
pub enum AddError {
    /// Another text is held under the digest, or the digest is the zero one.
    Clash { digest: Digest },
    /// The store failed.
    Fault,
}

/// Why bytes were not taken as a partial state. `NoMemory` alone says nothing of the bytes.
#[derive(Clone, Copy, Debug, PartialEq, Eq)]
pub enum PartialError {
    /// They don't have its layout.
    Frame(BorshError),
    /// The text at this place, counted from 0, is the first that is not above the one before it.
    Order { place: u64 },
    /// Two texts share this digest, or it is the zero one and a text has it. It is the least such.
    Clash { digest: Digest },
    /// There was no memory.
    NoMemory,
}

impl From<BorshError> for PartialError {
    ghost from_gives = { λ error given. given ≡ Frame error };

    fn from(error: BorshError) -> PartialError {
        PartialError::Frame(error)
    }
}

impl From<AllocError> for PartialError {
    ghost from_gives = { λ _ given. given ≡ NoMemory };

    fn from(_error: AllocError) -> PartialError {
        PartialError::NoMemory
    }
}
