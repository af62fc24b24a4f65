ghost use Rattle.std.specs.Prelude.{◌≡◌};
ghost use Rattle.partial_state.specs.declared.proof_error.ProofError.TheVariants.{Frame, NoMemory};
ghost use Rattle.partial_state.specs.Recordings.{passed};

use base_core::{BorshError, Digest};
use std::alloc::AllocError;
use text_store::PartialError;

/// Why bytes were not taken as a recording. `NoMemory` alone says nothing of the bytes.
#[derive(Clone, Copy, Debug, PartialEq, Eq)]
pub enum ProofError {
    /// They don't have its layout.
    Frame(BorshError),
    /// At this byte begins a count, a key or a value that is beyond its limit, or a changed key that
    /// is not above the one before it.
    Head { at: u64 },
    /// The text at this place, counted from 0, is the first that is not above the one before it.
    Order { place: u64 },
    /// Two texts share this digest, or it is the zero one and a text has it. It is the least such.
    Clash { digest: Digest },
    /// There was no memory.
    NoMemory,
}

impl From<BorshError> for ProofError {
    ghost from_gives = { λ error given. given ≡ Frame error };

    fn from(error: BorshError) -> ProofError {
        ProofError::Frame(error)
    }
}

impl From<PartialError> for ProofError {
    ghost from_gives = { λ error given. given ≡ passed error };

    fn from(error: PartialError) -> ProofError {
        match error {
            PartialError::Frame(error) => ProofError::Frame(error),
            PartialError::Order { place } => ProofError::Order { place },
            PartialError::Clash { digest } => ProofError::Clash { digest },
            PartialError::NoMemory => ProofError::NoMemory,
        }
    }
}

impl From<AllocError> for ProofError {
    ghost from_gives = { λ _ given. given ≡ NoMemory };

    fn from(_error: AllocError) -> ProofError {
        ProofError::NoMemory
    }
}
