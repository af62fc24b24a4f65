ghost use Rattle.std.specs.Prelude.{◌≡◌};
ghost use Rattle.partial_state.specs.declared.prove_error.ProveError.TheVariants.{NoMemory};
ghost use Rattle.partial_state.specs.Replays.{of_read, of_update};

use base_core::{Digest, Text};
use std::alloc::AllocError;
use trie_read::ReadError;
use trie_update::UpdateError;

/// Why reads and a batch were not carried out.
#[derive(Debug, Drop)]
pub enum ProveError {
    /// No text is held under a digest that has to be visited.
    Missing {
        digest: Digest,
    },
    /// The text under a digest is no node that fits where it stands, or no value of the length that
    /// the node says.
    Bad {
        digest: Digest,
    },
    /// A record states more than 2^62, or less than its own cost and its visited children's usages.
    Usage {
        digest: Digest,
    },
    /// Two different texts that the batch makes share a digest, the least such one.
    Clash {
        digest: Digest,
        one: Text,
        other: Text,
    },
    /// The store failed.
    Fault,
    /// There was no memory.
    NoMemory,
}

impl From<ReadError> for ProveError {
    ghost from_gives = { λ error given. given ≡ of_read error };

    fn from(error: ReadError) -> ProveError {
        match error {
            ReadError::Missing { digest } => ProveError::Missing { digest },
            ReadError::Bad { digest } => ProveError::Bad { digest },
            ReadError::Fault => ProveError::Fault,
        }
    }
}

impl From<UpdateError> for ProveError {
    ghost from_gives = { λ error given. given ≡ of_update error };

    fn from(error: UpdateError) -> ProveError {
        match error {
            UpdateError::Missing { digest } => ProveError::Missing { digest },
            UpdateError::Bad { digest } => ProveError::Bad { digest },
            UpdateError::Usage { digest } => ProveError::Usage { digest },
            UpdateError::Clash { digest, one, other } => ProveError::Clash { digest, one, other },
            UpdateError::Fault => ProveError::Fault,
            UpdateError::NoMemory => ProveError::NoMemory,
        }
    }
}

impl From<AllocError> for ProveError {
    ghost from_gives = { λ _ given. given ≡ NoMemory };

    fn from(_error: AllocError) -> ProveError {
        ProveError::NoMemory
    }
}
