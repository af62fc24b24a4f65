ghost use Rattle.std.specs.Prelude.{◌≡◌};
ghost use Rattle.trie_update.specs.declared.errors.UpdateError.TheVariants.{NoMemory};

use base_core::{Digest, Text};
use std::alloc::AllocError;

/// Why a batch was not carried out.
#[derive(Debug, Drop)]
pub enum UpdateError {
    /// No text is held under a digest that has to be visited.
    Missing {
        digest: Digest,
    },
    /// The text under a digest is no node that fits where it stands.
    Bad {
        digest: Digest,
    },
    /// A record states more than 2^62, or less than its own cost and its visited children's usages.
    Usage {
        digest: Digest,
    },
    /// Two different texts that the batch makes share a digest, the least such one.
    Clash {
        digest: Digest,
        one: Text,
        other: Text,
    },
    /// The store failed.
    Fault,
    /// There was no memory.
    NoMemory,
}

impl From<AllocError> for UpdateError {
    ghost from_gives = { λ _ given. given ≡ NoMemory };

    fn from(_error: AllocError) -> UpdateError {
        UpdateError::NoMemory
    }
}
