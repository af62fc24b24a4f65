ghost use Rattle.std.specs.Prelude.{◌≡◌};
ghost use Rattle.trie_read.specs.declared.errors.ListError.TheVariants.{NoMemory};
ghost use Rattle.trie_read.specs.Endings.{as_listed};

use base_core::Digest;
use std::alloc::AllocError;

/// Why a trie could not be read.
#[derive(Clone, Copy, Debug, PartialEq, Eq)]
pub enum ReadError {
    /// No text is held under a digest that the reading came to.
    Missing { digest: Digest },
    /// The text there is no node that fits at its place, or a value is not as long as the node that
    /// names it says.
    Bad { digest: Digest },
    /// The store failed.
    Fault,
}

/// Why a trie could not be listed.
#[derive(Clone, Copy, Debug, PartialEq, Eq)]
pub enum ListError {
    /// No text is held under a digest that the reading came to.
    Missing { digest: Digest },
    /// The text there is no node that fits at its place, or a value is not as long as the node that
    /// names it says.
    Bad { digest: Digest },
    /// The store failed.
    Fault,
    /// There was no memory.
    NoMemory,
}

impl From<ReadError> for ListError {
    ghost from_gives = { λ error given. given ≡ as_listed error };

    fn from(error: ReadError) -> ListError {
        match error {
            ReadError::Missing { digest } => ListError::Missing { digest },
            ReadError::Bad { digest } => ListError::Bad { digest },
            ReadError::Fault => ListError::Fault,
        }
    }
}

impl From<AllocError> for ListError {
    ghost from_gives = { λ _ given. given ≡ NoMemory };

    fn from(_error: AllocError) -> ListError {
        ListError::NoMemory
    }
}
