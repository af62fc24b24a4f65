use thiserror::Error;

/// Why a pair or a change was not taken.
#[derive(Debug, Drop, Error)]
pub enum PutError {
    /// The key has more bytes than a key may have. `len` is how many.
    #[error("the key has {len} bytes")]
    KeyLong { len: u64 },
    /// The value has more bytes than a value may have. `len` is how many.
    #[error("the value has {len} bytes")]
    ValueLong { len: u64 },
    /// The key is new, and as many keys are held as may be.
    #[error("as many keys are held as may be")]
    Full,
    /// There was no memory.
    #[error("out of memory")]
    NoMemory,
}
