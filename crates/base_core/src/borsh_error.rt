use thiserror::Error;

/// What is wrong with the bytes of a record, and at which of them, counted from 0.
#[derive(Clone, Copy, Debug, PartialEq, Eq, Error)]
pub enum BorshError {
    /// The bytes end within what begins at `at`: an integer, a digest, or what a vector holds.
    #[error("a field at byte {at} runs past the end")]
    Short { at: u64 },
    /// Nothing more is asked for, and bytes are left from `at` on.
    #[error("bytes are left over from byte {at} on")]
    Rest { at: u64 },
    /// At `at` stands a byte that names none of the kinds that could stand there.
    #[error("byte {at} is no ordinal")]
    Ordinal { at: u64 },
}
