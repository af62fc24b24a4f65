use hex::FromHexError;
use std::alloc::AllocError;
use thiserror::Error;

/// Why the program gives up.
#[derive(Clone, Copy, Debug, PartialEq, Eq, Error)]
pub enum BenchError {
    #[error("a line is none of these: text HEX, root HEX, get HEX, key HEX, set HEX HEX, del HEX, update, skip, hash")]
    Line,
    #[error("the input could not be read")]
    Input,
    #[error("the store took no text")]
    Store,
    #[error("a text is missing or bad")]
    Trie,
    #[error("out of memory")]
    NoMemory,
}

impl From<AllocError> for BenchError {
    fn from(_error: AllocError) -> BenchError {
        BenchError::NoMemory
    }
}

impl From<FromHexError> for BenchError {
    fn from(error: FromHexError) -> BenchError {
        match error {
            FromHexError::OutOfMemory => BenchError::NoMemory,
            _ => BenchError::Line,
        }
    }
}
