use thiserror::Error;

/// Why the bytes that were asked for were not handed out.
#[derive(Debug, Drop, Error)]
pub enum FeedError {
    /// The input has more than the 2^30 bytes that it may have, and `at` is that number.
    #[error("the input is too long, or ends, behind byte {at}")]
    Short { at: u64 },
    #[error("the source failed")]
    ReadFault,
    #[error("out of memory")]
    NoMemory,
}
