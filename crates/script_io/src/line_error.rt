use thiserror::Error;

/// Why a line was not handed out. The first two are told by the input alone.
#[derive(Debug, Drop, Error)]
pub enum LineError {
    /// More bytes stand before the next line feed than a line may have, which is 8,400,000.
    #[error("the line is too long")]
    Long,
    /// The line, its line feed included, goes on behind the 2^30 bytes that an input may have.
    #[error("the input is too long")]
    Past,
    #[error("the source failed")]
    ReadFault,
    #[error("out of memory")]
    NoMemory,
}
