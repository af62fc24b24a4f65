/// Why a record was not written.
#[derive(Debug, Drop)]
pub enum CloseError {
    /// The usage that it would state does not fit 64 bits.
    Usage,
    /// There was no memory.
    NoMemory,
}
