use base_core::Digest;

/// How a node names a value: by its length and its SHA-256.
#[derive(Clone, Copy, Debug, PartialEq, Eq)]
pub struct ValueRef {
    /// In bytes.
    pub length: u32,
    pub digest: Digest,
}
