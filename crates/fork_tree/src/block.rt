use crate::links::Links;
use base_core::Digest;

/// A live block.
#[derive(Clone, Copy, Debug)]
pub(crate) struct Block {
    pub(crate) id: Digest,
    pub(crate) prev: Digest,
    pub(crate) height: u64,
    pub(crate) links: Links,
}
