use base_core::{Changes, Digest};

/// A block that is offered to a shard.
#[derive(Debug, Drop)]
pub struct Block {
    pub id: Digest,
    pub prev: Digest,
    pub height: u64,
    pub changes: Changes,
}

/// A block that was applied.
#[derive(Clone, Copy, Debug, PartialEq, Eq)]
pub struct Applied {
    /// The root of its state.
    pub root: Digest,
}

/// A move of the head: how many blocks it passed, the new head among them, and how many others are
/// no longer live.
#[derive(Clone, Copy, Debug, PartialEq, Eq)]
pub struct HeadMoved {
    pub passed: u64,
    pub dropped: u64,
}

/// What a shard keeps.
#[derive(Clone, Copy, Debug, PartialEq, Eq)]
pub struct Stats {
    /// The live blocks, the head among them.
    pub live: u64,
    /// The pairs of the head's state.
    pub pairs: u64,
    /// The changed keys of all live blocks but the head, block by block.
    pub deltas: u64,
    /// The different texts in the store.
    pub distinct: u64,
}
