/// The most bytes that a key may have.
pub const LONGEST_KEY: u64 = 2114;

/// The most bytes that a value may have.
pub const LONGEST_VALUE: u64 = 4194304;

/// How much a run takes in. A call that takes limits asks that each is at least 1 and at most what
/// `FULL` has.
#[derive(Clone, Copy, Debug, PartialEq, Eq)]
pub struct Limits {
    /// Pairs of a state.
    pub pairs: u64,
    /// Live blocks, the head among them.
    pub blocks: u64,
    /// Distinct keys that a block changes.
    pub changes: u64,
}

impl Limits {
    pub const FULL: Limits = Limits {
        pairs: 4194304,
        blocks: 4096,
        changes: 1048576,
    };
}
