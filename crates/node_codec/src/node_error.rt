use base_core::BorshError;
use nibble_keys::PackError;

/// Why some bytes are not the record of a node. The kinds are looked for in this order.
#[derive(Clone, Copy, Debug, PartialEq, Eq)]
pub enum NodeError {
    /// The layout: a field runs past the end, the first byte is the ordinal of no kind of node, or
    /// bytes are left over.
    Frame(BorshError),
    /// The packed path, or a leaf flag that does not suit the kind of the node.
    Path(PackError),
    /// A value longer than values may be, a branch with fewer than two of children and value, or an
    /// extension with an empty path.
    Shape,
}
