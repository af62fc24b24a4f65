/// What is wrong with a packed path.
#[derive(Clone, Copy, Debug, PartialEq, Eq)]
pub enum PackError {
    /// No bytes at all.
    Empty,
    /// One of the two highest bits of the first byte is set. In the record of a node also: the leaf
    /// flag does not suit the kind of the node.
    Flag,
    /// The first byte holds no nibble, and yet its low half is not 0.
    Pad,
}
