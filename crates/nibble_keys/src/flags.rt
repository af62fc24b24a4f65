/// In the first byte of a packed path: the path ends at a leaf.
pub(crate) const LEAF_FLAG: u8 = 0x20;

/// In the first byte of a packed path: the number of nibbles is odd, and the first of them is the
/// low half of the byte.
pub(crate) const ODD_FLAG: u8 = 0x10;
