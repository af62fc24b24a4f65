// The first byte of a record tells the kind of its node.
pub(crate) const LEAF: u8 = 0;

pub(crate) const BRANCH: u8 = 1;

pub(crate) const BRANCH_WITH_VALUE: u8 = 2;

pub(crate) const EXTENSION: u8 = 3;
