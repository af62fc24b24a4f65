use crate::kids::Kids;
use crate::value_ref::ValueRef;
use base_core::{Digest, Text};

/// A node of a trie. Its path has one nibble to a byte.
#[derive(Debug, Drop)]
pub enum Node {
    /// The end of one key: the nibbles that are left of it.
    Leaf {
        path: Text,
        value: ValueRef,
    },
    /// Where keys part, or one ends and others go on. The value is of the key that ends here.
    Branch {
        value: Option<ValueRef>,
        kids: Box<Kids>,
    },
    /// Nibbles that several keys share, and the branch behind them.
    Extension {
        path: Text,
        child: Digest,
    },
}
