ghost use Rattle.std.specs.Prelude.{◌≡◌};
ghost use Rattle.record_model.specs.Records.{has_shape};
ghost use Rattle.node_codec.specs.Views.{node_viewed};

use crate::kids_view::KidsView;
use crate::value_ref::ValueRef;
use base_core::{Digest, LONGEST_VALUE};
use nibble_keys::Packed;

/// A node of a trie, read where its record stands. It borrows the record.
#[derive(Debug, Drop)]
pub enum NodeView<'a> {
    /// The end of one key: the nibbles that are left of it.
    Leaf {
        path: Packed<'a>,
        value: ValueRef,
    },
    /// Where keys part, or one ends and others go on. The value is of the key that ends here.
    Branch {
        value: Option<ValueRef>,
        kids: KidsView<'a>,
    },
    /// Nibbles that several keys share, and the branch behind them.
    Extension {
        path: Packed<'a>,
        child: Digest,
    },
}

impl NodeView<'_> {
    /// What a node of any place keeps to: a value within the limit, a branch with two of children
    /// and value at least, an extension that is not empty. It takes no memory.
    pub fn is_shaped(&self) -> bool
        ensures { result ≡ has_shape (node_viewed self.now) }
    {
        match self {
            NodeView::Leaf { value, .. } => value.length as u64 <= LONGEST_VALUE,
            NodeView::Branch { value: None, kids } => kids.count() >= 2,
            NodeView::Branch {
                value: Some(value),
                kids,
            } => value.length as u64 <= LONGEST_VALUE && kids.count() >= 1,
            NodeView::Extension { path, .. } => path.len() != 0,
        }
    }
}
