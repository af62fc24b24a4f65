ghost use Rattle.std.specs.Prelude.{◌≡◌, ◌≤◌, nat_eq, length, drop, is_some, IsTrue};
ghost use Rattle.std.specs.Cmp.Lexicographic.{pointwise};
ghost use Rattle.byte_model.specs.Nibbles.{nibbles};
ghost use Rattle.trie_model.specs.State.{longest_key};
ghost use Rattle.trie_model.specs.Tree.{rest_behind};
ghost use Rattle.node_codec.specs.Views.{node_viewed};
ghost use Rattle.trie_read.specs.Lookups.{leads_of, leads};

use base_core::Digest;
use nibble_keys::{Nibbles, Packed};
use node_codec::{NodeView, ValueRef};

/// Where a node leads a key.
#[derive(Clone, Copy, Debug)]
pub(crate) enum Next {
    /// The key ends here, with a value or none.
    End {
        value: Option<ValueRef>,
    },
    /// The key goes on below a child, that many nibbles down.
    Child {
        digest: Digest,
        depth: u64,
        after_extension: bool,
    },
}

/// Where a node leads a key whose nibbles above the node are used up.
#[tactic(auto, unfolding(crate::specs::Lookups::leads))]
#[inline(always)]
pub(crate) fn follow(node: &NodeView<'_>, depth: u64, key: &[u8]) -> Next
    requires depth { depth ≤ length (nibbles key.now) }
    requires short { length key.now ≤ longest_key }
    ensures { leads_of result ≡ leads depth (drop depth (nibbles key.now)) (node_viewed node.now) }
{
    let rest = Nibbles::new(key).rest(depth);
    match node {
        NodeView::Leaf { path, value } => Next::End {
            value: if is_rest(path, &rest) {
                Some(*value)
            } else {
                None
            },
        },
        NodeView::Branch { value, kids } => {
            if rest.len() == 0 {
                return Next::End { value: *value };
            }
            match kids.get(rest.at(0)) {
                Some(digest) => Next::Child {
                    digest,
                    depth: depth + 1,
                    after_extension: false,
                },
                None => Next::End { value: None },
            }
        }
        NodeView::Extension { path, child } => {
            if is_prefix(path, &rest) {
                Next::Child {
                    digest: *child,
                    depth: depth + path.len(),
                    after_extension: true,
                }
            } else {
                Next::End { value: None }
            }
        }
    }
}

/// Whether a path is all that is left of a key.
fn is_rest(path: &Packed<'_>, rest: &Nibbles<'_>) -> bool
    ensures { result ≡ pointwise nat_eq path.now rest.now }
{
    let shared = path.nibbles().common(rest);
    shared == path.len() && shared == rest.len()
}

/// Whether what is left of a key begins with a path.
fn is_prefix(path: &Packed<'_>, rest: &Nibbles<'_>) -> bool
    ensures prefix { result ≡ is_some (rest_behind path.now rest.now) }
    ensures within { IsTrue result → length path.now ≤ length rest.now }
{
    path.nibbles().common(rest) == path.len()
}
