ghost use Rattle.std.specs.Prelude.{◌≡◌, ◌≤◌, ◌<◌, ℕ, [], ◌∷◌, IfOk, OnOk, OnErr, IfErr, ⊤};
ghost use Rattle.sha2.specs.Sha256.{sha256};
ghost use Rattle.byte_model.specs.Nibbles.{AreNibbles};
ghost use Rattle.byte_model.specs.Node.{spelled};
ghost use Rattle.byte_model.specs.PackedPath.{longest_path};
ghost use Rattle.byte_model.specs.Laws.{SameNode};
ghost use Rattle.node_codec.specs.Children.{children_viewed};
ghost use Rattle.node_codec.specs.Meanings.{node_of, path_of, children_in};
ghost use Rattle.node_codec.specs.Views.{node_viewed};
ghost use Rattle.text_store.specs.Leaves.{Leaves};
ghost use Rattle.trie_update.specs.declared.errors.UpdateError.TheVariants.{Usage};
ghost use Rattle.trie_update.specs.Endings.{update_ended};
ghost use Rattle.trie_update.specs.Visiting.{AnswersNode, AnswersVisit};

use crate::errors::UpdateError;
use base_core::{Digest, Fault, Text};
use nibble_keys::Packed;
use node_codec::{Kids, KidsView, Node, NodeView};
use std::alloc::{AllocError, Global};
use text_store::Texts;
use trie_shape::{fitting_node, own_cost};

/// The most that the record of a visited place may state.
const MOST_USAGE: u64 = 4611686018427387904;

/// A node that was loaded, with the usage that its record states and what it costs by itself.
#[derive(Debug, Drop)]
pub(crate) struct Visited {
    pub(crate) node: Node,
    pub(crate) stated: u64,
    pub(crate) own: u64,
}

/// Loads a node, and tests that it states no more than a record may.
#[inline(never)]
pub(crate) fn visit<T: Texts>(
    alloc: Global,
    store: &mut T,
    digest: &Digest,
    depth: u64,
    after_extension: bool,
) -> Result<Visited, UpdateError>
    ensures left { Leaves T.store store.old store.new (digest.now.0 ∷ []) (update_ended result) }
    ensures answer { AnswersVisit (T.store.texts store.old) digest.now depth after_extension result }
    ensures record { IfOk result (λ visited. digest.now.0 ≡ sha256 (spelled (node_of visited.node) visited.stated)) }
{
    match store.load(digest) {
        Err(Fault) => Err(UpdateError::Fault),
        Ok(None) => Err(UpdateError::Missing { digest: *digest }),
        Ok(Some(text)) => node_in(alloc, text, digest, depth, after_extension),
    }
}

fn node_in(
    alloc: Global,
    text: &[u8],
    digest: &Digest,
    depth: u64,
    after_extension: bool,
) -> Result<Visited, UpdateError>
    ensures answer { AnswersNode text.now digest.now depth after_extension result }
    ensures record { IfOk result (λ visited. text.now ≡ spelled (node_of visited.node) visited.stated) }
{
    let Some((view, stated)) = fitting_node(text, depth, after_extension) else {
        return Err(UpdateError::Bad { digest: *digest });
    };
    if stated > MOST_USAGE {
        return Err(UpdateError::Usage { digest: *digest });
    }
    let own = own_cost(&view);
    match copied(alloc, &view) {
        Ok(node) => Ok(Visited { node, stated, own }),
        Err(AllocError) => Err(UpdateError::NoMemory),
    }
}

fn copied(alloc: Global, view: &NodeView<'_>) -> Result<Node, AllocError>
    ensures same { IfOk result (λ node. SameNode (node_of node) (node_viewed view.now)) }
    ensures nibbles { IfOk result (λ node. AreNibbles (path_of node)) }
{
    match view {
        NodeView::Leaf { path, value } => Ok(Node::Leaf {
            path: nibbles_of(alloc, path)?,
            value: *value,
        }),
        NodeView::Branch { value, kids } => Ok(Node::Branch {
            value: *value,
            kids: kids_of(alloc, kids)?,
        }),
        NodeView::Extension { path, child } => Ok(Node::Extension {
            path: nibbles_of(alloc, path)?,
            child: *child,
        }),
    }
}

fn nibbles_of(alloc: Global, path: &Packed<'_>) -> Result<Text, AllocError>
    ensures path { IfOk result (λ text. text ≡ path.now) }
    ensures nibbles { IfOk result AreNibbles }
{
    let mut nibbles = Vec::with_capacity(alloc, path.len() as usize)?;
    for i in 0..path.len() {
        nibbles.push(path.at(i))?;
    }
    Ok(Text::from_bytes(nibbles))
}

fn kids_of(alloc: Global, view: &KidsView<'_>) -> Result<Box<Kids>, AllocError>
    ensures { IfOk result (λ kids. (x : ℕ) → x < 16 → children_in kids.value x ≡ children_viewed view.now x) }
{
    let mut kids = Box::new(alloc, Kids::NONE)?;
    for nibble in 0..16 {
        kids.set(nibble, view.get(nibble));
    }
    Ok(kids)
}

/// The test of what a record states, once all that is visited below it is known.
pub(crate) fn states_enough(digest: &Digest, stated: u64, parts: u64) -> Result<(), UpdateError>
    ensures enough { OnOk result (parts ≤ stated) }
    ensures less { IfErr result (λ error. (error ≡ Usage digest.now) × (stated < parts)) }
{
    if stated < parts {
        Err(UpdateError::Usage { digest: *digest })
    } else {
        Ok(())
    }
}
