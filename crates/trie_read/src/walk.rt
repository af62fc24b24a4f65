ghost use Rattle.std.specs.Prelude.{◌≡◌, ◌≤◌, ◌<◌, ◌++◌, ℕ, true, false, None, List, [], ◌∷◌, length, IfOk, OnOk};
ghost use Rattle.std.specs.Option.{option_map};
ghost use Rattle.byte_model.specs.Below.{joined_below};
ghost use Rattle.byte_model.specs.Nibbles.{AreNibbles};
ghost use Rattle.byte_model.specs.PackedPath.{longest_path};
ghost use Rattle.byte_model.specs.Node.{leaf, branch, extension};
ghost use Rattle.trie_model.specs.Root.{Table};
ghost use Rattle.visit_model.specs.Steps.{bound_behind};
ghost use Rattle.node_codec.specs.Children.{children_viewed};
ghost use Rattle.node_codec.specs.Meanings.{value_of};
ghost use Rattle.node_codec.specs.Views.{node_viewed};
ghost use Rattle.trie_read.specs.Walks.{IsSide, IsChildBound, IsBound, IsWalk, Stacked, FitsSomewhere, Enters, IsChildPlace, child_steps, steps_of, place_before};

use base_core::Digest;
use nibble_keys::{Nibbles, Packed};
use node_codec::{KidsView, NodeView, ValueRef};
use std::alloc::{AllocError, Global};

/// A place that is still to be visited. Its path is a prefix of the walk's, and one nibble more
/// below a branch.
#[derive(Clone, Copy, Debug)]
pub(crate) struct Place {
    pub(crate) digest: Digest,
    /// How many nibbles it shares with the walk's path.
    pub(crate) prefix: usize,
    pub(crate) nibble: Option<u8>,
    pub(crate) after_extension: bool,
    /// Keys below it can be below the first key that is asked for.
    pub(crate) bounded: bool,
}

/// The places that are still to be visited, the next one last, and the path of the one that was
/// visited, as nibbles.
#[derive(Debug, Drop)]
pub(crate) struct Walk {
    pub(crate) path: Vec<u8>,
    pub(crate) pending: Vec<Place>,
}

impl Walk {
    /// At a root, which is still to be visited.
    pub(crate) fn new(alloc: Global, root: &Digest) -> Result<Walk, AllocError>
        ensures path { IfOk result (λ walk. walk.path.items ≡ []) }
        ensures pending { IfOk result (λ walk. walk.pending.items ≡ record { digest = root.now; prefix = 0; nibble = None; after_extension = false; bounded = true } ∷ []) }
    {
        let mut pending = Vec::new(alloc);
        pending.push(Place {
            digest: *root,
            prefix: 0,
            nibble: None,
            after_extension: false,
            bounded: true,
        })?;
        Ok(Walk {
            path: Vec::new(alloc),
            pending,
        })
    }

    /// Makes the path that of a place.
    pub(crate) fn go_to(&mut self, place: &Place) -> Result<(), AllocError>
        requires { place.now.prefix ≤ length self.old.path.items }
        ensures path { OnOk result (self.new.path.items ≡ place_before self.old.path.items place.now) }
        ensures pending { self.new.pending.items ≡ self.old.pending.items }
    {
        self.path.truncate(place.prefix);
        if let Some(nibble) = place.nibble {
            self.path.push(nibble)?;
        }
        Ok(())
    }

    /// Takes up the places below the node at the path, and tells the value that is to be visited
    /// first. Then the path is that of the value's key.
    pub(crate) fn enter(
        &mut self,
        node: &NodeView<'_>,
        bound: &Nibbles<'_>,
    ) -> Result<Option<ValueRef>, AllocError>
        requires fits { FitsSomewhere (length self.old.path.items) (node_viewed node.now) }
        requires walk { IsWalk self.old.path.items self.old.pending.items }
        ensures { IfOk result (Enters self.old self.new (node_viewed node.now) bound.now) }
    {
        match node {
            NodeView::Leaf { path, value } => self.enter_leaf(path, value, bound),
            NodeView::Branch { value, kids } => self.enter_branch(value, kids, bound),
            NodeView::Extension { path, child } => {
                self.enter_extension(path, child, bound)?;
                Ok(None)
            }
        }
    }

    fn enter_leaf(
        &mut self,
        path: &Packed<'_>,
        value: &ValueRef,
        bound: &Nibbles<'_>,
    ) -> Result<Option<ValueRef>, AllocError>
        requires fits { FitsSomewhere (length self.old.path.items) (leaf path.now (value_of value.now)) }
        requires walk { IsWalk self.old.path.items self.old.pending.items }
        ensures { IfOk result (Enters self.old self.new (leaf path.now (value_of value.now)) bound.now) }
    {
        match side_of(path.nibbles(), bound) {
            Side::Below => Ok(None),
            Side::Within => Ok(None),
            Side::Above => {
                extend(&mut self.path, path)?;
                Ok(Some(*value))
            }
        }
    }

    fn enter_branch(
        &mut self,
        value: &Option<ValueRef>,
        kids: &KidsView<'_>,
        bound: &Nibbles<'_>,
    ) -> Result<Option<ValueRef>, AllocError>
        requires fits { FitsSomewhere (length self.old.path.items) (branch (option_map value_of value.now) (children_viewed kids.now)) }
        requires walk { IsWalk self.old.path.items self.old.pending.items }
        ensures { IfOk result (Enters self.old self.new (branch (option_map value_of value.now) (children_viewed kids.now)) bound.now) }
    {
        push_children(&mut self.pending, kids, self.path.len(), bound)?;
        if bound.len() == 0 {
            Ok(*value)
        } else {
            Ok(None)
        }
    }

    fn enter_extension(
        &mut self,
        path: &Packed<'_>,
        child: &Digest,
        bound: &Nibbles<'_>,
    ) -> Result<(), AllocError>
        requires fits { FitsSomewhere (length self.old.path.items) (extension path.now child.now.0) }
        requires walk { IsWalk self.old.path.items self.old.pending.items }
        ensures { OnOk result (Enters self.old self.new (extension path.now child.now.0) bound.now None) }
    {
        match side_of(path.nibbles(), bound) {
            Side::Below => Ok(()),
            Side::Within => self.take_up(path, child, true),
            Side::Above => self.take_up(path, child, false),
        }
    }

    /// Takes up the child of an extension.
    fn take_up(
        &mut self,
        path: &Packed<'_>,
        child: &Digest,
        bounded: bool,
    ) -> Result<(), AllocError>
        ensures path { OnOk result (self.new.path.items ≡ self.old.path.items ++ path.now) }
        ensures small { OnOk result (AreNibbles self.old.path.items → AreNibbles self.new.path.items) }
        ensures pending { OnOk result (self.new.pending.items ≡ self.old.pending.items ++ record { digest = child.now; prefix = length self.new.path.items; nibble = None; after_extension = true; bounded = bounded } ∷ []) }
    {
        extend(&mut self.path, path)?;
        let prefix = self.path.len();
        self.pending.push(Place {
            digest: *child,
            prefix,
            nibble: None,
            after_extension: true,
            bounded,
        })?;
        Ok(())
    }
}

/// Where the keys with a prefix stand to a lower bound.
#[derive(Clone, Copy, Debug, PartialEq, Eq)]
pub(crate) enum Side {
    /// All are below it.
    Below,
    /// The bound has the prefix and goes on.
    Within,
    /// None is below it.
    Above,
}

fn side_of(prefix: &Nibbles<'_>, bound: &Nibbles<'_>) -> Side
    ensures { IsSide prefix.now bound.now result }
{
    let shared = prefix.common(bound);
    if shared == bound.len() {
        Side::Above
    } else if shared == prefix.len() {
        Side::Within
    } else if prefix.at(shared) < bound.at(shared) {
        Side::Below
    } else {
        Side::Above
    }
}

/// Whether keys that go on with a nibble can reach a lower bound, and then whether some can be
/// below it.
fn child_bound(nibble: u8, bound: &Nibbles<'_>) -> Option<bool>
    ensures { IsChildBound nibble bound.now result }
{
    if bound.len() == 0 {
        return Some(false);
    }
    let first = bound.at(0);
    if nibble < first {
        None
    } else if nibble == first {
        Some(true)
    } else {
        Some(false)
    }
}

fn extend(nibbles: &mut Vec<u8>, path: &Packed<'_>) -> Result<(), AllocError>
    ensures nibbles { OnOk result (nibbles.new.items ≡ nibbles.old.items ++ path.now) }
    ensures small { OnOk result (AreNibbles nibbles.old.items → AreNibbles nibbles.new.items) }
{
    for i in 0..path.len() {
        nibbles.push(path.at(i))?;
    }
    Ok(())
}

/// Takes up the children of a branch whose keys can reach the bound, the last one first.
fn push_children(
    pending: &mut Vec<Place>,
    kids: &KidsView<'_>,
    depth: usize,
    bound: &Nibbles<'_>,
) -> Result<(), AllocError>
    ensures steps { OnOk result ((table : Table) (from path : List ℕ) → length path ≡ depth → IsBound from depth bound.now →
        joined_below (child_steps table path bound.now (children_viewed kids.now)) 16 ++ steps_of table from path pending.old.items ≡ steps_of table from path pending.new.items) }
    ensures stacked { OnOk result (depth < longest_path → Stacked depth pending.old.items → Stacked depth pending.new.items) }
{
    let mut nibble = 16;
    while nibble > 0 {
        nibble -= 1;
        if let Some(place) = child_place(kids, nibble, depth, bound) {
            pending.push(place)?;
        }
    }
    Ok(())
}

/// The place of the child at a nibble, if there is one whose keys can reach the bound.
fn child_place(kids: &KidsView<'_>, nibble: u8, depth: usize, bound: &Nibbles<'_>) -> Option<Place>
    requires { nibble < 16 }
    ensures { IsChildPlace (children_viewed kids.now) nibble depth bound.now result }
{
    match kids.get(nibble) {
        None => None,
        Some(digest) => match child_bound(nibble, bound) {
            None => None,
            Some(bounded) => Some(Place {
                digest,
                prefix: depth,
                nibble: Some(nibble),
                after_extension: false,
                bounded,
            }),
        },
    }
}
