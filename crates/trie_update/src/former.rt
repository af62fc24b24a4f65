ghost use Rattle.std.specs.Prelude.{◌≡◌, ◌+◌, ◌<◌, ℕ};
ghost use Rattle.trie_model.specs.Root.{Table};
ghost use Rattle.node_codec.specs.Meanings.{children_in};
ghost use Rattle.trie_update.specs.Places.{FitsFormer, FitsParent, kid_place, place_behind, place_of};

use crate::old::Old;
use base_core::Digest;
use node_codec::{Kids, ValueRef};

/// What stood behind a nibble before the batch.
#[derive(Clone, Copy)]
pub(crate) enum Former<'a> {
    /// As far as it is known without a load.
    Known(Old<'a>),
    /// A child of a branch.
    Named(Digest),
}

/// A branch as it was read: under which digest, what its record states, and what it costs by itself.
#[derive(Clone, Copy)]
pub(crate) struct FormerBranch<'a> {
    pub(crate) digest: &'a Digest,
    pub(crate) value: &'a Option<ValueRef>,
    pub(crate) kids: &'a Kids,
    pub(crate) stated: u64,
    pub(crate) own: u64,
}

/// A place that parts into what stood behind its nibbles.
#[derive(Clone, Copy)]
pub(crate) enum Parent<'a> {
    /// What stood there before, below so many of its nibbles.
    Path(Old<'a>, usize),
    /// A branch with these children.
    Branch(&'a Kids),
}

impl<'a> Parent<'a> {
    #[inline(always)]
    pub(crate) fn behind(&self, nibble: u8) -> Former<'a>
        requires { nibble < 16 }
        ensures place { (table : Table) (depth : ℕ) → FitsParent depth self.now → place_of table (depth + 1) result ≡ place_behind table depth self.now nibble }
        ensures fits { (table : Table) (depth : ℕ) → FitsParent depth self.now → FitsFormer (depth + 1) result }
    {
        match *self {
            Parent::Path(old, count) => Former::Known(old.behind(count, nibble)),
            Parent::Branch(kids) => former_child(kids, nibble),
        }
    }
}

fn former_child<'a>(kids: &Kids, nibble: u8) -> Former<'a>
    requires { nibble < 16 }
    ensures place { (table : Table) (depth : ℕ) → place_of table depth result ≡ kid_place table depth (children_in kids.now nibble) }
    ensures fits { (depth : ℕ) → FitsFormer depth result }
{
    match kids.get(nibble) {
        Some(digest) => Former::Named(digest),
        None => Former::Known(Old::Nothing),
    }
}
