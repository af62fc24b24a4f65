ghost use Rattle.std.specs.Prelude.{◌≡◌, ◌≢◌, ◌+◌, ◌≤◌, ◌<◌, ℕ, true, length, drop, take, slice_index, slice_index_or, IfOk, IsTrue};
ghost use Rattle.byte_model.specs.Nibbles.{nibbles};
ghost use Rattle.byte_model.specs.PackedPath.{longest_path};
ghost use Rattle.trie_shape.specs.declared.sub.Sub.TheVariants as sub;
ghost use Rattle.trie_shape.specs.Runs.{goes_on};
ghost use Rattle.trie_shape.specs.Shows.{under_of};
ghost use Rattle.trie_update.specs.ChangesAt.{AreChangesAt, AllGoOn, BeginAsFirst, Lent, changes_at};
ghost use Rattle.trie_update.specs.Alone.{ends_by};
ghost use Rattle.trie_update.specs.Olds.{value_behind, IsBehind, sub_of, BeginAs, BeginAsOld, PartBehind};

use crate::parting::KeyChange;
use base_core::{Digest, Text};
use nibble_keys::Nibbles;
use node_codec::ValueRef;
use std::alloc::{AllocError, Global};
use trie_shape::Sub;

/// What stood below a place before the batch, as far as no further text has to be loaded for it.
/// Its paths are nibbles, one to a byte.
#[derive(Clone, Copy, Debug)]
pub(crate) enum Old<'p> {
    Nothing,
    Leaf {
        path: &'p [u8],
        value: ValueRef,
    },
    /// Nibbles before a branch, maybe none, with the usage of the branch.
    Extension {
        path: &'p [u8],
        child: Digest,
        child_usage: u64,
    },
}

impl<'p> Old<'p> {
    /// The value that it has where its path is used up after so many nibbles.
    #[inline(never)]
    pub(crate) fn value_at(&self, count: usize) -> Option<ValueRef>
        ensures { result ≡ value_behind count self.now }
    {
        match self {
            Old::Leaf { path, value } => {
                if path.len() == count {
                    Some(*value)
                } else {
                    None
                }
            }
            Old::Nothing => None,
            Old::Extension { .. } => None,
        }
    }

    /// Whether nothing stood below any nibble after so many.
    pub(crate) fn ends(&self, count: usize) -> bool
        ensures { result ≡ ends_by count self.now }
    {
        match self {
            Old::Nothing => true,
            Old::Leaf { path, .. } => path.len() == count,
            Old::Extension { .. } => false,
        }
    }

    /// What stood below the next nibble after so many.
    pub(crate) fn behind(&self, count: usize, nibble: u8) -> Old<'p>
        ensures { IsBehind count nibble self.now result }
    {
        match *self {
            Old::Nothing => Old::Nothing,
            Old::Leaf { path, value } => {
                if !goes_on(path, count, nibble) {
                    return Old::Nothing;
                }
                Old::Leaf {
                    path: behind(path, count),
                    value,
                }
            }
            Old::Extension {
                path,
                child,
                child_usage,
            } => {
                if !goes_on(path, count, nibble) {
                    return Old::Nothing;
                }
                Old::Extension {
                    path: behind(path, count),
                    child,
                    child_usage,
                }
            }
        }
    }

    /// It as a subtree, where no key is changed.
    #[inline(always)]
    pub(crate) fn sub(&self, alloc: Global) -> Result<Sub, AllocError>
        ensures { IfOk result (λ sub. sub ≡ sub_of self.now) }
    {
        match self {
            Old::Nothing => Ok(Sub::Empty),
            Old::Leaf { path, value } => Ok(Sub::Leaf {
                path: Text::copy(alloc, path)?,
                value: *value,
            }),
            Old::Extension {
                path,
                child,
                child_usage,
            } => before_branch(alloc, path, child, *child_usage),
        }
    }
}

fn before_branch(
    alloc: Global,
    path: &[u8],
    child: &Digest,
    child_usage: u64,
) -> Result<Sub, AllocError>
    ensures { IfOk result (λ s. s ≡ under_of path.now (sub.Branch child.now child_usage)) }
{
    if path.is_empty() {
        return Ok(Sub::Branch {
            digest: *child,
            usage: child_usage,
        });
    }
    Ok(Sub::Extension {
        path: Text::copy(alloc, path)?,
        child: *child,
        child_usage,
    })
}

fn goes_on(path: &[u8], count: usize, nibble: u8) -> bool
    ensures goes { result ≡ goes_on nibble (drop count path.now) }
    ensures deep { IsTrue result → count < length path.now }
{
    count < path.len() && path[count] == nibble
}

/// What is left of a path after so many nibbles and one more.
fn behind(path: &[u8], count: usize) -> &[u8]
    requires { count < length path.now }
    ensures { result.now ≡ drop (count + 1) path.now }
{
    let (_, rest) = path.split_at(count + 1);
    rest
}

/// How many nibbles some keys share from a depth on, with each other and with a path.
#[inline(never)]
pub(crate) fn shared_length(old: &Old<'_>, changes: &[KeyChange<'_>], depth: u64) -> usize
    requires changes { AreChangesAt depth changes.now }
    requires some { 1 ≤ length changes.now }
    ensures deeper { AreChangesAt (depth + result) changes.now }
    ensures keys { BeginAsFirst depth changes.now result }
    ensures begin { BeginAsOld depth changes.now result old.now }
    ensures parted { PartBehind depth changes.now result old.now }
{
    match old {
        Old::Nothing => common_length(changes, depth) as usize,
        Old::Leaf { path, .. } => shared_with(changes, depth, path),
        Old::Extension { path, .. } => shared_with(changes, depth, path),
    }
}

/// How many nibbles some keys share from a depth on.
fn common_length(changes: &[KeyChange<'_>], depth: u64) -> u64
    requires changes { AreChangesAt depth changes.now }
    requires some { 1 ≤ length changes.now }
    ensures short { result ≤ longest_path }
    ensures deep { (d : Lent) → result ≤ length (drop depth (nibbles (slice_index_or changes.now 0 d).0.now)) }
    ensures begin { BeginAsFirst depth changes.now result }
    ensures parted { (x : ℕ) → AllGoOn x (changes_at (depth + result) changes.now) → ⊥ }
{
    let (first, _) = changes[0];
    let (last, _) = changes[changes.len() - 1];
    let first = Nibbles::new(first).rest(depth);
    first.common(&Nibbles::new(last).rest(depth))
}

fn shared_with(changes: &[KeyChange<'_>], depth: u64, path: &[u8]) -> usize
    requires changes { AreChangesAt depth changes.now }
    requires some { 1 ≤ length changes.now }
    ensures deeper { AreChangesAt (depth + result) changes.now }
    ensures keys { BeginAsFirst depth changes.now result }
    ensures begin { BeginAs depth changes.now result path.now }
    ensures parted { (x : ℕ) → AllGoOn x (changes_at (depth + result) changes.now) → goes_on x (drop result path.now) ≡ true → ⊥ }
{
    let most = common_length(changes, depth) as usize;
    let (first, _) = changes[0];
    common_with(&Nibbles::new(first).rest(depth), path, most)
}

/// How many of the first nibbles of a key are those of a path, up to a bound.
fn common_with(key: &Nibbles<'_>, path: &[u8], most: usize) -> usize
    requires { most ≤ length key.now }
    ensures most { result ≤ most }
    ensures path { result ≤ length path.now }
    ensures shared { take result key.now ≡ take result path.now }
    ensures longest { result < most → result < length path.now → slice_index key.now result ≢ slice_index path.now result }
{
    let mut count = 0;
    while count < most && count < path.len() && key.at(count as u64) == path[count] {
        count += 1;
    }
    count
}
