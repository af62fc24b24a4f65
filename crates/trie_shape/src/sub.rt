ghost use Rattle.std.specs.Prelude.{◌≡◌, ◌^◌, ◌≤◌, ◌↔◌, ◌++◌, List, length, option_map, Ok, Err, None, IfOk, IfNone, IfSome, IsSomeAnd};
ghost use Rattle.std.specs.Option.{ForSome};
ghost use Rattle.byte_model.specs.Nibbles.{AreNibbles};
ghost use Rattle.byte_model.specs.PackedPath.{longest_path};
ghost use Rattle.byte_model.specs.Node.{IsShaped};
ghost use Rattle.trie_model.specs.Grown.{grown, under};
ghost use Rattle.trie_model.specs.State.{Row};
ghost use Rattle.trie_model.specs.Tree.{Tree, tree_of};

use crate::close_error::CloseError;
use crate::closed::Closed;
use crate::closing::{close_extension, close_leaf};
use base_core::{Digest, Text, Writer};
use node_codec::ValueRef;
use std::alloc::{AllocError, Global};

/// A part of a trie with its top still open, so that it can go further down before the record of
/// its top is made. Its paths are nibbles, one to a byte.
#[derive(Debug, Drop)]
pub enum Sub {
    /// No pair.
    Empty,
    /// One pair: the nibbles that are left of its key, and its value.
    Leaf {
        path: Text,
        value: ValueRef,
    },
    /// A branch, whose record is written: its digest, and the usage that it states.
    Branch {
        digest: Digest,
        usage: u64,
    },
    /// Nibbles before a branch whose record is written.
    Extension {
        path: Text,
        child: Digest,
        child_usage: u64,
    },
}

impl Sub {
    ghost use Rattle.trie_shape.specs.declared.close_error.CloseError.TheVariants.{Usage};
    ghost use Rattle.trie_shape.specs.Shows.{Shows, under_of, top_node, path_of, usage_of, digest_of, IsRecord, IsTop, IsName};

    /// Moves it down below some nibbles: they stand in front of its path, and above a branch as an
    /// extension of their own. With none of them it stays as it is.
    pub fn under(self, alloc: Global, nibbles: &[u8]) -> Result<Sub, AllocError>
        ensures value { IfOk result (λ sub. sub ≡ under_of nibbles.now self) }
        ensures shows { IfOk result (λ sub. (tree : Tree) → Shows self tree → Shows sub (grown nibbles.now tree)) }
        ensures rows { IfOk result (λ sub. (rows : List Row) → Shows self (tree_of rows) → Shows sub (tree_of (under nibbles.now rows))) }
    {
        match self {
            Sub::Empty => Ok(Sub::Empty),
            Sub::Leaf { path, value } => Ok(Sub::Leaf {
                path: joined(alloc, nibbles, path.as_slice())?,
                value,
            }),
            Sub::Branch { digest, usage } if nibbles.is_empty() => {
                Ok(Sub::Branch { digest, usage })
            }
            Sub::Branch { digest, usage } => Ok(Sub::Extension {
                path: Text::copy(alloc, nibbles)?,
                child: digest,
                child_usage: usage,
            }),
            Sub::Extension {
                path,
                child,
                child_usage,
            } => Ok(Sub::Extension {
                path: joined(alloc, nibbles, path.as_slice())?,
                child,
                child_usage,
            }),
        }
    }

    /// The record of the leaf or extension at its top. None is made where it has no pair, and none
    /// of a branch, whose record was made before.
    pub fn close(self, alloc: Global) -> Result<Option<Closed>, CloseError>
        requires nibbles { AreNibbles (path_of self) }
        requires short { length (path_of self) ≤ longest_path }
        requires shaped { ForSome (top_node self) IsShaped }
        ensures none { IfNone (top_node self) (result ≡ Ok None) }
        ensures usage { (result ≡ Err Usage) ↔ (2 ^ 64 ≤ usage_of self) }
        ensures written { IfOk result (λ closed. IfSome (top_node self) (λ node. IsSomeAnd closed (λ c. IsRecord c node (usage_of self)))) }
        ensures shows { IfOk result (λ closed. IfSome closed (λ c. (tree : Tree) → Shows self tree → IsTop c tree)) }
    {
        match self {
            Sub::Empty | Sub::Branch { .. } => Ok(None),
            Sub::Leaf { path, value } => match close_leaf(alloc, path.as_slice(), &value) {
                Ok(closed) => Ok(Some(closed)),
                Err(AllocError) => Err(CloseError::NoMemory),
            },
            Sub::Extension {
                path,
                child,
                child_usage,
            } => match close_extension(alloc, path.as_slice(), &child, child_usage) {
                Ok(closed) => Ok(Some(closed)),
                Err(error) => Err(error),
            },
        }
    }

    /// The digest by which a parent names it, or none where it has no pair, and its usage. The
    /// record of a leaf or an extension is written for it.
    pub fn name(self, alloc: Global) -> Result<(Option<Digest>, u64), CloseError>
        requires nibbles { AreNibbles (path_of self) }
        requires short { length (path_of self) ≤ longest_path }
        requires shaped { ForSome (top_node self) IsShaped }
        ensures usage { (result ≡ Err Usage) ↔ (2 ^ 64 ≤ usage_of self) }
        ensures digest { IfOk result (λ name. option_map (λ d. d.0) name.0 ≡ digest_of self) }
        ensures used { IfOk result (λ name. name.1 ≡ usage_of self) }
        ensures shows { IfOk result (λ name. (tree : Tree) → Shows self tree → IsName name tree) }
    {
        match self {
            Sub::Empty => Ok((None, 0)),
            Sub::Branch { digest, usage } => Ok((Some(digest), usage)),
            sub => match sub.close(alloc) {
                Ok(Some(closed)) => Ok((Some(closed.digest), closed.usage)),
                Ok(None) => unreachable!(),
                Err(error) => Err(error),
            },
        }
    }
}

fn joined(alloc: Global, prefix: &[u8], path: &[u8]) -> Result<Text, AllocError>
    ensures { IfOk result (λ text. text ≡ prefix.now ++ path.now) }
{
    let mut writer = Writer::new(alloc);
    writer.put_raw(prefix)?;
    writer.put_raw(path)?;
    Ok(writer.into_text())
}
