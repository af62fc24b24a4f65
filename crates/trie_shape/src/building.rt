ghost use Rattle.std.specs.Prelude.{◌≡◌, ◌+◌, ◌^◌, ◌<◌, ◌≤◌, ℕ, List, [], length, take, drop, Option, option_map, IfOk};
ghost use Rattle.std.specs.Option.{ForSome};
ghost use Rattle.byte_model.specs.PackedPath.{longest_path};
ghost use Rattle.byte_model.specs.Nibbles.{nibbles, AreNibbles};
ghost use Rattle.byte_model.specs.Node as node;
ghost use Rattle.byte_model.specs.Node.{IsShaped, own_cost, longest_value};
ghost use Rattle.trie_model.specs.State.{Row};
ghost use Rattle.trie_model.specs.Tree.{Tree, tree_of, leaf};
ghost use Rattle.trie_model.specs.Texts as texts;
ghost use Rattle.trie_model.specs.Root as state;
ghost use Rattle.node_codec.specs.Meanings.{value_of, children_in};
ghost use Rattle.trie_model.specs.Grown.{grown};
ghost use Rattle.trie_shape.specs.Runs.{DoFork};
ghost use Rattle.trie_shape.specs.RowsAt.{rows_at, AreRowsAt};
ghost use Rattle.trie_shape.specs.Shows.{Shows, MayClose, IsName, IsBranchOf, usage_of};

use crate::close_error::CloseError;
use crate::closing::close_branch;
use crate::rows::{KeyValue, ending, nibbles_of, run_length, shared_length, value_ref};
use crate::sub::Sub;
use base_core::{Digest, Pairs};
use nibble_keys::Nibbles;
use node_codec::{Kids, ValueRef};
use std::alloc::{AllocError, Global};

/// The root of a state, and the usage that it states.
#[derive(Clone, Copy, Debug, PartialEq, Eq)]
pub struct Built {
    pub root: Digest,
    pub usage: u64,
}

/// The root and the usage of a state: the zero digest and 0 where it has no pair. It writes and
/// hashes the record of each place once, and keeps none.
pub fn build(alloc: Global, pairs: &Pairs) -> Result<Built, AllocError>
    ensures root { IfOk result (λ built. built.root.0 ≡ state.root pairs.now.state) }
    ensures usage { IfOk result (λ built. built.usage ≡ state.total pairs.now.state) }
{
    let rows = pairs.rows(alloc)?;
    let (name, usage) = named(alloc, &rows, 0)?;
    Ok(Built {
        root: name.unwrap_or(Digest::ZERO),
        usage,
    })
}

/// The digest that names the trie of some rows from a depth on, and its usage.
#[cycle(build)]
fn named(
    alloc: Global,
    rows: &[KeyValue<'_>],
    depth: u64,
) -> Result<(Option<Digest>, u64), AllocError>
    requires rows { AreRowsAt depth rows.now }
    requires depth { depth ≤ longest_path + 1 }
    requires fits { texts.usage (tree_of (rows_at depth rows.now)) < 2 ^ 64 }
    ensures { IfOk result (λ name. IsName name (tree_of (rows_at depth rows.now))) }
{
    let sub = subtree(alloc, rows, depth)?;
    name_of(alloc, sub)
}

/// The trie of some rows from a depth on.
#[cycle(build)]
fn subtree(alloc: Global, rows: &[KeyValue<'_>], depth: u64) -> Result<Sub, AllocError>
    requires rows { AreRowsAt depth rows.now }
    requires depth { depth ≤ longest_path + 1 }
    requires fits { texts.usage (tree_of (rows_at depth rows.now)) < 2 ^ 64 }
    ensures { IfOk result (λ sub. Shows sub (tree_of (rows_at depth rows.now))) }
{
    match rows {
        [] => Ok(Sub::Empty),
        [(key, value)] => one(alloc, key, value, depth),
        [(first, _), .., (last, _)] => {
            let shared = shared_length(first, last, depth);
            let fork = branch(alloc, rows, depth + shared)?;
            under_nibbles(alloc, fork, first, depth, shared)
        }
    }
}

/// The trie of rows that part at a depth.
#[cycle(build)]
fn branch(alloc: Global, rows: &[KeyValue<'_>], depth: u64) -> Result<Sub, AllocError>
    requires rows { AreRowsAt depth rows.now }
    requires depth { depth ≤ longest_path }
    requires forks { DoFork (rows_at depth rows.now) }
    requires fits { texts.usage (tree_of (rows_at depth rows.now)) < 2 ^ 64 }
    ensures { IfOk result (λ sub. Shows sub (tree_of (rows_at depth rows.now))) }
{
    let (value, mut rest) = ending(rows, depth);
    let mut kids = no_children(alloc)?;
    let mut kids_usage = 0;
    for nibble in 0..16 {
        let (run, others) = rest.split_at(run_length(rest, depth, nibble));
        let (name, usage) = named(alloc, run, depth + 1)?;
        kids.set(nibble, name);
        kids_usage += usage;
        rest = others;
    }
    fork_of(alloc, value, &kids, kids_usage)
}

// The functions below are calls of their own so that a place of the trie takes little of the stack
// while those below it are built.

#[inline(never)]
fn name_of(alloc: Global, sub: Sub) -> Result<(Option<Digest>, u64), AllocError>
    requires closes { MayClose sub }
    requires fits { usage_of sub < 2 ^ 64 }
    ensures { IfOk result (λ name. (tree : Tree) → Shows sub tree → IsName name tree) }
{
    match sub.name(alloc) {
        Ok(name) => Ok(name),
        Err(CloseError::NoMemory) => Err(AllocError),
        Err(CloseError::Usage) => unreachable!(),
    }
}

/// The trie of one row from a depth on.
#[inline(never)]
fn one(alloc: Global, key: &[u8], value: &[u8], depth: u64) -> Result<Sub, AllocError>
    requires deep { depth ≤ length (nibbles key.now) }
    requires value { length value.now ≤ longest_value }
    ensures { IfOk result (λ sub. Shows sub (leaf (drop depth (nibbles key.now)) value.now)) }
{
    let path = Nibbles::new(key);
    Ok(Sub::Leaf {
        path: nibbles_of(alloc, key, depth, path.len() - depth)?,
        value: value_ref(value),
    })
}

/// Puts some nibbles of a key before a subtree.
#[inline(never)]
fn under_nibbles(
    alloc: Global,
    sub: Sub,
    key: &[u8],
    from: u64,
    count: u64,
) -> Result<Sub, AllocError>
    requires { from + count ≤ length (nibbles key.now) }
    ensures { IfOk result (λ grows. (tree : Tree) → Shows sub tree → Shows grows (grown (take count (drop from (nibbles key.now))) tree)) }
{
    let prefix = nibbles_of(alloc, key, from, count)?;
    sub.under(alloc, prefix.as_slice())
}

#[inline(never)]
fn no_children(alloc: Global) -> Result<Box<Kids>, AllocError>
    ensures { IfOk result (λ kids. length kids.value ≡ 16) }
{
    Ok(Box::new(alloc, Kids::NONE)?)
}

/// A branch whose record is written.
#[inline(never)]
fn fork_of(
    alloc: Global,
    value: Option<ValueRef>,
    kids: &Kids,
    kids_usage: u64,
) -> Result<Sub, AllocError>
    requires shaped { IsShaped (node.branch (option_map value_of value) (children_in kids.now)) }
    requires fits { own_cost (node.branch (option_map value_of value) (children_in kids.now)) + kids_usage < 2 ^ 64 }
    ensures { IfOk result (λ sub. (rows : List Row) → IsBranchOf rows (option_map value_of value) (children_in kids.now) kids_usage → Shows sub (tree_of rows)) }
{
    match close_branch(alloc, value, kids, kids_usage) {
        Ok(closed) => Ok(Sub::Branch {
            digest: closed.digest,
            usage: closed.usage,
        }),
        Err(CloseError::NoMemory) => Err(AllocError),
        Err(CloseError::Usage) => unreachable!(),
    }
}
