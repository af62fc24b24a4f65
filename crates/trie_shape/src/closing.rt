ghost use Rattle.std.specs.Prelude.{◌≡◌, ◌+◌, ◌^◌, ◌<◌, ◌≤◌, ◌↔◌, ℕ, List, Option, length, option_map, None, Err, IfOk};
ghost use Rattle.sha2.specs.Sha256.{sha256};
ghost use Rattle.byte_model.specs.Nibbles.{AreNibbles};
ghost use Rattle.byte_model.specs.PackedPath.{longest_path};
ghost use Rattle.byte_model.specs.Node.{leaf, branch, extension, own_cost, IsShaped};
ghost use Rattle.trie_model.specs.Tree.{Tree, tree_of};
ghost use Rattle.trie_model.specs.Tree as tree;
ghost use Rattle.trie_model.specs.State.{Row};
ghost use Rattle.trie_model.specs.Texts.{value_ref};
ghost use Rattle.node_codec.specs.Meanings.{value_of, children_in};
ghost use Rattle.trie_shape.specs.declared.close_error.CloseError.TheVariants.{Usage};
ghost use Rattle.trie_shape.specs.Shows.{IsRecord, IsTop, AreChildren, IsBranchOf};

use crate::close_error::CloseError;
use crate::closed::Closed;
use crate::costs::{branch_cost, extension_cost, leaf_cost};
use base_core::{Digest, Text, digest};
use node_codec::{Kids, ValueRef, write_branch, write_extension, write_leaf};
use std::alloc::{AllocError, Global};

/// Writes the record of a branch, whose children together have this usage.
pub fn close_branch(
    alloc: Global,
    value: Option<ValueRef>,
    kids: &Kids,
    kids_usage: u64,
) -> Result<Closed, CloseError>
    requires { IsShaped (branch (option_map value_of value) (children_in kids.now)) }
    ensures usage { (result ≡ Err Usage) ↔ (2 ^ 64 ≤ own_cost (branch (option_map value_of value) (children_in kids.now)) + kids_usage) }
    ensures written { IfOk result (λ closed. IsRecord closed (branch (option_map value_of value) (children_in kids.now)) (own_cost (branch (option_map value_of value) (children_in kids.now)) + kids_usage)) }
    ensures shows { IfOk result (λ closed. (v : Option (List ℕ)) (trees : ℕ → Tree) → option_map value_of value ≡ option_map value_ref v → AreChildren (children_in kids.now) kids_usage trees → IsTop closed (tree.branch v trees)) }
    ensures rows { IfOk result (λ closed. (rows : List Row) → IsBranchOf rows (option_map value_of value) (children_in kids.now) kids_usage → IsTop closed (tree_of rows)) }
{
    match branch_cost(&value).checked_add(kids_usage) {
        None => Err(CloseError::Usage),
        Some(usage) => match write_branch(alloc, &value, kids, usage) {
            Ok(text) => Ok(closed(text, usage)),
            Err(AllocError) => Err(CloseError::NoMemory),
        },
    }
}

pub(crate) fn close_leaf(alloc: Global, path: &[u8], value: &ValueRef) -> Result<Closed, AllocError>
    requires nibbles { AreNibbles path.now }
    requires short { length path.now ≤ longest_path }
    ensures written { IfOk result (λ closed. IsRecord closed (leaf path.now (value_of value.now)) (own_cost (leaf path.now (value_of value.now)))) }
    ensures fits { own_cost (leaf path.now (value_of value.now)) < 2 ^ 64 }
{
    let usage = leaf_cost(path, value);
    let text = write_leaf(alloc, path, value, usage)?;
    Ok(closed(text, usage))
}

pub(crate) fn close_extension(
    alloc: Global,
    path: &[u8],
    child: &Digest,
    child_usage: u64,
) -> Result<Closed, CloseError>
    requires nibbles { AreNibbles path.now }
    requires short { length path.now ≤ longest_path }
    ensures usage { (result ≡ Err Usage) ↔ (2 ^ 64 ≤ own_cost (extension path.now child.now.0) + child_usage) }
    ensures written { IfOk result (λ closed. IsRecord closed (extension path.now child.now.0) (own_cost (extension path.now child.now.0) + child_usage)) }
{
    match extension_cost(path).checked_add(child_usage) {
        None => Err(CloseError::Usage),
        Some(usage) => match write_extension(alloc, path, child, usage) {
            Ok(text) => Ok(closed(text, usage)),
            Err(AllocError) => Err(CloseError::NoMemory),
        },
    }
}

fn closed(text: Text, usage: u64) -> Closed
    ensures text { result.text ≡ text }
    ensures digest { result.digest.0 ≡ sha256 text }
    ensures usage { result.usage ≡ usage }
{
    let digest = digest(text.as_slice());
    Closed {
        text,
        digest,
        usage,
    }
}
