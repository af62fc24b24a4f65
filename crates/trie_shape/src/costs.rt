ghost use Rattle.std.specs.Prelude.{◌≡◌, ◌+◌, ◌*◌, ◌-◌, ◌^◌, ◌≤◌, ℕ, Bool, List, Option, length, min};
ghost use Rattle.std.specs.Option.{option_map};
ghost use Rattle.byte_model.specs.PackedPath.{longest_path, packed};
ghost use Rattle.byte_model.specs.Node.{leaf, branch, extension, own_cost};
ghost use Rattle.node_codec.specs.Meanings.{value_of};
ghost use Rattle.node_codec.specs.Views.{node_viewed};

use nibble_keys::packed_len;
use node_codec::{NodeView, ValueRef};

/// What a node costs by itself, and what each byte of its path and its value add.
const NODE_COST: u64 = 50;

const PATH_BYTE_COST: u64 = 2;

const VALUE_COST: u64 = 50;

/// The price of a node without what is below it: 50 for the node, 2 a byte for its packed path, and
/// for a value 50 and 1 a byte. A price past the end of eight bytes, which no record can have, stops
/// there. It takes no memory.
#[tactic(auto, unfolding(byte_model::specs::Node::own_cost))]
pub fn own_cost(view: &NodeView<'_>) -> u64
    ensures { result ≡ min (own_cost (node_viewed view.now)) (2 ^ 64 - 1) }
{
    match view {
        NodeView::Leaf { path, value } => {
            path_cost(path.len()).saturating_add(VALUE_COST + value.length as u64)
        }
        NodeView::Branch { value, .. } => branch_cost(value),
        NodeView::Extension { path, .. } => path_cost(path.len()),
    }
}

/// What a node with a path of so many nibbles costs without its value.
fn path_cost(nibbles: u64) -> u64
    ensures { (leaf : Bool) (path : List ℕ) → length path ≡ nibbles → result ≡ min (50 + 2 * length (packed leaf path)) (2 ^ 64 - 1) }
{
    let path_bytes = packed_len(nibbles as usize) as u64;
    PATH_BYTE_COST
        .saturating_mul(path_bytes)
        .saturating_add(NODE_COST)
}

#[tactic(auto, unfolding(byte_model::specs::Node::own_cost))]
pub(crate) fn leaf_cost(path: &[u8], value: &ValueRef) -> u64
    requires { length path.now ≤ longest_path }
    ensures { result ≡ own_cost (leaf path.now (value_of value.now)) }
{
    let value_bytes = value.length as u64;
    NODE_COST + PATH_BYTE_COST * packed_len(path.len()) as u64 + VALUE_COST + value_bytes
}

#[tactic(auto, unfolding(byte_model::specs::Node::own_cost))]
pub(crate) fn extension_cost(path: &[u8]) -> u64
    requires { length path.now ≤ longest_path }
    ensures { (child : List ℕ) → result ≡ own_cost (extension path.now child) }
{
    NODE_COST + PATH_BYTE_COST * packed_len(path.len()) as u64
}

#[tactic(auto, unfolding(byte_model::specs::Node::own_cost))]
pub(crate) fn branch_cost(value: &Option<ValueRef>) -> u64
    ensures { (kids : ℕ → Option (List ℕ)) → result ≡ own_cost (branch (option_map value_of value.now) kids) }
{
    match value {
        Some(value) => NODE_COST + VALUE_COST + value.length as u64,
        None => NODE_COST,
    }
}
