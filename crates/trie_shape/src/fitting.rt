ghost use Rattle.std.specs.Prelude.{◌≡◌};
ghost use Rattle.std.specs.Option.{option_map};
ghost use Rattle.record_model.specs.Fits.{fits_at};
ghost use Rattle.node_codec.specs.Views.{node_viewed};
ghost use Rattle.record_model.specs.Fits.{fitting_node};

use nibble_keys::LONGEST_PATH;
use node_codec::{NodeView, read_node};

/// Whether a node may stand below so many nibbles, as the child of an extension or not. It takes no
/// memory.
///
/// Where a key ends, its nibbles are those of whole bytes and no more than the longest key has.
/// Where keys go on, one nibble more has room. What an extension leads to is a branch. The shape of
/// the node itself is asked for at every place.
#[tactic(auto, unfolding(record_model::specs::Fits::has_place))]
pub fn fits(view: &NodeView<'_>, depth: u64, after_extension: bool) -> bool
    ensures { result ≡ fits_at depth after_extension (node_viewed view.now) }
{
    if !view.is_shaped() {
        return false;
    }
    match view {
        NodeView::Leaf { path, .. } => {
            let Some(end) = depth.checked_add(path.len()) else {
                return false;
            };
            end % 2 == 0 && end <= LONGEST_PATH && !after_extension
        }
        NodeView::Branch { value, .. } => {
            depth < LONGEST_PATH && (value.is_none() || depth % 2 == 0)
        }
        NodeView::Extension { path, .. } => {
            let Some(end) = depth.checked_add(path.len()) else {
                return false;
            };
            end < LONGEST_PATH && !after_extension
        }
    }
}

/// The node that a text spells, with the usage that its record states, if such a node may stand
/// there: below so many nibbles, as the child of an extension or not. It takes no memory.
#[inline(always)]
pub fn fitting_node(text: &[u8], depth: u64, after_extension: bool) -> Option<(NodeView<'_>, u64)>
    ensures { option_map (λ found. (node_viewed found.0, found.1)) result ≡ fitting_node depth after_extension text.now }
{
    match read_node(text) {
        Ok((node, usage)) if fits(&node, depth, after_extension) => Some((node, usage)),
        _ => None,
    }
}
