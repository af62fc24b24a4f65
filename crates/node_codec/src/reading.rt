ghost use Rattle.std.specs.Prelude.{◌≡◌, ℕ, List, IfOk, IsOkAnd};
ghost use Rattle.byte_model.specs.Nibbles.{AreBytes};
ghost use Rattle.byte_model.specs.Node.{Node};
ghost use Rattle.byte_model.specs.Laws.{SameNode};
ghost use Rattle.record_model.specs.Records.{IsRecord, record_in, node_in, suited};
ghost use Rattle.node_codec.specs.Layouts.{layout_viewed};
ghost use Rattle.node_codec.specs.Views.{Answers, node_viewed};

use crate::layout::{Layout, read_layout};
use crate::node_error::NodeError;
use crate::node_view::NodeView;
use nibble_keys::{PackError, Packed};

/// Reads the record of a node where it stands: the node, and the usage that the record states. It
/// takes no memory, and accepts exactly the one spelling of each node (`write_node` gives it).
#[inline(always)]
pub fn read_node(bytes: &[u8]) -> Result<(NodeView<'_>, u64), NodeError>
    // What is read is spelled so.
    ensures found { IfOk result (λ r. IsRecord (node_viewed r.0) r.1 bytes.now) }
    // What is spelled so is read.
    ensures only { (node : Node) (usage : ℕ) → IsRecord node usage bytes.now → IsOkAnd result (λ r. SameNode (node_viewed r.0) node × (r.1 ≡ usage)) }
    // What is wrong first.
    ensures exact { Answers (λ r. (node_viewed r.0, r.1)) result (record_in bytes.now) }
{
    read_record(bytes)
}

#[tactic(auto, unfolding(record_model::specs::Records::record_in))]
#[inline(always)]
fn read_record(bytes: &[u8]) -> Result<(NodeView<'_>, u64), NodeError>
    ensures read { Answers (λ r. (node_viewed r.0, r.1)) result (record_in bytes.now) }
    ensures bytes { AreBytes bytes.now }
{
    match read_layout(bytes) {
        Err(error) => Err(NodeError::Frame(error)),
        Ok((layout, usage)) => {
            let node = read_fields(layout)?;
            Ok((node, usage))
        }
    }
}

/// The node of a record's fields.
#[tactic(auto, unfolding(record_model::specs::Records::node_in, record_model::specs::Records::shaped))]
#[inline(always)]
fn read_fields(layout: Layout<'_>) -> Result<NodeView<'_>, NodeError>
    ensures { Answers node_viewed result (node_in (layout_viewed layout.entry)) }
{
    let node = match layout {
        Layout::Leaf { packed, value } => NodeView::Leaf {
            path: read_path(packed, true)?,
            value,
        },
        Layout::Branch { value, kids } => NodeView::Branch { value, kids },
        Layout::Extension { packed, child } => NodeView::Extension {
            path: read_path(packed, false)?,
            child,
        },
    };
    if node.is_shaped() {
        Ok(node)
    } else {
        Err(NodeError::Shape)
    }
}

/// A path whose leaf flag is as the kind of the node wants it.
#[tactic(auto, unfolding(record_model::specs::Records::suited))]
fn read_path(packed: &[u8], ends: bool) -> Result<Packed<'_>, NodeError>
    ensures { Answers (λ path. path) result (suited ends packed.now) }
{
    match Packed::read(packed) {
        Err(error) => Err(NodeError::Path(error)),
        Ok((path, leaf)) if leaf == ends => Ok(path),
        Ok(_) => Err(NodeError::Path(PackError::Flag)),
    }
}
