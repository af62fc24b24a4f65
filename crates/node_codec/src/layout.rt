ghost use Rattle.std.specs.Prelude.{◌≡◌, ◌*◌, ◌≤◌, length, IfOk};
ghost use Rattle.byte_model.specs.Node.{digest_width};
ghost use Rattle.record_model.specs.Fields.{bytes_at, digests_at};
ghost use Rattle.record_model.specs.Records.{value_at, children_at, leaf_at, branch_at, branch_with_value_at, extension_at, kind_at, layout_at, layout_of};
ghost use Rattle.base_core.specs.Reading.{Answers, Follows};
ghost use Rattle.node_codec.specs.Meanings.{value_of};
ghost use Rattle.node_codec.specs.Layouts.{layout_viewed, children_pair};

use crate::kids_view::{KidsView, bit_count};
use crate::ordinals::{BRANCH, BRANCH_WITH_VALUE, EXTENSION, LEAF};
use crate::value_ref::ValueRef;
use base_core::{BorshError, DIGEST_BYTES, Digest, Reader};

/// The fields of a record, before anything is asked of its path and its shape.
#[derive(Debug, Drop)]
pub(crate) enum Layout<'a> {
    Leaf {
        packed: &'a [u8],
        value: ValueRef,
    },
    Branch {
        value: Option<ValueRef>,
        kids: KidsView<'a>,
    },
    Extension {
        packed: &'a [u8],
        child: Digest,
    },
}

/// The fields of a record, and the usage that it states.
#[tactic(auto, unfolding(record_model::specs::Records::layout_of, record_model::specs::Records::layout_at, record_model::specs::Fields::end_of))]
#[inline(always)]
pub(crate) fn read_layout(bytes: &[u8]) -> Result<(Layout<'_>, u64), BorshError>
    ensures { Answers (λ r. (layout_viewed r.0, r.1)) result (layout_of bytes.now) }
{
    let mut reader = Reader::new(bytes);
    let at = reader.place();
    let kind = reader.u8()?;
    let layout = read_kind(&mut reader, at, kind)?;
    let usage = reader.u64()?;
    reader.end()?;
    Ok((layout, usage))
}

/// The fields behind the ordinal of a kind, which stands at this offset.
#[tactic(auto, unfolding(record_model::specs::Records::kind_at))]
#[inline(always)]
fn read_kind<'a>(reader: &mut Reader<'a>, at: u64, kind: u8) -> Result<Layout<'a>, BorshError>
    ensures { Follows layout_viewed result reader.old reader.new (kind_at at kind) }
{
    match kind {
        LEAF => read_leaf(reader),
        BRANCH => read_branch(reader),
        BRANCH_WITH_VALUE => read_branch_with_value(reader),
        EXTENSION => read_extension(reader),
        _ => Err(BorshError::Ordinal { at }),
    }
}

#[tactic(auto, unfolding(record_model::specs::Records::leaf_at))]
fn read_leaf<'a>(reader: &mut Reader<'a>) -> Result<Layout<'a>, BorshError>
    ensures { Follows layout_viewed result reader.old reader.new leaf_at }
{
    let packed = reader.bytes()?;
    let value = read_value(reader)?;
    Ok(Layout::Leaf { packed, value })
}

#[tactic(auto, unfolding(record_model::specs::Records::branch_at))]
fn read_branch<'a>(reader: &mut Reader<'a>) -> Result<Layout<'a>, BorshError>
    ensures { Follows layout_viewed result reader.old reader.new branch_at }
{
    let kids = read_children(reader)?;
    Ok(Layout::Branch { value: None, kids })
}

#[tactic(auto, unfolding(record_model::specs::Records::branch_with_value_at))]
fn read_branch_with_value<'a>(reader: &mut Reader<'a>) -> Result<Layout<'a>, BorshError>
    ensures { Follows layout_viewed result reader.old reader.new branch_with_value_at }
{
    let value = read_value(reader)?;
    let kids = read_children(reader)?;
    Ok(Layout::Branch {
        value: Some(value),
        kids,
    })
}

#[tactic(auto, unfolding(record_model::specs::Records::extension_at))]
fn read_extension<'a>(reader: &mut Reader<'a>) -> Result<Layout<'a>, BorshError>
    ensures { Follows layout_viewed result reader.old reader.new extension_at }
{
    let packed = reader.bytes()?;
    let child = reader.digest()?;
    Ok(Layout::Extension { packed, child })
}

#[tactic(auto, unfolding(record_model::specs::Records::value_at))]
fn read_value(reader: &mut Reader<'_>) -> Result<ValueRef, BorshError>
    ensures { Follows value_of result reader.old reader.new value_at }
{
    let length = reader.u32()?;
    let digest = reader.digest()?;
    Ok(ValueRef { length, digest })
}

#[tactic(auto, unfolding(record_model::specs::Records::children_at))]
fn read_children<'a>(reader: &mut Reader<'a>) -> Result<KidsView<'a>, BorshError>
    ensures { Follows children_pair result reader.old reader.new children_at }
{
    let bitmap = reader.u16()?;
    let digests = read_digests(reader, bit_count(bitmap))?;
    Ok(KidsView::new(bitmap, digests))
}

/// The bytes of so many digests. Where they run past the end, the first that does is to blame.
fn read_digests<'a>(reader: &mut Reader<'a>, count: u64) -> Result<&'a [u8], BorshError>
    requires { count ≤ 16 }
    ensures read { Follows (λ digests. digests.now) result reader.old reader.new (digests_at count) }
    ensures length { IfOk result (λ digests. length digests.now ≡ digest_width * count) }
{
    let width = DIGEST_BYTES as u64;
    let whole = reader.left() / width;
    if whole < count {
        let at = reader.place() + whole * width;
        return Err(BorshError::Short { at });
    }
    reader.take(count * width)
}
