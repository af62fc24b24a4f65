//! Writing the parts of a recording.

ghost use Rattle.std.specs.Prelude.{◌≡◌, ◌++◌, ◌<◌, ◌^◌, length, IfSome, OnOk};
ghost use Rattle.std.specs.Option.{option_copied};
ghost use Rattle.std.specs.FinMap.{entries};
ghost use Rattle.byte_model.specs.Nibbles.{AreBytes};
ghost use Rattle.byte_model.specs.Borsh.{borsh_u32};
ghost use Rattle.byte_model.specs.Node.{digest_width};
ghost use Rattle.trie_model.specs.Root.{NoClash};
ghost use Rattle.partial_model.specs.Partial.{IsPartial, spelled_texts, spelled_partial};
ghost use Rattle.partial_model.specs.Recording.{spelled_change, spelled_changes};
ghost use Rattle.base_core.specs.ChangeMaps.{IsChangeMap};
ghost use Rattle.partial_state.specs.Operations.{AreReads};

use base_core::{Changes, Text, Writer};
use std::alloc::{AllocError, Global};
use text_store::PartialTexts;

/// The root.
pub(crate) fn write_root(writer: &mut Writer, root: &[u8]) -> Result<(), AllocError>
    requires { length root.now ≡ digest_width }
    ensures ok { OnOk result (writer.new ≡ writer.old ++ root.now) }
    ensures held { AreBytes root.now × (length root.now ≡ digest_width) }
{
    writer.put_raw(root)
}

/// How many keys are read, and the keys.
pub(crate) fn write_reads(writer: &mut Writer, reads: &[Text]) -> Result<(), AllocError>
    requires { AreReads reads.now }
    ensures { OnOk result (writer.new ≡ writer.old ++ (borsh_u32 (length reads.now) ++ spelled_texts reads.now)) }
{
    writer.put_u32(reads.len() as u32)?;
    for key in reads {
        writer.put_bytes(key.as_slice())?;
    }
    Ok(())
}

/// How many keys are changed, and the changes by rising keys.
pub(crate) fn write_changes(
    alloc: Global,
    writer: &mut Writer,
    changes: &Changes,
) -> Result<(), AllocError>
    ensures ok { OnOk result (writer.new ≡ writer.old ++ (borsh_u32 (length (entries changes.now.changes)) ++ spelled_changes (entries changes.now.changes))) }
    ensures held { OnOk result (IsChangeMap changes.now) }
{
    let rows = changes.rows(alloc)?;
    writer.put_u32(rows.len() as u32)?;
    for row in rows.as_slice() {
        write_change(writer, row.0, row.1)?;
    }
    Ok(())
}

/// A key and what it becomes.
fn write_change(writer: &mut Writer, key: &[u8], value: Option<&[u8]>) -> Result<(), AllocError>
    requires key { length key.now < 2 ^ 32 }
    requires value { IfSome value (λ v. length v.now < 2 ^ 32) }
    ensures { OnOk result (writer.new ≡ writer.old ++ spelled_change (key.now, option_copied value.entry)) }
{
    writer.put_bytes(key)?;
    match value {
        Some(value) => {
            writer.put_u8(1)?;
            writer.put_bytes(value)
        }
        None => writer.put_u8(0),
    }
}

/// The texts of a partial state, as Borsh spells it.
pub(crate) fn write_state(writer: &mut Writer, state: &PartialTexts) -> Result<(), AllocError>
    ensures ok { OnOk result (writer.new ≡ writer.old ++ spelled_partial state.now.texts) }
    ensures held { OnOk result (IsPartial state.now.texts × NoClash state.now.texts) }
{
    writer.put_u8(0)?;
    writer.put_u32(state.len() as u32)?;
    for place in 0..state.len() {
        writer.put_bytes(state.at(place))?;
    }
    Ok(())
}
