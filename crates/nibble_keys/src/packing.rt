ghost use Rattle.std.specs.Prelude.{◌≡◌, ◌+◌, ◌*◌, ◌/◌, ◌%◌, ◌<◌, ◌≤◌, ◌++◌, ℕ, Bool, List, length, IfOk, OnOk};
ghost use Rattle.byte_model.specs.Nibbles.{AreNibbles};
ghost use Rattle.byte_model.specs.Nibbles as keys;
ghost use Rattle.byte_model.specs.PackedPath.{packed, two_to_a_byte, longest_path};

use crate::flags::{LEAF_FLAG, ODD_FLAG};
use base_core::{Text, Writer};
use std::alloc::{AllocError, Global};

/// How many bytes a path of so many nibbles is packed into.
pub fn packed_len(nibbles: usize) -> usize
    ensures value { result ≡ 1 + nibbles / 2 }
    ensures packed { (leaf : Bool) (path : List ℕ) → length path ≡ nibbles → result ≡ length (packed leaf path) }
{
    1 + nibbles / 2
}

/// Packs a path of nibbles, one to a byte, that ends at a leaf or not.
pub fn pack(alloc: Global, nibbles: &[u8], leaf: bool) -> Result<Text, AllocError>
    requires nibbles { AreNibbles nibbles.now }
    requires short { length nibbles.now ≤ longest_path }
    ensures { IfOk result (λ text. text ≡ packed leaf nibbles.now) }
{
    let mut writer = Writer::with_capacity(alloc, packed_len(nibbles.len()))?;
    put_packed(&mut writer, nibbles, leaf)?;
    Ok(writer.into_text())
}

/// Writes a packed path. Where no memory is left, some of it may have been written.
pub fn put_packed(writer: &mut Writer, nibbles: &[u8], leaf: bool) -> Result<(), AllocError>
    requires { AreNibbles nibbles.now }
    ensures { OnOk result (writer.new ≡ writer.old ++ packed leaf nibbles.now) }
{
    let flags = if leaf { LEAF_FLAG } else { 0 };
    if nibbles.len() % 2 == 0 {
        writer.put_u8(flags)?;
        put_pairs(writer, nibbles)
    } else {
        writer.put_u8(flags + ODD_FLAG + nibbles[0])?;
        put_pairs(writer, &nibbles[1..])
    }
}

/// The key that has these nibbles, one to a byte.
pub fn join_nibbles(alloc: Global, nibbles: &[u8]) -> Result<Text, AllocError>
    requires nibbles { AreNibbles nibbles.now }
    requires even { length nibbles.now % 2 ≡ 0 }
    ensures { IfOk result (λ key. keys.nibbles key ≡ nibbles.now) }
{
    let mut writer = Writer::with_capacity(alloc, nibbles.len() / 2)?;
    put_pairs(&mut writer, nibbles)?;
    Ok(writer.into_text())
}

/// Writes two nibbles to a byte.
fn put_pairs(writer: &mut Writer, nibbles: &[u8]) -> Result<(), AllocError>
    requires nibbles { AreNibbles nibbles.now }
    requires even { length nibbles.now % 2 ≡ 0 }
    ensures { OnOk result (writer.new ≡ writer.old ++ two_to_a_byte nibbles.now) }
{
    for i in 0..nibbles.len() / 2 {
        writer.put_u8(16 * nibbles[2 * i] + nibbles[2 * i + 1])?;
    }
    Ok(())
}
