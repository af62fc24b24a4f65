ghost use Rattle.std.specs.Prelude.{◌≡◌, ◌≤◌, ◌++◌, List, length, Bool, Option, IfOk, OnOk};
ghost use Rattle.std.specs.Option.{option_map};
ghost use Rattle.byte_model.specs.Below.{sum_below};
ghost use Rattle.byte_model.specs.Borsh.{borsh_bytes};
ghost use Rattle.byte_model.specs.Nibbles.{AreNibbles};
ghost use Rattle.byte_model.specs.PackedPath.{packed, longest_path};
ghost use Rattle.byte_model.specs.Node.{spelled, spelled_value, spelled_children, child_bit, IsShaped, leaf, branch, extension};
ghost use Rattle.node_codec.specs.Meanings.{value_of, children_in, node_of, path_of};

use crate::kids::Kids;
use crate::node::Node;
use crate::ordinals::{BRANCH, BRANCH_WITH_VALUE, EXTENSION, LEAF};
use crate::value_ref::ValueRef;
use base_core::{DIGEST_BYTES, Digest, Text, Writer};
use nibble_keys::{packed_len, put_packed};
use std::alloc::{AllocError, Global};

/// Bytes of a value's length and digest.
const VALUE_BYTES: usize = 4 + DIGEST_BYTES;

/// Bytes of a usage.
const USAGE_BYTES: usize = 8;

/// The record of a node whose subtree has this usage, made in one buffer of its size. The only
/// error is want of memory.
pub fn write_node(alloc: Global, node: &Node, usage: u64) -> Result<Text, AllocError>
    requires nibbles { AreNibbles (path_of node.now) }
    requires short { length (path_of node.now) ≤ longest_path }
    requires shaped { IsShaped (node_of node.now) }
    ensures { IfOk result (λ text. text ≡ spelled (node_of node.now) usage) }
{
    match node {
        Node::Leaf { path, value } => write_leaf(alloc, path.as_slice(), value, usage),
        Node::Branch { value, kids } => write_branch(alloc, value, kids, usage),
        Node::Extension { path, child } => write_extension(alloc, path.as_slice(), child, usage),
    }
}

/// Writes the record of a leaf, whose path is nibbles, one to a byte.
#[tactic(auto, unfolding(byte_model::specs::Node::spelled))]
pub fn write_leaf(
    alloc: Global,
    path: &[u8],
    value: &ValueRef,
    usage: u64,
) -> Result<Text, AllocError>
    requires nibbles { AreNibbles path.now }
    requires short { length path.now ≤ longest_path }
    ensures { IfOk result (λ text. text ≡ spelled (leaf path.now (value_of value.now)) usage) }
{
    let size = 1 + 4 + packed_len(path.len()) + VALUE_BYTES + USAGE_BYTES;
    let mut writer = Writer::with_capacity(alloc, size)?;
    writer.put_u8(LEAF)?;
    put_path(&mut writer, path, true)?;
    put_value(&mut writer, value)?;
    writer.put_u64(usage)?;
    Ok(writer.into_text())
}

/// Writes the record of a branch. That it has two of children and value is the caller's to see to.
#[tactic(auto, unfolding(byte_model::specs::Node::spelled))]
pub fn write_branch(
    alloc: Global,
    value: &Option<ValueRef>,
    kids: &Kids,
    usage: u64,
) -> Result<Text, AllocError>
    ensures { IfOk result (λ text. text ≡ spelled (branch (option_map value_of value.now) (children_in kids.now)) usage) }
{
    let value_bytes = if value.is_some() { VALUE_BYTES } else { 0 };
    let size = 1 + value_bytes + 2 + DIGEST_BYTES * kids.count() as usize + USAGE_BYTES;
    let mut writer = Writer::with_capacity(alloc, size)?;
    match value {
        None => writer.put_u8(BRANCH)?,
        Some(value) => {
            writer.put_u8(BRANCH_WITH_VALUE)?;
            put_value(&mut writer, value)?;
        }
    }
    put_children(&mut writer, kids)?;
    writer.put_u64(usage)?;
    Ok(writer.into_text())
}

/// Writes the record of an extension, whose path is nibbles, one to a byte. That it is not empty is
/// the caller's to see to.
#[tactic(auto, unfolding(byte_model::specs::Node::spelled))]
pub fn write_extension(
    alloc: Global,
    path: &[u8],
    child: &Digest,
    usage: u64,
) -> Result<Text, AllocError>
    requires nibbles { AreNibbles path.now }
    requires short { length path.now ≤ longest_path }
    ensures { IfOk result (λ text. text ≡ spelled (extension path.now child.now.0) usage) }
{
    let size = 1 + 4 + packed_len(path.len()) + DIGEST_BYTES + USAGE_BYTES;
    let mut writer = Writer::with_capacity(alloc, size)?;
    writer.put_u8(EXTENSION)?;
    put_path(&mut writer, path, false)?;
    writer.put_raw(&child.0)?;
    writer.put_u64(usage)?;
    Ok(writer.into_text())
}

fn put_path(writer: &mut Writer, path: &[u8], leaf: bool) -> Result<(), AllocError>
    requires nibbles { AreNibbles path.now }
    requires short { length path.now ≤ longest_path }
    ensures { OnOk result (writer.new ≡ writer.old ++ borsh_bytes (packed leaf path.now)) }
{
    writer.put_u32(packed_len(path.len()) as u32)?;
    put_packed(writer, path, leaf)
}

fn put_value(writer: &mut Writer, value: &ValueRef) -> Result<(), AllocError>
    ensures { OnOk result (writer.new ≡ writer.old ++ spelled_value (value_of value.now)) }
{
    writer.put_u32(value.length)?;
    writer.put_raw(&value.digest.0)
}

fn put_children(writer: &mut Writer, kids: &Kids) -> Result<(), AllocError>
    ensures { OnOk result (writer.new ≡ writer.old ++ spelled_children (children_in kids.now)) }
{
    writer.put_u16(bitmap(kids))?;
    for i in 0..16 {
        if let Some(digest) = kids.get(i) {
            writer.put_raw(&digest.0)?;
        }
    }
    Ok(())
}

/// Bit i, where bit 0 is the lowest, tells whether child i is there.
fn bitmap(kids: &Kids) -> u16
    ensures { result ≡ sum_below (child_bit (children_in kids.now)) 16 }
{
    let mut bits = 0;
    for i in 0..16 {
        if kids.get(i).is_some() {
            bits |= 1 << i;
        }
    }
    bits
}
