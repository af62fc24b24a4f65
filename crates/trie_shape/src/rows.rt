ghost use Rattle.std.specs.Prelude.{◌≡◌, ◌+◌, ◌≤◌, [], length, take, drop, option_map, IfOk};
ghost use Rattle.byte_model.specs.Nibbles.{nibbles};
ghost use Rattle.byte_model.specs.Node.{longest_value};
ghost use Rattle.trie_model.specs.Tree.{common, ends_here};
ghost use Rattle.trie_model.specs.Texts as texts;
ghost use Rattle.node_codec.specs.Meanings.{value_of};
ghost use Rattle.trie_shape.specs.Runs.{Rises, AllFrom, goes_on, run_of};
ghost use Rattle.trie_shape.specs.RowsAt.{rows_at, AreRowsAt, IsLeft};

use base_core::{Text, Writer, digest};
use nibble_keys::Nibbles;
use node_codec::ValueRef;
use std::alloc::{AllocError, Global};

/// A key and its value.
pub(crate) type KeyValue<'a> = (&'a [u8], &'a [u8]);

/// How a node names a value.
pub fn value_ref(value: &[u8]) -> ValueRef
    requires { length value.now ≤ longest_value }
    ensures { value_of result ≡ texts.value_ref value.now }
{
    ValueRef {
        length: value.len() as u32,
        digest: digest(value),
    }
}

/// Some nibbles of a key, one to a byte.
pub(crate) fn nibbles_of(
    alloc: Global,
    key: &[u8],
    from: u64,
    count: u64,
) -> Result<Text, AllocError>
    requires { from + count ≤ length (nibbles key.now) }
    ensures { IfOk result (λ text. text ≡ take count (drop from (nibbles key.now))) }
{
    let path = Nibbles::new(key).rest(from);
    let mut writer = Writer::with_capacity(alloc, count as usize)?;
    for i in 0..count {
        writer.put_u8(path.at(i))?;
    }
    Ok(writer.into_text())
}

/// How many nibbles two keys share from a depth on.
pub(crate) fn shared_length(first: &[u8], last: &[u8], depth: u64) -> u64
    requires first { depth ≤ length (nibbles first.now) }
    requires last { depth ≤ length (nibbles last.now) }
    ensures { result ≡ length (common (drop depth (nibbles first.now)) (drop depth (nibbles last.now))) }
{
    let path = Nibbles::new(first).rest(depth);
    path.common(&Nibbles::new(last).rest(depth))
}

/// The value of the row whose key ends at a depth, if one does, and the rows that go on.
pub(crate) fn ending<'a, 'b>(
    rows: &'a [KeyValue<'b>],
    depth: u64,
) -> (Option<ValueRef>, &'a [KeyValue<'b>])
    requires { AreRowsAt depth rows.now }
    ensures value { option_map value_of result.0 ≡ option_map texts.value_ref (ends_here (rows_at depth rows.now)) }
    ensures left { IsLeft 0 depth rows.now result.1.now }
{
    let Some((&(key, value), rest)) = rows.split_first() else {
        return (None, rows);
    };
    if Nibbles::new(key).len() == depth {
        (Some(value_ref(value)), rest)
    } else {
        (None, rows)
    }
}

/// How many rows go on with a nibble at a depth, where none goes on with a lower one. They are the
/// first ones, so the place where they end is searched for.
pub(crate) fn run_length(rows: &[KeyValue<'_>], depth: u64, nibble: u8) -> usize
    requires rises { Rises (rows_at depth rows.now) }
    requires from { AllFrom nibble (rows_at depth rows.now) }
    ensures { result ≡ run_of nibble (rows_at depth rows.now) }
{
    rows.partition_point(|(key, _)| goes_on(key, depth, nibble))
}

fn goes_on(key: &[u8], depth: u64, nibble: u8) -> bool
    ensures { result ≡ goes_on nibble (drop depth (nibbles key.now)) }
{
    let path = Nibbles::new(key);
    depth < path.len() && path.at(depth) == nibble
}
