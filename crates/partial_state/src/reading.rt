//! Reading the reads and the changes of a recording. A count is believed only as far as keys are
//! there.

ghost use Rattle.std.specs.Prelude.{◌≡◌, ◌≤◌, ◌<◌, length, true, None, IfOk, IfSome, IsOk, OnOk, IsOkUnless};
ghost use Rattle.std.specs.List.{AllByRecursion};
ghost use Rattle.std.specs.Option.{option_copied};
ghost use Rattle.std.specs.FinMap.{entries};
ghost use Rattle.byte_model.specs.Nibbles.{longest_key};
ghost use Rattle.byte_model.specs.Node.{longest_value};
ghost use Rattle.batch_model.specs.Changes.{most_changes};
ghost use Rattle.partial_model.specs.Recording.{IsKey, follows, keys_at, reads_at, change_at, changes_from, changes_at};
ghost use Rattle.base_core.specs.declared.put_error.PutError.TheVariants.{NoMemory};
ghost use Rattle.base_core.specs.ChangeMaps.{changed};
ghost use Rattle.partial_state.specs.Operations.{AreReads};
ghost use Rattle.partial_state.specs.Recordings.{Reads};

use crate::fields::{read_becomes, read_count, read_within};
use crate::ops::MOST_READS;
use crate::proof_error::ProofError;
use base_core::{Changes, LONGEST_KEY, Limits, PutError, Reader, Text};
use std::alloc::{AllocError, Global};

/// The keys that are read.
pub(crate) fn read_reads(alloc: Global, reader: &mut Reader<'_>) -> Result<Vec<Text>, ProofError>
    ensures read { Reads (λ keys. keys.items) result reader.old reader.new reads_at }
    ensures keys { IfOk result (λ keys. AreReads keys.items) }
{
    let count = read_count(reader, MOST_READS)?;
    read_keys(alloc, reader, count)
}

fn read_keys(alloc: Global, reader: &mut Reader<'_>, count: u32) -> Result<Vec<Text>, ProofError>
    ensures read { Reads (λ keys. keys.items) result reader.old reader.new (keys_at count) }
    ensures count { IfOk result (λ keys. length keys.items ≡ count) }
    ensures each { IfOk result (λ keys. AllByRecursion IsKey keys.items) }
{
    let mut keys = Vec::new(alloc);
    for _ in 0..count {
        let key = Text::copy(alloc, read_within(reader, LONGEST_KEY)?)?;
        let Ok(()) = keys.push(key) else {
            return Err(ProofError::NoMemory);
        };
    }
    Ok(keys)
}

/// The changes, which stand by rising keys.
pub(crate) fn read_changes(alloc: Global, reader: &mut Reader<'_>) -> Result<Changes, ProofError>
    ensures read { Reads (λ changes. entries changes.changes) result reader.old reader.new changes_at }
    ensures most { IfOk result (λ changes. changes.most ≡ most_changes) }
{
    let count = read_count(reader, Limits::FULL.changes)?;
    read_batch(alloc, reader, count)
}

fn read_batch(alloc: Global, reader: &mut Reader<'_>, count: u32) -> Result<Changes, ProofError>
    requires { count ≤ most_changes }
    ensures read { Reads (λ changes. entries changes.changes) result reader.old reader.new (changes_from count None) }
    ensures most { IfOk result (λ changes. changes.most ≡ most_changes) }
{
    let mut changes = Changes::new(alloc, Limits::FULL.changes);
    let mut earlier: Option<&[u8]> = None;
    for _ in 0..count {
        let (key, value) = read_change(reader, earlier)?;
        put_change(alloc, &mut changes, key, value)?;
        earlier = Some(key);
    }
    Ok(changes)
}

/// A key and what it becomes, behind an earlier key.
fn read_change<'a>(
    reader: &mut Reader<'a>,
    earlier: Option<&[u8]>,
) -> Result<(&'a [u8], Option<&'a [u8]>), ProofError>
    ensures read { Reads (λ change. (change.0.now, option_copied change.1)) result reader.old reader.new (change_at (option_copied earlier.entry)) }
    ensures above { IfOk result (λ change. follows (option_copied earlier.entry) change.0.now ≡ true) }
    ensures key { IfOk result (λ change. length change.0.now ≤ longest_key) }
    ensures value { IfOk result (λ change. IfSome change.1 (λ v. length v.now ≤ longest_value)) }
{
    let at = reader.place();
    let key = read_within(reader, LONGEST_KEY)?;
    if !is_behind(key, earlier) {
        return Err(ProofError::Head { at });
    }
    Ok((key, read_becomes(reader)?))
}

/// Whether a key is above an earlier one, if there is one.
fn is_behind(key: &[u8], earlier: Option<&[u8]>) -> bool
    ensures { result ≡ follows (option_copied earlier.entry) key.now }
{
    match earlier {
        Some(earlier) => earlier < key,
        None => true,
    }
}

/// A key becomes a value, or is deleted.
fn put_change(
    alloc: Global,
    changes: &mut Changes,
    key: &[u8],
    value: Option<&[u8]>,
) -> Result<(), AllocError>
    requires key { length key.now ≤ longest_key }
    requires value { IfSome value (λ v. length v.now ≤ longest_value) }
    requires room { length (entries changes.old.changes) < changes.old.most }
    ensures ok { OnOk result (changes.new ≡ changed changes.old key.now (option_copied value.entry)) }
{
    let key = Text::copy(alloc, key)?;
    match value {
        Some(value) => only_memory(changes.put(key, Text::copy(alloc, value)?)),
        None => only_memory(changes.remove(key)),
    }
}

/// What was answered to a change that is within the limits.
fn only_memory(answer: Result<(), PutError>) -> Result<(), AllocError>
    requires { IsOkUnless answer NoMemory }
    ensures { OnOk result (IsOk answer) }
{
    match answer {
        Ok(()) => Ok(()),
        Err(PutError::NoMemory) => Err(AllocError),
        Err(PutError::KeyLong { .. }) => unreachable!(),
        Err(PutError::ValueLong { .. }) => unreachable!(),
        Err(PutError::Full) => unreachable!(),
    }
}
