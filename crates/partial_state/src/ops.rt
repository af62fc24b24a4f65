ghost use Rattle.std.specs.Prelude.{◌≡◌, ◌≤◌, [], length, Err, Some, None, OnOk, OnErr, IfSome, IfNone, IsOkUnless};
ghost use Rattle.std.specs.FinMap.{empty, entries};
ghost use Rattle.byte_model.specs.Nibbles.{AreBytes};
ghost use Rattle.batch_model.specs.Changes.{most_changes};
ghost use Rattle.base_core.specs.ChangeMaps.{IsChangeMap, change_refusal};
ghost use Rattle.base_core.specs.declared.put_error.PutError.TheVariants.{NoMemory};
ghost use Rattle.partial_state.specs.Operations.{AreReads, read_refusal, refusal_of_read, with_read, with_change};

use base_core::{Changes, LONGEST_KEY, PutError, Text};
use std::alloc::Global;
use std::marker::Model;

/// The most keys that a recording reads.
pub const MOST_READS: u64 = 65536;

/// What a recording is of: keys that are read, in the order in which they were given and as often,
/// and a batch of changes. All reads look at the state before any change.
#[derive(Debug, Drop)]
pub struct Ops {
    reads: Vec<Text>,
    changes: Changes,
}

impl Model for Ops {
    ghost use Rattle.partial_state.specs.Operations.{Operations, operations_code, AreReads};

    ghost Value = { Operations };

    ghost coded = { operations_code };

    ghost view = { λ o. record { reads = o.reads.items; batch = o.changes } };

    ghost invariant = { λ o. AreReads o.reads.items };
}

impl Ops {
    /// No reads and no changes yet, and room for changes of `most` keys. It takes no memory.
    pub fn new(alloc: Global, most: u64) -> Ops
        requires { most ≤ most_changes }
        ensures reads { result.reads ≡ [] }
        ensures changes { result.batch.changes ≡ empty }
        ensures most { result.batch.most ≡ most }
    {
        Ops {
            reads: Vec::new(alloc),
            changes: Changes::new(alloc, most),
        }
    }

    /// The key is read once more.
    pub fn read(&mut self, key: Text) -> Result<(), PutError>
        ensures refused { IfSome (read_refusal self.old key) (λ error. result ≡ Err error) }
        ensures taken { IfNone (read_refusal self.old key) (IsOkUnless result NoMemory) }
        ensures ok { OnOk result (self.new ≡ with_read self.old key) }
        ensures err { OnErr result (self.new ≡ self.old) }
    {
        if let Some(error) = refusal(&self.reads, key.as_slice()) {
            return Err(error);
        }
        let Ok(()) = self.reads.push(key) else {
            return Err(PutError::NoMemory);
        };
        Ok(())
    }

    /// The key becomes the value, whatever was said of it before.
    pub fn put(&mut self, key: Text, value: Text) -> Result<(), PutError>
        ensures refused { IfSome (change_refusal self.old.batch key (Some value)) (λ error. result ≡ Err error) }
        ensures taken { IfNone (change_refusal self.old.batch key (Some value)) (IsOkUnless result NoMemory) }
        ensures ok { OnOk result (self.new ≡ with_change self.old key (Some value)) }
        ensures err { OnErr result (self.new ≡ self.old) }
    {
        self.changes.put(key, value)
    }

    /// The key is deleted, whatever was said of it before.
    pub fn remove(&mut self, key: Text) -> Result<(), PutError>
        ensures refused { IfSome (change_refusal self.old.batch key None) (λ error. result ≡ Err error) }
        ensures taken { IfNone (change_refusal self.old.batch key None) (IsOkUnless result NoMemory) }
        ensures ok { OnOk result (self.new ≡ with_change self.old key None) }
        ensures err { OnErr result (self.new ≡ self.old) }
    {
        self.changes.remove(key)
    }

    /// These reads and changes.
    pub(crate) fn of_parts(reads: Vec<Text>, changes: Changes) -> Ops
        requires { AreReads reads.items }
        ensures { result ≡ record { reads = reads.items; batch = changes } }
    {
        Ops { reads, changes }
    }

    /// The keys that are read.
    pub(crate) fn reads(&self) -> &[Text]
        ensures reads { result.now ≡ self.now.reads }
        ensures held { AreReads self.now.reads }
    {
        self.reads.as_slice()
    }

    /// How many keys are changed.
    pub(crate) fn changed(&self) -> u64
        ensures changed { result ≡ length (entries self.now.batch.changes) }
        ensures held { IsChangeMap self.now.batch }
    {
        self.changes.len()
    }

    /// The changes.
    pub(crate) fn changes(&self) -> &Changes
        ensures { result.now ≡ self.now.batch }
    {
        &self.changes
    }
}

/// Why a key is not read once more behind these reads, if it is not.
fn refusal(reads: &[Text], key: &[u8]) -> Option<PutError>
    ensures refusal { result ≡ refusal_of_read reads.now key.now }
    ensures key { AreBytes key.now }
{
    let len = key.len() as u64;
    if len > LONGEST_KEY {
        Some(PutError::KeyLong { len })
    } else if reads.len() as u64 >= MOST_READS {
        Some(PutError::Full)
    } else {
        None
    }
}
