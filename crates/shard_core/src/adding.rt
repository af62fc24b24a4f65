ghost use Rattle.std.specs.Prelude.{◌≡◌, ◌≤◌, length, OnOk};
ghost use Rattle.base_core.specs.Faults.{faults_after};
ghost use Rattle.text_store.specs.Counting.{IsStored, add_ended};
ghost use Rattle.text_store.specs.Loading.{StaysKept};
ghost use Rattle.shard_core.specs.Counting.{AddsAll, AddsSome, AnswersAddAll, CanAdd};

use text_store::{AddError, Nodes};
use trie_update::{Made, MadeText};

/// Adds texts to a store that has room for them, one after the other. One that is wanted no further
/// time is only compared with the text that is held.
pub(crate) fn add_all<N: Nodes>(nodes: &mut N, made: Made) -> Result<(), AddError>
    requires room { length made ≤ N.spare nodes.old }
    requires stored { IsStored (N.store.texts nodes.old) (N.count_of nodes.old) }
    requires texts { CanAdd (N.store.texts nodes.old) (N.count_of nodes.old) made }
    ensures all { OnOk result (AddsAll (N.store.texts nodes.old) (N.store.texts nodes.new) (N.count_of nodes.old) (N.count_of nodes.new) made) }
    ensures some { AddsSome (N.store.texts nodes.old) (N.store.texts nodes.new) (N.count_of nodes.old) (N.count_of nodes.new) made }
    ensures answer { AnswersAddAll (N.store.texts nodes.old) made result }
    ensures stored { IsStored (N.store.texts nodes.new) (N.count_of nodes.new) }
    ensures loads { N.store.loads nodes.new ≡ N.store.loads nodes.old }
    ensures kept { StaysKept (N.store.kept nodes.old) (N.store.kept nodes.new) }
    ensures counted { N.store.faults nodes.new ≡ faults_after (add_ended result) (N.store.faults nodes.old) }
{
    let mut left = made;
    while let Some(
        MadeText {
            digest,
            text,
            times,
        },
    ) = left.take_first()
    {
        nodes.add(&digest, text, times)?;
    }
    Ok(())
}
