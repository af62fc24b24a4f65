ghost use Rattle.std.specs.Prelude.{◌≡◌, ◌≤◌, OnOk, flat_map};
ghost use Rattle.base_core.specs.Faults.{IsCounted};
ghost use Rattle.count_model.specs.Entries.{Exceeds};
ghost use Rattle.text_store.specs.Counting.{IsStored};
ghost use Rattle.text_store.specs.Loading.{StaysKept};
ghost use Rattle.shard_core.specs.Counting.{CanRelease, ReleasesSome};
ghost use Rattle.shard_core.specs.Ledgers.{entries_of, gains_under, ledgers_of, losses_under};

use crate::ledger::{Ledger, gains_at, losses_at};
use crate::occurrences::Occurrences;
use base_core::{Digest, Fault};
use fork_tree::Ids;
use std::collections::HashMap;
use text_store::Nodes;

/// Releases digests, one after the other.
fn release_all<N: Nodes>(nodes: &mut N, list: &[Occurrences]) -> Result<(), Fault>
    requires stored { IsStored (N.store.texts nodes.old) (N.count_of nodes.old) }
    requires counted { CanRelease (N.count_of nodes.old) (entries_of list.now) }
    ensures all { OnOk result (Exceeds (N.count_of nodes.new) (N.count_of nodes.old) (entries_of list.now)) }
    ensures some { ReleasesSome (N.store.texts nodes.old) (N.store.texts nodes.new) (N.count_of nodes.old) (N.count_of nodes.new) (entries_of list.now) }
    ensures stored { IsStored (N.store.texts nodes.new) (N.count_of nodes.new) }
    ensures loads { N.store.loads nodes.new ≡ N.store.loads nodes.old }
    ensures kept { StaysKept (N.store.kept nodes.old) (N.store.kept nodes.new) }
    ensures counted { IsCounted (N.store.faults nodes.old) (N.store.faults nodes.new) result }
{
    for entry in list {
        nodes.release(&entry.digest, entry.times)?;
    }
    Ok(())
}

/// Releases the losses of some blocks, one block after the other.
pub(crate) fn release_losses<N: Nodes>(
    nodes: &mut N,
    ledgers: &HashMap<Digest, Ledger>,
    ids: &Ids,
) -> Result<(), Fault>
    requires stored { IsStored (N.store.texts nodes.old) (N.count_of nodes.old) }
    requires counted { CanRelease (N.count_of nodes.old) (flat_map (losses_under (ledgers_of ledgers.now.entries)) ids.now) }
    ensures all { OnOk result (Exceeds (N.count_of nodes.new) (N.count_of nodes.old) (flat_map (losses_under (ledgers_of ledgers.now.entries)) ids.now)) }
    ensures some { ReleasesSome (N.store.texts nodes.old) (N.store.texts nodes.new) (N.count_of nodes.old) (N.count_of nodes.new) (flat_map (losses_under (ledgers_of ledgers.now.entries)) ids.now) }
    ensures stored { IsStored (N.store.texts nodes.new) (N.count_of nodes.new) }
    ensures loads { N.store.loads nodes.new ≡ N.store.loads nodes.old }
    ensures kept { StaysKept (N.store.kept nodes.old) (N.store.kept nodes.new) }
    ensures counted { IsCounted (N.store.faults nodes.old) (N.store.faults nodes.new) result }
{
    for place in 0..ids.len() {
        release_all(nodes, losses_at(ledgers, &ids.at(place)))?;
    }
    Ok(())
}

/// Releases the gains of some blocks, one block after the other.
pub(crate) fn release_gains<N: Nodes>(
    nodes: &mut N,
    ledgers: &HashMap<Digest, Ledger>,
    ids: &Ids,
) -> Result<(), Fault>
    requires stored { IsStored (N.store.texts nodes.old) (N.count_of nodes.old) }
    requires counted { CanRelease (N.count_of nodes.old) (flat_map (gains_under (ledgers_of ledgers.now.entries)) ids.now) }
    ensures all { OnOk result (Exceeds (N.count_of nodes.new) (N.count_of nodes.old) (flat_map (gains_under (ledgers_of ledgers.now.entries)) ids.now)) }
    ensures some { ReleasesSome (N.store.texts nodes.old) (N.store.texts nodes.new) (N.count_of nodes.old) (N.count_of nodes.new) (flat_map (gains_under (ledgers_of ledgers.now.entries)) ids.now) }
    ensures stored { IsStored (N.store.texts nodes.new) (N.count_of nodes.new) }
    ensures loads { N.store.loads nodes.new ≡ N.store.loads nodes.old }
    ensures kept { StaysKept (N.store.kept nodes.old) (N.store.kept nodes.new) }
    ensures counted { IsCounted (N.store.faults nodes.old) (N.store.faults nodes.new) result }
{
    for place in 0..ids.len() {
        release_all(nodes, gains_at(ledgers, &ids.at(place)))?;
    }
    Ok(())
}
