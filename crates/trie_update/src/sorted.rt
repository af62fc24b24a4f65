ghost use Rattle.std.specs.Prelude.{◌≡◌, ◌≤◌, ◌<◌, ◌^◌, [], length, IfOk};
ghost use Rattle.visit_model.specs.Seen.{seen};
ghost use Rattle.batch_model.specs.Changes.{most_changes};
ghost use Rattle.change_model.specs.Visits.{where_touched, visits_at};
ghost use Rattle.update_model.specs.Sound.{StandsAt};
ghost use Rattle.update_model.specs.Tops.{top_usage};
ghost use Rattle.update_model.specs.Updates.{Outcome, updated};
ghost use Rattle.text_store.specs.Leaves.{Leaves};
ghost use Rattle.trie_update.specs.Accounts.{CanCount, IsNamed};
ghost use Rattle.trie_update.specs.Carries.{Carries};
ghost use Rattle.trie_update.specs.ChangesAt.{AreChangesAt, changes_at};
ghost use Rattle.trie_update.specs.Endings.{update_ended};
ghost use Rattle.trie_update.specs.Sorted.{CanFinish, IsRooted, OnlyClash};
ghost use Rattle.trie_update.specs.Subs.{top_of_sub};
ghost use Rattle.trie_update.specs.Updates.{AnswersUpdate, ComesTo, ChangesNothing};

use crate::balance::balance;
use crate::change::Change;
use crate::errors::UpdateError;
use crate::joining::recorded;
use crate::ledger::Ledger;
use crate::old::Old;
use crate::parting::KeyChange;
use crate::updating::{Placed, at_digest, at_path};
use base_core::Digest;
use std::alloc::Global;
use text_store::Texts;

/// A batch, with its changes in the order of keys.
pub(crate) fn update_sorted<T: Texts>(
    alloc: Global,
    store: &mut T,
    root: &Digest,
    changes: &[KeyChange<'_>],
) -> Result<Change, UpdateError>
    requires changes { AreChangesAt 0 changes.now }
    requires few { length changes.now ≤ most_changes }
    ensures left { Leaves T.store store.old store.new (where_touched (changes_at 0 changes.now) (visits_at (seen (T.store.texts store.old) root.now.0) (changes_at 0 changes.now))).digests (update_ended result) }
    ensures answer { AnswersUpdate (where_touched (changes_at 0 changes.now) (visits_at (seen (T.store.texts store.old) root.now.0) (changes_at 0 changes.now))) result }
    ensures outcome { 1 ≤ length changes.now → ComesTo (updated (seen (T.store.texts store.old) root.now.0) (changes_at 0 changes.now)) result }
    ensures none { changes.now ≡ [] → ChangesNothing root.now result }
{
    if changes.is_empty() {
        return Ok(Change::none(alloc, root));
    }
    let mut ledger = Ledger::new(alloc);
    let placed = at_root(alloc, store, &mut ledger, root, changes)?;
    finish(alloc, ledger, placed)
}

/// Visits the root, if there is one, at which some keys are changed.
fn at_root<T: Texts>(
    alloc: Global,
    store: &mut T,
    ledger: &mut Ledger,
    root: &Digest,
    changes: &[KeyChange<'_>],
) -> Result<Placed, UpdateError>
    requires changes { AreChangesAt 0 changes.now }
    requires some { 1 ≤ length changes.now }
    requires few { length changes.now ≤ most_changes }
    requires room { CanCount ledger.old (length changes.now) }
    requires named { IsNamed ledger.old }
    ensures carries { Carries T.store store.old store.new (visits_at (seen (T.store.texts store.old) root.now.0) (changes_at 0 changes.now)) result }
    ensures rooted { IfOk result (IsRooted (updated (seen (T.store.texts store.old) root.now.0) (changes_at 0 changes.now)) ledger.old ledger.new) }
{
    if *root == Digest::ZERO {
        at_path(alloc, store, ledger, &Old::Nothing, changes, 0)
    } else {
        at_digest(alloc, store, ledger, root, changes, 0, false)
    }
}

/// Writes the record of the new root, and sets gains and losses against each other.
fn finish(alloc: Global, ledger: Ledger, placed: Placed) -> Result<Change, UpdateError>
    requires stands { StandsAt 0 (top_of_sub placed.sub) }
    requires small { top_usage (top_of_sub placed.sub) < 2 ^ 63 }
    ensures outcome { (outcome : Outcome) → CanFinish outcome ledger placed → ComesTo outcome result }
    ensures only { OnlyClash result }
{
    let Placed { sub, .. } = placed;
    let mut ledger = ledger;
    let (name, usage) = recorded(alloc, &mut ledger, sub)?;
    let fresh = ledger.fresh;
    let gone = ledger.gone;
    let (made, lost) = balance(alloc, ledger)?;
    Ok(Change {
        root: name.unwrap_or(Digest::ZERO),
        usage: Some(usage),
        made,
        lost,
        fresh,
        gone,
    })
}
