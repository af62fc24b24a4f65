ghost use Rattle.std.specs.Prelude.{◌≡◌, []};
ghost use Rattle.trie_model.specs.State.{State, IsState};
ghost use Rattle.trie_model.specs.Root as trie;
ghost use Rattle.change_model.specs.Places.{touched_places};
ghost use Rattle.change_model.specs.Tables.{HoldsPlaces};
ghost use Rattle.change_model.specs.Visits.{batch_visits};
ghost use Rattle.text_store.specs.Leaves.{Leaves};
ghost use Rattle.trie_update.specs.Endings.{update_ended};
ghost use Rattle.trie_update.specs.Updates.{AnswersUpdate, MeetsState};

use crate::change::Change;
use crate::errors::UpdateError;
use crate::sorted::update_sorted;
use base_core::{Changes, Digest};
use std::alloc::{AllocError, Global};
use text_store::Texts;

/// Carries a batch out on the trie below a root, and answers the new root, the texts that are made,
/// those that are lost, and how many keys appear and disappear. The store is not changed: what is
/// made is to be added to it, and what is lost released.
///
/// Each place that the batch touches is loaded once, and no value is loaded. `Missing`, `Bad` and
/// `Usage` tell of a store that has not all these places; over the texts of a state they don't come.
pub fn update<T: Texts>(
    alloc: Global,
    store: &mut T,
    root: &Digest,
    changes: &Changes,
) -> Result<Change, UpdateError>
    ensures left { Leaves T.store store.old store.new (batch_visits (T.store.texts store.old) root.now.0 changes.now.changes).digests (update_ended result) }
    ensures answer { AnswersUpdate (batch_visits (T.store.texts store.old) root.now.0 changes.now.changes) result }
    ensures state { (state : State) → IsState state → HoldsPlaces (T.store.texts store.old) state (touched_places state [] changes.now.changes) → root.now.0 ≡ trie.root state → MeetsState state changes.now.changes result }
{
    match changes.rows(alloc) {
        Ok(rows) => update_sorted(alloc, store, root, &rows),
        Err(AllocError) => Err(UpdateError::NoMemory),
    }
}
