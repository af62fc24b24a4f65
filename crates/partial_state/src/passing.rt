//! Reads and a batch, carried out over any store of texts, of which no answer is kept.

ghost use Rattle.std.specs.Prelude.{◌≡◌, ◌≤◌, [], length};
ghost use Rattle.byte_model.specs.Nibbles.{longest_key};
ghost use Rattle.trie_model.specs.State.{State, IsState};
ghost use Rattle.trie_model.specs.Root as trie;
ghost use Rattle.visit_model.specs.Visits.{lookup_visits};
ghost use Rattle.change_model.specs.Places.{touched_places};
ghost use Rattle.change_model.specs.Tables.{HoldsPlaces};
ghost use Rattle.recording_model.specs.Replays.{reads_visits, replay_visits};
ghost use Rattle.text_store.specs.Leaves.{Leaves};
ghost use Rattle.partial_state.specs.Operations.{AreReads};
ghost use Rattle.partial_state.specs.Replays.{prove_ended, AnswersReads, AreWithin, PassesRead};
ghost use Rattle.partial_state.specs.Proofs.{AnswersProve, ProvesState};

use crate::carrying::carry_out;
use crate::ops::Ops;
use crate::prove_error::ProveError;
use base_core::{Digest, Text};
use std::alloc::Global;
use text_store::Texts;
use trie_read::get;

/// The reads, then the changes.
pub(crate) fn pass_all<T: Texts>(
    alloc: Global,
    store: &mut T,
    root: &Digest,
    ops: &Ops,
) -> Result<(), ProveError>
    ensures answer { AnswersProve (replay_visits (T.store.texts store.old) root.now.0 ops.now.reads ops.now.batch.changes) result }
    ensures left { Leaves T.store store.old store.new (replay_visits (T.store.texts store.old) root.now.0 ops.now.reads ops.now.batch.changes).digests (prove_ended result) }
    ensures state { (state : State) → IsState state → HoldsPlaces (T.store.texts store.old) state (touched_places state [] ops.now.batch.changes) → root.now.0 ≡ trie.root state → ProvesState state ops.now.batch.changes result }
    ensures within { AreWithin ops.now.reads ops.now.batch.changes }
{
    let _ = ops.changed();
    match pass_reads(store, root, ops.reads()) {
        Ok(()) => match carry_out(alloc, store, root, ops.changes()) {
            Ok(_) => Ok(()),
            Err(error) => Err(error),
        },
        Err(error) => Err(error),
    }
}

/// The reads, in their order.
fn pass_reads<T: Texts>(store: &mut T, root: &Digest, reads: &[Text]) -> Result<(), ProveError>
    requires { AreReads reads.now }
    ensures answer { AnswersReads (λ _. (reads_visits (T.store.texts store.old) root.now.0 reads.now).answers) (reads_visits (T.store.texts store.old) root.now.0 reads.now) result }
    ensures left { Leaves T.store store.old store.new (reads_visits (T.store.texts store.old) root.now.0 reads.now).digests (prove_ended result) }
{
    for key in reads {
        match pass_one(store, root, key.as_slice()) {
            Ok(()) => {}
            Err(error) => return Err(error),
        }
    }
    Ok(())
}

/// One read.
fn pass_one<T: Texts>(store: &mut T, root: &Digest, key: &[u8]) -> Result<(), ProveError>
    requires { length key.now ≤ longest_key }
    ensures answer { PassesRead (lookup_visits (T.store.texts store.old) root.now.0 key.now) result }
    ensures left { Leaves T.store store.old store.new (lookup_visits (T.store.texts store.old) root.now.0 key.now).digests (prove_ended result) }
{
    match get(store, root, key) {
        Ok(_) => Ok(()),
        Err(error) => Err(ProveError::from(error)),
    }
}
