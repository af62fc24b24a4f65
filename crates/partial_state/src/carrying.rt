//! Reads and a batch, carried out over any store of texts.

ghost use Rattle.std.specs.Prelude.{◌≡◌, ◌≤◌, [], length, IfOk};
ghost use Rattle.byte_model.specs.Nibbles.{longest_key};
ghost use Rattle.trie_model.specs.State.{State, IsState};
ghost use Rattle.trie_model.specs.Root as trie;
ghost use Rattle.trie_model.specs.Root.{NoClash, texts_of};
ghost use Rattle.recording_model.specs.Agreeing.{Agrees};
ghost use Rattle.visit_model.specs.Visits.{lookup_visits};
ghost use Rattle.change_model.specs.Places.{touched_places};
ghost use Rattle.change_model.specs.Tables.{HoldsPlaces};
ghost use Rattle.change_model.specs.Visits.{batch_visits};
ghost use Rattle.recording_model.specs.Replays.{reads_visits, replay_visits};
ghost use Rattle.text_store.specs.Leaves.{Leaves};
ghost use Rattle.partial_state.specs.Operations.{AreReads};
ghost use Rattle.partial_state.specs.Replays.{prove_ended, AnswersRead, AnswersReads, AnswersCarried, AnswersBoth, MeetsRoot, MeetsState, IsReplayOf, AreWithin};

use crate::answers::Answers;
use crate::ops::Ops;
use crate::prove_error::ProveError;
use crate::replaying::Replayed;
use base_core::{Changes, Digest, Text};
use std::alloc::{AllocError, Global};
use text_store::Texts;
use trie_read::get;
use trie_update::update;

/// The reads, then the changes: what the reads answer, and the root behind the changes.
pub(crate) fn carry_all<T: Texts>(
    alloc: Global,
    store: &mut T,
    root: &Digest,
    ops: &Ops,
) -> Result<Replayed, ProveError>
    ensures answer { AnswersBoth (replay_visits (T.store.texts store.old) root.now.0 ops.now.reads ops.now.batch.changes) result }
    ensures left { Leaves T.store store.old store.new (replay_visits (T.store.texts store.old) root.now.0 ops.now.reads ops.now.batch.changes).digests (prove_ended result) }
    ensures state { (state : State) → IsState state → HoldsPlaces (T.store.texts store.old) state (touched_places state [] ops.now.batch.changes) → root.now.0 ≡ trie.root state → MeetsState state ops.now.batch.changes result }
    ensures sound { (state : State) → IsState state → NoClash (texts_of state) → Agrees (T.store.texts store.old) state → root.now.0 ≡ trie.root state → IfOk result (IsReplayOf state ops.now.reads ops.now.batch.changes) }
    ensures within { AreWithin ops.now.reads ops.now.batch.changes }
{
    let _ = ops.changed();
    let answers = match read_all(alloc, store, root, ops.reads()) {
        Ok(answers) => answers,
        Err(error) => return Err(error),
    };
    match carry_out(alloc, store, root, ops.changes()) {
        Ok(root) => Ok(Replayed {
            answers: Answers::new(answers),
            root,
        }),
        Err(error) => Err(error),
    }
}

/// The changes: the root behind them.
pub(crate) fn carry_out<T: Texts>(
    alloc: Global,
    store: &mut T,
    root: &Digest,
    changes: &Changes,
) -> Result<Digest, ProveError>
    ensures answer { AnswersCarried (batch_visits (T.store.texts store.old) root.now.0 changes.now.changes) result }
    ensures left { Leaves T.store store.old store.new (batch_visits (T.store.texts store.old) root.now.0 changes.now.changes).digests (prove_ended result) }
    ensures state { (state : State) → IsState state → HoldsPlaces (T.store.texts store.old) state (touched_places state [] changes.now.changes) → root.now.0 ≡ trie.root state → MeetsRoot state changes.now.changes result }
{
    match update(alloc, store, root, changes) {
        Ok(change) => Ok(change.root),
        Err(error) => Err(ProveError::from(error)),
    }
}

/// What the reads answer, in their order.
fn read_all<T: Texts>(
    alloc: Global,
    store: &mut T,
    root: &Digest,
    reads: &[Text],
) -> Result<Vec<Option<Text>>, ProveError>
    requires { AreReads reads.now }
    ensures answer { AnswersReads (λ answers. answers.items) (reads_visits (T.store.texts store.old) root.now.0 reads.now) result }
    ensures left { Leaves T.store store.old store.new (reads_visits (T.store.texts store.old) root.now.0 reads.now).digests (prove_ended result) }
{
    let mut answers = Vec::new(alloc);
    for key in reads {
        match read_one(alloc, store, root, key.as_slice()) {
            Ok(value) => {
                let Ok(()) = answers.push(value) else {
                    return Err(ProveError::NoMemory);
                };
            }
            Err(error) => return Err(error),
        }
    }
    Ok(answers)
}

/// What one read answers.
fn read_one<T: Texts>(
    alloc: Global,
    store: &mut T,
    root: &Digest,
    key: &[u8],
) -> Result<Option<Text>, ProveError>
    requires { length key.now ≤ longest_key }
    ensures answer { AnswersRead (lookup_visits (T.store.texts store.old) root.now.0 key.now) result }
    ensures left { Leaves T.store store.old store.new (lookup_visits (T.store.texts store.old) root.now.0 key.now).digests (prove_ended result) }
{
    match get(store, root, key) {
        Ok(Some(value)) => match Text::copy(alloc, value) {
            Ok(copy) => Ok(Some(copy)),
            Err(AllocError) => Err(ProveError::NoMemory),
        },
        Ok(None) => Ok(None),
        Err(error) => Err(ProveError::from(error)),
    }
}
