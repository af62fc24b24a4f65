//! Reads and a batch, carried out over a store while the texts that they load are noted.

ghost use Rattle.std.specs.Prelude.{◌≡◌, [], OnOk, IfOk, IfErr, false};
ghost use Rattle.std.specs.FinSet as set;
ghost use Rattle.trie_model.specs.State.{State, IsState};
ghost use Rattle.trie_model.specs.Root as trie;
ghost use Rattle.trie_model.specs.Root.{Holds, NoClash, texts_of};
ghost use Rattle.change_model.specs.Places.{touched_places};
ghost use Rattle.change_model.specs.Tables.{HoldsPlaces};
ghost use Rattle.recording_model.specs.Agreeing.{Agrees};
ghost use Rattle.recording_model.specs.Recorded.{recorded_texts};
ghost use Rattle.partial_model.specs.Texts.{texts_in};
ghost use Rattle.recording_model.specs.Replays.{replay_visits};
ghost use Rattle.text_store.specs.Leaves.{Leaves, with_all};
ghost use Rattle.text_store.specs.PartialStates.{unread};
ghost use Rattle.partial_state.specs.declared.prove_error.ProveError.TheVariants.{NoMemory};
ghost use Rattle.partial_state.specs.Proofs.{AnswersProve, IsNoTest, IsProofOf, ProvesState};
ghost use Rattle.partial_state.specs.Replays.{prove_ended, AreWithin};
ghost use Rattle.partial_state.specs.Recorders.{AreTexts, untold, noted_digests};

use crate::noting::{Notes, Noting};
use crate::ops::Ops;
use crate::passing::pass_all;
use crate::proof::Proof;
use crate::prove_error::ProveError;
use crate::recorder::{Recorder, StoreRef};
use base_core::Digest;
use std::alloc::{AllocError, Global};
use text_store::Texts;

/// The reads and the changes over a store, and the notes of what they loaded.
fn carry_noted<T: Texts>(
    alloc: Global,
    store: &mut T,
    root: &Digest,
    ops: &Ops,
) -> (Result<(), ProveError>, Notes)
    ensures answer { AnswersProve (replay_visits (T.store.texts store.old) root.now.0 ops.now.reads ops.now.batch.changes) result.0 }
    ensures within { AreWithin ops.now.reads ops.now.batch.changes }
    ensures state { (state : State) → IsState state → HoldsPlaces (T.store.texts store.old) state (touched_places state [] ops.now.batch.changes) → root.now.0 ≡ trie.root state → ProvesState state ops.now.batch.changes result.0 }
    ensures left { Leaves (untold T.store) store.old store.new (replay_visits (T.store.texts store.old) root.now.0 ops.now.reads ops.now.batch.changes).digests (prove_ended result.0) }
    ensures held { AreTexts (T.store.texts store.old) result.1.texts }
    ensures noted { OnOk result.0 (result.1.short ≡ false → noted_digests result.1 ≡ with_all set.empty (replay_visits (T.store.texts store.old) root.now.0 ops.now.reads ops.now.batch.changes).digests) }
{
    let mut recorder = Recorder::new(alloc, store);
    let answer = carry_recorded(alloc, &mut recorder, root, ops);
    let Noting { store, notes } = recorder;
    let StoreRef { store: _kept } = store;
    (answer, notes)
}

/// The same over a store that notes its loads.
fn carry_recorded<'a, T: Texts>(
    alloc: Global,
    recorder: &mut Recorder<'a, T>,
    root: &Digest,
    ops: &Ops,
) -> Result<(), ProveError>
    ensures same_reference { recorder.new.store.store.ghost_name ≡ recorder.old.store.store.ghost_name }
    ensures answer { AnswersProve (replay_visits (T.store.texts recorder.old.store.store.now) root.now.0 ops.now.reads ops.now.batch.changes) result }
    ensures within { AreWithin ops.now.reads ops.now.batch.changes }
    ensures state { (state : State) → IsState state → HoldsPlaces (T.store.texts recorder.old.store.store.now) state (touched_places state [] ops.now.batch.changes) → root.now.0 ≡ trie.root state → ProvesState state ops.now.batch.changes result }
    ensures left { Leaves (untold T.store) recorder.old.store.store.now recorder.new.store.store.now (replay_visits (T.store.texts recorder.old.store.store.now) root.now.0 ops.now.reads ops.now.batch.changes).digests (prove_ended result) }
    ensures held { AreTexts (T.store.texts recorder.old.store.store.now) recorder.old.notes.texts → AreTexts (T.store.texts recorder.old.store.store.now) recorder.new.notes.texts }
    ensures noted { OnOk result (recorder.new.notes.short ≡ false → noted_digests recorder.new.notes ≡ with_all (noted_digests recorder.old.notes) (replay_visits (T.store.texts recorder.old.store.store.now) root.now.0 ops.now.reads ops.now.batch.changes).digests) }
{
    pass_all(alloc, recorder, root, ops)
}

/// The recording of some reads and changes over a store: the texts that they load are noted. The
/// refusals are those of the reads, in their order, and then those of the batch. A note for which
/// there is no memory doesn't end it: all is carried out, and where nothing is refused, the answer
/// is `NoMemory`.
pub fn prove<T: Texts>(
    alloc: Global,
    store: &mut T,
    root: &Digest,
    ops: Ops,
) -> Result<Proof, ProveError>
    ensures within { AreWithin ops.reads ops.batch.changes }
    ensures answer { AnswersProve (replay_visits (T.store.texts store.old) root.now.0 ops.reads ops.batch.changes) result }
    ensures left { Leaves (untold T.store) store.old store.new (replay_visits (T.store.texts store.old) root.now.0 ops.reads ops.batch.changes).digests (prove_ended result) }
    ensures state { (state : State) → IsState state → HoldsPlaces (T.store.texts store.old) state (touched_places state [] ops.batch.changes) → root.now.0 ≡ trie.root state → ProvesState state ops.batch.changes result }
    ensures full { (state : State) → IsState state → Holds (T.store.texts store.old) state → root.now.0 ≡ trie.root state → IsNoTest result }
    ensures exact { (state : State) → IsState state → NoClash (texts_of state) → Agrees (T.store.texts store.old) state → root.now.0 ≡ trie.root state → IfOk result (λ proof. proof.state.texts ≡ recorded_texts state ops.reads ops.batch.changes) }
    ensures recording { IfOk result (λ proof. IsProofOf root.now ops (T.store.texts store.old) (replay_visits (T.store.texts store.old) root.now.0 ops.reads ops.batch.changes).digests proof) }
{
    let (answer, notes) = carry_noted(alloc, store, root, &ops);
    match answer {
        Ok(()) => noted_proof(root, ops, notes),
        Err(error) => Err(error),
    }
}

/// The recording with these texts, unless a note is missing.
fn noted_proof(root: &Digest, ops: Ops, notes: Notes) -> Result<Proof, ProveError>
    requires { NoClash (texts_in notes.texts) }
    ensures ok { IfOk result (λ proof. (proof.root ≡ root.now) × (proof.ops ≡ ops) × (proof.state ≡ unread (texts_in notes.texts)) × (notes.short ≡ false)) }
    ensures err { IfErr result (λ error. error ≡ NoMemory) }
{
    if notes.short {
        return Err(ProveError::NoMemory);
    }
    match notes.into_texts() {
        Ok(state) => Ok(Proof {
            root: *root,
            ops,
            state,
        }),
        Err(AllocError) => Err(ProveError::NoMemory),
    }
}
