ghost use Rattle.std.specs.Prelude.{◌≡◌, ◌++◌, [], IfOk, OnOk};
ghost use Rattle.std.specs.FinSet.{empty};
ghost use Rattle.trie_model.specs.State.{State, IsState};
ghost use Rattle.trie_model.specs.Root as trie;
ghost use Rattle.trie_model.specs.Root.{NoClash, texts_of};
ghost use Rattle.change_model.specs.Ledger.{made_texts};
ghost use Rattle.change_model.specs.Places.{touched_places};
ghost use Rattle.change_model.specs.Tables.{HoldsPlaces};
ghost use Rattle.recording_model.specs.Recorded.{recorded_texts};
ghost use Rattle.text_store.specs.PartialStates.{table_of};
ghost use Rattle.partial_state.specs.Replays.{AnswersReplay, StaysProof, ReplaysState, OkUnlessClash, IsReplayOf};

use crate::answers::Answers;
use crate::carrying::carry_all;
use crate::proof::Proof;
use crate::prove_error::ProveError;
use base_core::{Digest, Text};
use std::alloc::Global;

/// What comes of a recording: what its reads answer, and the root behind its changes.
#[derive(Debug, Drop)]
pub struct Replayed {
    pub answers: Answers,
    pub root: Digest,
}

/// Why a recording was refused. `NoMemory` alone says nothing of it.
#[derive(Debug, Drop)]
pub enum ReplayError {
    /// No text is there under a digest that has to be visited.
    Missing {
        digest: Digest,
    },
    /// The text under a digest is no node that fits where it stands, or no value of the length that
    /// the node says.
    Bad {
        digest: Digest,
    },
    /// A record states more than 2^62, or less than its own cost and its visited children's usages.
    Usage {
        digest: Digest,
    },
    /// Two different texts that the changes make share a digest, the least such one.
    Clash {
        digest: Digest,
        one: Text,
        other: Text,
    },
    /// The text at this place, counted from 0, is the first that nothing visits.
    Spare {
        place: u64,
    },
    /// There was no memory.
    NoMemory,
}

/// Carries the reads and the changes of a recording out over its texts, with nothing else at hand.
/// All reads look at the state before any change. Each text that is visited is marked, and each has
/// to be. After a refusal nothing is promised of the marks.
pub fn replay(alloc: Global, proof: &mut Proof) -> Result<Replayed, ReplayError>
    requires { proof.old.state.kept ≡ empty }
    ensures answer { AnswersReplay proof.old result }
    ensures stays { StaysProof proof.old proof.new }
    ensures state { (state : State) → IsState state → HoldsPlaces (table_of proof.old.state.texts) state (touched_places state [] proof.old.ops.batch.changes) → proof.old.root.0 ≡ trie.root state → ReplaysState state proof.old.ops.batch.changes result }
    ensures sound { (state : State) → IsState state → NoClash (texts_of state ++ proof.old.state.texts) → proof.old.root.0 ≡ trie.root state → IfOk result (IsReplayOf state proof.old.ops.reads proof.old.ops.batch.changes) }
    ensures complete { (state : State) → IsState state → NoClash (texts_of state) → proof.old.root.0 ≡ trie.root state → proof.old.state.texts ≡ recorded_texts state proof.old.ops.reads proof.old.ops.batch.changes → OkUnlessClash (made_texts state proof.old.ops.batch.changes) result }
    ensures exact { (state : State) → IsState state → NoClash (texts_of state ++ proof.old.state.texts) → proof.old.root.0 ≡ trie.root state → OnOk result (proof.old.state.texts ≡ recorded_texts state proof.old.ops.reads proof.old.ops.batch.changes) }
{
    let _ = proof.state.len();
    match carry_all(alloc, &mut proof.state, &proof.root, &proof.ops) {
        Ok(replayed) => match proof.state.unused() {
            Some(place) => Err(ReplayError::Spare { place }),
            None => Ok(replayed),
        },
        Err(ProveError::Missing { digest }) => Err(ReplayError::Missing { digest }),
        Err(ProveError::Bad { digest }) => Err(ReplayError::Bad { digest }),
        Err(ProveError::Usage { digest }) => Err(ReplayError::Usage { digest }),
        Err(ProveError::Clash { digest, one, other }) => {
            Err(ReplayError::Clash { digest, one, other })
        }
        Err(ProveError::NoMemory) => Err(ReplayError::NoMemory),
        Err(ProveError::Fault) => unreachable!(),
    }
}
