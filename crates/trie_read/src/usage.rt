ghost use Rattle.std.specs.Prelude.{◌≡◌};
ghost use Rattle.trie_model.specs.Root as trie;
ghost use Rattle.trie_model.specs.Root.{Holds, total};
ghost use Rattle.trie_model.specs.State.{State, IsState};
ghost use Rattle.visit_model.specs.Visits.{top_visits};
ghost use Rattle.text_store.specs.Leaves.{Leaves};
ghost use Rattle.trie_read.specs.Endings.{read_ended};
ghost use Rattle.trie_read.specs.Usages.{AnswersUsage, AnswersTotal};

use crate::errors::ReadError;
use crate::loading::{load_text, node_in};
use base_core::Digest;
use text_store::Texts;

/// The usage that the record of a root states, with one load, and 0 for the zero digest, with none.
/// It takes no memory.
///
/// Over a store that holds the texts of a state with this root, that is the usage of the state.
pub fn usage_of<T: Texts>(store: &mut T, root: &Digest) -> Result<u64, ReadError>
    ensures after { Leaves T.store store.old store.new (top_visits (T.store.texts store.old) root.now.0).digests (read_ended result) }
    ensures answer { AnswersUsage (T.store.texts store.old) root.now.0 result }
    ensures state { (state : State) → Holds (T.store.texts store.old) state → IsState state → root.now.0 ≡ trie.root state → AnswersTotal (total state) result }
{
    if *root == Digest::ZERO {
        return Ok(0);
    }
    let text = load_text(store, root)?;
    let (_, usage) = node_in(text, root, 0, false)?;
    Ok(usage)
}
