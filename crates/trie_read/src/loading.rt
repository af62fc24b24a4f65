ghost use Rattle.std.specs.Prelude.{[], ◌∷◌, ⊤};
ghost use Rattle.std.specs.Borrow.{sem, follows_so};
ghost use Rattle.text_store.specs.Loading.{NO_NAME};
ghost use Rattle.trie_read.specs.Loads.{AnswersText, AnswersFitting, AnswersValue};
ghost use Rattle.text_store.specs.Leaves.{Leaves};
ghost use Rattle.trie_read.specs.Endings.{read_ended};

use crate::errors::ReadError;
use base_core::{Digest, Fault};
use node_codec::{NodeView, ValueRef};
use text_store::Texts;
use trie_shape::fitting_node;

/// Loads the text under a digest.
#[inline(always)]
pub(crate) fn load_text<'s, T: Texts>(
    store: &'s mut T,
    digest: &Digest,
) -> Result<&'s [u8], ReadError>
    ensures* after { sem 𝓛 (follows_so T.row T.row store.entry.ghost_name NO_NAME (λ _ _. ⊤)
        (λ new. Leaves T.store store.old new (digest.now.0 ∷ []) (read_ended result))) }
    ensures answer { AnswersText (T.store.texts store.old) digest.now result }
{
    match store.load(digest) {
        Err(Fault) => Err(ReadError::Fault),
        Ok(None) => Err(ReadError::Missing { digest: *digest }),
        Ok(Some(text)) => Ok(text),
    }
}

/// The node of a text that was loaded, with the usage that its record states, if it fits below so
/// many nibbles, as the child of an extension or not.
#[inline(always)]
pub(crate) fn node_in<'a>(
    text: &'a [u8],
    digest: &Digest,
    depth: u64,
    after_extension: bool,
) -> Result<(NodeView<'a>, u64), ReadError>
    ensures { AnswersFitting text.now digest.now depth after_extension result }
{
    match fitting_node(text, depth, after_extension) {
        Some(found) => Ok(found),
        None => Err(ReadError::Bad { digest: *digest }),
    }
}

/// Loads the value that a node names, if it is as long as the node says.
pub(crate) fn load_value<'s, T: Texts>(
    store: &'s mut T,
    value: &ValueRef,
) -> Result<&'s [u8], ReadError>
    ensures* after { sem 𝓛 (follows_so T.row T.row store.entry.ghost_name NO_NAME (λ _ _. ⊤)
        (λ new. Leaves T.store store.old new (value.now.digest.0 ∷ []) (read_ended result))) }
    ensures answer { AnswersValue (T.store.texts store.old) value.now result }
{
    let text = load_text(store, &value.digest)?;
    if text.len() == value.length as usize {
        Ok(text)
    } else {
        Err(ReadError::Bad {
            digest: value.digest,
        })
    }
}
