ghost use Rattle.std.specs.Prelude.{◌≡◌, ◌≤◌, List, ℕ, [], ◌∷◌, length, drop, ⊤};
ghost use Rattle.std.specs.Borrow.{sem, follows_so};
ghost use Rattle.std.specs.FinMap.{get};
ghost use Rattle.byte_model.specs.Nibbles.{AreBytes, nibbles};
ghost use Rattle.trie_model.specs.Root as trie;
ghost use Rattle.trie_model.specs.Root.{Holds};
ghost use Rattle.trie_model.specs.State.{State, IsState, longest_key};
ghost use Rattle.visit_model.specs.Seen.{seen};
ghost use Rattle.visit_model.specs.Steps.{lookup_steps};
ghost use Rattle.visit_model.specs.Visits.{lookup_visits};
ghost use Rattle.text_store.specs.Loading.{NO_NAME};
ghost use Rattle.text_store.specs.Leaves.{Leaves};
ghost use Rattle.trie_read.specs.Endings.{read_ended};
ghost use Rattle.trie_read.specs.Lookups.{Found, AnswersLookup, AnswersState, AnswersVisit};

use crate::errors::ReadError;
use crate::following::{Next, follow};
use crate::loading::{load_text, load_value, node_in};
use base_core::Digest;
use node_codec::ValueRef;
use text_store::Texts;

/// The value of a key below a root, as the store holds it, or none. It takes a load for each node
/// on the key's path and one for the value, and no memory.
///
/// Over a store that holds the texts of a state with this root, that is the state's value of the
/// key. Over any other store the first test that fails is told, by the digest at which it does.
pub fn get<'s, T: Texts>(
    store: &'s mut T,
    root: &Digest,
    key: &[u8],
) -> Result<Option<&'s [u8]>, ReadError>
    requires { length key.now ≤ longest_key }
    ensures* after { sem 𝓛 (follows_so T.row T.row store.entry.ghost_name NO_NAME (λ _ _. ⊤)
        (λ new. Leaves T.store store.old new (lookup_visits (T.store.texts store.old) root.now.0 key.now).digests (read_ended result))) }
    ensures answer { AnswersLookup (lookup_visits (T.store.texts store.old) root.now.0 key.now) (nibbles key.now) result }
    ensures state { (state : State) → Holds (T.store.texts store.old) state → IsState state → root.now.0 ≡ trie.root state → AnswersState (get state key.now) result }
{
    match find(store, root, key) {
        Err(error) => Err(error),
        Ok(None) => Ok(None),
        Ok(Some(value)) => match load_value(store, &value) {
            Ok(text) => Ok(Some(text)),
            Err(error) => Err(error),
        },
    }
}

/// How the node at the end of a key's path names the value of the key, if it has one.
fn find<T: Texts>(store: &mut T, root: &Digest, key: &[u8]) -> Result<Option<ValueRef>, ReadError>
    requires { length key.now ≤ longest_key }
    ensures key { AreBytes key.now }
    ensures found { Found T.store store.old store.new (lookup_steps (seen (T.store.texts store.old) root.now.0) [] (nibbles key.now)) (nibbles key.now) result }
{
    if *root == Digest::ZERO {
        return Ok(None);
    }
    let mut digest = *root;
    let mut depth = 0;
    let mut after_extension = false;
    loop {
        match visit(store, &digest, depth, after_extension, key) {
            Err(error) => return Err(error),
            Ok(Next::End { value }) => return Ok(value),
            Ok(
                Next::Child {
                    digest: child,
                    depth: deeper,
                    after_extension: extended,
                },
            ) => {
                digest = child;
                depth = deeper;
                after_extension = extended;
            }
        }
    }
}

/// Loads the node at a depth, and tells where it leads a key whose nibbles above are used up.
fn visit<T: Texts>(
    store: &mut T,
    digest: &Digest,
    depth: u64,
    after_extension: bool,
    key: &[u8],
) -> Result<Next, ReadError>
    requires depth { depth ≤ length (nibbles key.now) }
    requires short { length key.now ≤ longest_key }
    ensures answer { AnswersVisit (T.store.texts store.old) digest.now depth after_extension (drop depth (nibbles key.now)) result }
    ensures left { Leaves T.store store.old store.new (digest.now.0 ∷ []) (read_ended result) }
{
    let text = load_text(store, digest)?;
    let (node, _) = node_in(text, digest, depth, after_extension)?;
    Ok(follow(&node, depth, key))
}
