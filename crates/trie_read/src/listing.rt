ghost use Rattle.std.specs.Prelude.{◌≡◌, ◌≤◌, ◌<◌, ◌%◌, [], ◌∷◌, length, take, drop, filter, if◌then◌else◌};
ghost use Rattle.std.specs.FinMap.{entries};
ghost use Rattle.byte_model.specs.Nibbles.{AreNibbles, nibbles};
ghost use Rattle.byte_model.specs.PackedPath.{longest_path};
ghost use Rattle.byte_model.specs.Node.{longest_value};
ghost use Rattle.trie_model.specs.Root as trie;
ghost use Rattle.trie_model.specs.Root.{Holds};
ghost use Rattle.trie_model.specs.State.{State, IsState};
ghost use Rattle.visit_model.specs.Bounds.{reaches};
ghost use Rattle.visit_model.specs.Visits.{listing_visits};
ghost use Rattle.base_core.specs.Bounds.{most_pairs};
ghost use Rattle.trie_read.specs.Listings.{AnswersListing, AnswersPlace, AnswersPair, Collects, AnswersPairs};
ghost use Rattle.text_store.specs.Leaves.{Leaves};
ghost use Rattle.trie_read.specs.Endings.{list_ended};
ghost use Rattle.trie_read.specs.Walks.{IsPlace, IsWalk, IsValueAt, Stacked};

use crate::errors::ListError;
use crate::loading::{load_text, load_value, node_in};
use crate::walk::{Place, Walk};
use base_core::{Digest, Pairs, PutError, Text};
use nibble_keys::{Nibbles, join_nibbles};
use node_codec::ValueRef;
use std::alloc::{AllocError, Global};
use text_store::Texts;

/// The first `most` pairs below a root whose keys are not below `from`. It takes a load for each
/// node that is visited on the way to them, and one for each value.
///
/// Over a store that holds the texts of a state with this root, these are the state's pairs. Over
/// any other store the first test that fails is told, by the digest at which it does.
pub fn list<T: Texts>(
    alloc: Global,
    store: &mut T,
    root: &Digest,
    from: &[u8],
    most: u64,
) -> Result<Pairs, ListError>
    requires { most ≤ most_pairs }
    ensures after { Leaves T.store store.old store.new (listing_visits (T.store.texts store.old) root.now.0 from.now most).digests (list_ended result) }
    ensures answer { AnswersListing (listing_visits (T.store.texts store.old) root.now.0 from.now most) most result }
    ensures state { (state : State) → Holds (T.store.texts store.old) state → IsState state → root.now.0 ≡ trie.root state → AnswersPairs (take most (filter (λ pair. reaches from.now pair.0) (entries state))) result }
{
    let mut pairs = Pairs::new(alloc, most);
    if *root == Digest::ZERO {
        return Ok(pairs);
    }
    let mut walk = Walk::new(alloc, root)?;
    while pairs.len() < most {
        let Some(place) = walk.pending.pop() else {
            return Ok(pairs);
        };
        let found = visit_place(store, &mut walk, &place, from)?;
        if let Some(value) = found {
            add_pair(alloc, store, walk.path.as_slice(), &value, &mut pairs)?;
        }
    }
    Ok(pairs)
}

/// Loads the node at a place that was taken off the walk, takes up the places below it, and tells
/// the value that is to be visited next, if one is.
fn visit_place<T: Texts>(
    store: &mut T,
    walk: &mut Walk,
    place: &Place,
    from: &[u8],
) -> Result<Option<ValueRef>, ListError>
    requires place { IsPlace (length walk.old.path.items) place.now }
    requires walk { IsWalk walk.old.path.items walk.old.pending.items }
    requires stacked { Stacked place.now.prefix walk.old.pending.items }
    ensures answer { AnswersPlace (T.store.texts store.old) (nibbles from.now) walk.old walk.new place.now result }
    ensures left { Leaves T.store store.old store.new (place.now.digest.0 ∷ []) (list_ended result) }
{
    walk.go_to(place)?;
    let depth = walk.path.len() as u64;
    let text = load_text(store, &place.digest)?;
    let (node, _) = node_in(text, &place.digest, depth, place.after_extension)?;
    let bound = bound_at(from, depth, place.bounded);
    let value = walk.enter(&node, &bound)?;
    Ok(value)
}

/// What is left of the first key that is asked for at a depth, where keys can be below it.
fn bound_at(from: &[u8], depth: u64, bounded: bool) -> Nibbles<'_>
    ensures { result ≡ (if bounded then drop depth (nibbles from.now) else []) }
{
    let bound = Nibbles::new(from);
    let len = bound.len();
    if bounded && depth <= len {
        bound.rest(depth)
    } else {
        bound.rest(len)
    }
}

/// Loads the value of the key with these nibbles, and puts the pair to the others.
fn add_pair<T: Texts>(
    alloc: Global,
    store: &mut T,
    path: &[u8],
    value: &ValueRef,
    pairs: &mut Pairs,
) -> Result<(), ListError>
    requires small { AreNibbles path.now }
    requires names { IsValueAt path.now value.now }
    requires room { length (entries pairs.old.state) < pairs.old.most }
    ensures answer { AnswersPair (T.store.texts store.old) path.now value.now pairs.old pairs.new result }
    ensures left { Leaves T.store store.old store.new (value.now.digest.0 ∷ []) (list_ended result) }
{
    let text = load_value(store, value)?;
    collect(alloc, path, text, pairs)?;
    Ok(())
}

fn collect(alloc: Global, path: &[u8], value: &[u8], pairs: &mut Pairs) -> Result<(), AllocError>
    requires small { AreNibbles path.now }
    requires even { length path.now % 2 ≡ 0 }
    requires short { length path.now ≤ longest_path }
    requires value { length value.now ≤ longest_value }
    requires room { length (entries pairs.old.state) < pairs.old.most }
    ensures { Collects path.now value.now pairs.old pairs.new result }
{
    let key = join_nibbles(alloc, path)?;
    let value = Text::copy(alloc, value)?;
    match pairs.put(key, value) {
        Ok(()) => Ok(()),
        Err(PutError::NoMemory) => Err(AllocError),
        Err(PutError::KeyLong { .. }) => unreachable!(),
        Err(PutError::ValueLong { .. }) => unreachable!(),
        Err(PutError::Full) => unreachable!(),
    }
}
