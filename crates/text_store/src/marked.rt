//! The entries of the table in which a partial state is kept.

ghost use Rattle.std.specs.Prelude.{◌≡◌, ◌||◌, ◌++◌, ◌∷◌, [], ℕ, List, nat_eq, not, position, Some, IfOk, OnOk, IfNone};
ghost use Rattle.std.specs.Option.{option_map};
ghost use Rattle.std.specs.Cmp.Lexicographic.{pointwise};
ghost use Rattle.indexmap.specs.IndexMap.{values};
ghost use Rattle.sha2.specs.Sha256.{sha256};
ghost use Rattle.partial_model.specs.Texts.{lesser};
ghost use Rattle.text_store.specs.PartialStates.{digest_taken, fresh_entry, has_digest};

use crate::keyed::{Keyed, key_of};
use base_core::{Digest, Text};
use indexmap::IndexMap;
use std::alloc::{AllocError, Global};

/// A text of a partial state, and whether it was loaded.
#[derive(Debug, Drop)]
pub(crate) struct Marked {
    pub(crate) text: Text,
    pub(crate) used: bool,
}

/// A table with room for the texts of these digests, by which it is keyed.
pub(crate) fn room_for(
    alloc: Global,
    digests: &[Digest],
) -> Result<IndexMap<Digest, Marked, Keyed>, AllocError>
    ensures { IfOk result (λ held. held.entries ≡ []) }
{
    IndexMap::with_capacity_and_hasher(alloc, digests.len(), key_of(digests))
}

/// Puts a text last, under its digest. Where that is the zero one, or was taken, it is answered, and
/// the texts are of no more use.
pub(crate) fn hold(
    held: &mut IndexMap<Digest, Marked, Keyed>,
    digest: Digest,
    text: Text,
) -> Result<Option<Digest>, AllocError>
    requires { digest.0 ≡ sha256 text }
    ensures taken { IfOk result (λ taken. option_map (λ digest. digest.0) taken ≡ digest_taken held.old.entries (sha256 text)) }
    ensures has { OnOk result ((digest : List ℕ) → has_digest held.new.entries digest ≡ (pointwise nat_eq (sha256 text) digest || has_digest held.old.entries digest)) }
    ensures last { IfOk result (λ taken. IfNone taken (held.new.entries ≡ held.old.entries ++ fresh_entry text ∷ [])) }
{
    match held.insert(digest, Marked { text, used: false }) {
        Ok(None) if digest != Digest::ZERO => Ok(None),
        Ok(_) => Ok(Some(digest)),
        Err(_) => Err(AllocError),
    }
}

/// The first place whose text was not loaded.
pub(crate) fn first_unmarked(held: &IndexMap<Digest, Marked, Keyed>) -> Option<usize>
    ensures { result ≡ position (λ marked. not marked.used) (values held.now) }
{
    held.values().position(|marked| !marked.used)
}

/// The lesser of two digests, where there are two.
pub(crate) fn least_of(least: Option<Digest>, digest: Digest) -> Digest
    ensures { Some result.0 ≡ lesser (option_map (λ d. d.0) least) (Some digest.0) }
{
    match least {
        Some(least) => least.min(digest),
        None => digest,
    }
}
