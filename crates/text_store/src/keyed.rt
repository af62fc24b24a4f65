ghost use Rattle.std.specs.Prelude.{◌≡◌, map, IfOk};
ghost use Rattle.sha2.specs.Sha256.{sha256};
ghost use Rattle.text_store.specs.TextSets.{texts_of_keys};

use base_core::{Digest, digest};
use sha2::{Digest as _, Sha256};
use std::alloc::{AllocError, Global};
use std::collections::BTreeSet;
use std::hash::{BuildHasher, FoldHasher, Hasher};

/// What hashes the digests of a table. Its key is made of each of them, by SHA-256. So nobody can look
/// for texts whose digests fall together there: each text changes where all fall.
#[derive(Clone, Copy)]
pub(crate) struct Keyed {
    start: FoldHasher,
}

/// The digest of each text.
pub(crate) fn digests_of(alloc: Global, texts: &[&[u8]]) -> Result<Vec<Digest>, AllocError>
    ensures { IfOk result (λ digests. map (λ digest. digest.0) digests.items ≡ map sha256 (map (λ text. text.now) texts.now)) }
{
    let mut digests = Vec::with_capacity(alloc, texts.len())?;
    for text in texts {
        digests.push(digest(text))?;
    }
    Ok(digests)
}

/// The same of a set.
pub(crate) fn digests_of_set(
    alloc: Global,
    texts: &BTreeSet<Vec<u8>>,
) -> Result<Vec<Digest>, AllocError>
    ensures { IfOk result (λ digests. map (λ digest. digest.0) digests.items ≡ map sha256 (texts_of_keys texts.now.keys)) }
{
    let mut digests = Vec::with_capacity(alloc, texts.len())?;
    for text in texts {
        digests.push(digest(text.as_slice()))?;
    }
    Ok(digests)
}

/// How many bytes of a digest the key of its table binds. Two texts that agree in them are found by
/// 2^64 tries.
const KEYED_BYTES: usize = 16;

/// The key of a table of these digests.
pub(crate) fn key_of(digests: &[Digest]) -> Keyed {
    let mut sum = Sha256::new();
    for digest in digests {
        sum.update(digest.0.split_at(KEYED_BYTES).0);
    }
    let mut start = FoldHasher::default();
    start.write(&sum.finalize());
    Keyed { start }
}

impl BuildHasher for Keyed {
    type Hasher = FoldHasher;

    ghost build_hasher = { λ keyed. keyed.start };

    fn build_hasher(&self) -> FoldHasher {
        self.start
    }
}
