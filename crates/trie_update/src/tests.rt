use super::*;
use base_core::{Changes, Digest, Text, digest};
use std::alloc::{AllocError, Global};
use std::process::Abort;
use std::test::Fail;
use text_store::{MemNodes, Nodes, Texts};

/// The root of the state with the value a under the key 61.
const ROOT_OF_ONE: Digest = Digest(
    *b"\xcf\xbc\xdb\x2e\xb8\xdb\xb0\xeb\x84\x2f\x2b\xcd\xe9\x11\x9b\xe3\xc5\x2b\x1c\x91\x7c\x6d\xf8\x83\x42\x72\x05\xce\xc0\x63\x87\xcc",
);

/// The root of the state with the values a and b under the keys 61 and 62.
const ROOT_OF_TWO: Digest = Digest(
    *b"\x06\x48\x1f\x83\x91\x8f\x99\xa3\xbe\x48\x5a\x58\x6d\x16\xb5\x6c\x10\xa9\xd5\x78\x35\x3d\x60\xe8\x87\xba\xa5\xf9\xc3\x89\x26\x2e",
);

/// The root of the state with the values a and b under the keys 61 and 6162.
const ROOT_OF_PREFIX: Digest = Digest(
    *b"\x6e\x36\xcf\xf0\x32\x96\x38\x8d\xee\xb2\x46\x40\xde\x82\x5a\x73\x58\xe4\xfc\x51\x65\xc2\x48\x4c\x07\x24\x0b\xa0\x1b\x78\xf1\x3e",
);

/// A trie in a store that counts each text as often as it occurs.
#[derive(Drop)]
pub(crate) struct Kept {
    pub(crate) store: MemNodes,
    pub(crate) root: Digest,
}

/// Takes the set of a key into a batch.
pub(crate) fn set(
    alloc: Global,
    changes: &mut Changes,
    key: &[u8],
    value: &[u8],
) -> Result<(), AllocError> {
    match changes.put(Text::copy(alloc, key)?, Text::copy(alloc, value)?) {
        Ok(()) => Ok(()),
        Err(_) => Err(AllocError),
    }
}

/// Takes the deletion of a key into a batch.
pub(crate) fn delete(alloc: Global, changes: &mut Changes, key: &[u8]) -> Result<(), AllocError> {
    match changes.remove(Text::copy(alloc, key)?) {
        Ok(()) => Ok(()),
        Err(_) => Err(AllocError),
    }
}

/// Adds uses of a text, if the store takes them: none of a text that it does not hold.
pub(crate) fn keep(
    alloc: Global,
    store: &mut MemNodes,
    text: &[u8],
    times: u64,
) -> Result<bool, AllocError> {
    let name = digest(text);
    let held = store.count(&name);
    if times == 0 {
        return Ok(held > 0);
    }
    if store.reserve(1).is_err() || store.count(&name) > u64::MAX - times {
        return Ok(false);
    }
    Ok(store.add(&name, Text::copy(alloc, text)?, times).is_ok())
}

/// Takes uses of a text away, if there are so many.
fn let_go(store: &mut MemNodes, lost: &LostText) -> bool {
    store.count(&lost.digest) >= lost.times && store.release(&lost.digest, lost.times).is_ok()
}

/// Adds what a batch made to a store. Whether the store took it all.
fn keep_all(alloc: Global, store: &mut MemNodes, made: &Made) -> Result<bool, AllocError> {
    let mut took = true;
    for place in 0..made.len() {
        let made = made.at(place);
        took = keep(alloc, store, made.text.as_slice(), made.times)? && took;
    }
    Ok(took)
}

/// Takes what a batch lost out of a store. Whether the store had it all.
fn let_all_go(store: &mut MemNodes, lost: &Lost) -> bool {
    let mut took = true;
    for place in 0..lost.len() {
        took = let_go(store, lost.at(place)) && took;
    }
    took
}

impl Kept {
    pub(crate) fn new(alloc: Global) -> Result<Kept, AllocError> {
        Ok(Kept {
            store: MemNodes::new(alloc, &[])?,
            root: Digest::ZERO,
        })
    }

    /// Carries a batch out.
    pub(crate) fn carry(
        &mut self,
        rt: &impl Abort,
        alloc: Global,
        changes: &Changes,
    ) -> Result<Change, Fail> {
        let Ok(change) = update(alloc, &mut self.store, &self.root, changes) else {
            return Err(Fail::new("a batch was refused"));
        };
        self.root = change.root;
        assert!(rt; keep_all(alloc, &mut self.store, &change.made)?);
        assert!(rt; let_all_go(&mut self.store, &change.lost));
        Ok(change)
    }
}

/// The key 6162 is set beside the key 61, which is its prefix, in a batch of its own.
#[test]
fn a_key_beside_its_prefix(rt: HostRuntime) -> Result<(), Fail> {
    let alloc = rt.alloc();
    let mut kept = Kept::new(alloc)?;
    let mut first = Changes::new(alloc, 1);
    set(alloc, &mut first, b"a", b"a")?;
    let first = kept.carry(&rt, alloc, &first)?;
    assert_eq!(rt; (first.root, first.usage), (ROOT_OF_ONE, Some(105)));
    let mut second = Changes::new(alloc, 1);
    set(alloc, &mut second, b"ab", b"b")?;
    let second = kept.carry(&rt, alloc, &second)?;
    assert_eq!(rt; (second.root, second.usage), (ROOT_OF_PREFIX, Some(258)));
    assert_eq!(rt; (kept.store.loads(), kept.store.distinct()), (1, 5));
    Ok(())
}

/// Of the keys 61 and 62 the second is deleted: three places on its path and the leaf that stays
/// alone are loaded.
#[test]
fn one_of_two_deleted(rt: HostRuntime) -> Result<(), Fail> {
    let alloc = rt.alloc();
    let mut kept = Kept::new(alloc)?;
    let mut both = Changes::new(alloc, 2);
    set(alloc, &mut both, b"a", b"a")?;
    set(alloc, &mut both, b"b", b"b")?;
    let both = kept.carry(&rt, alloc, &both)?;
    assert_eq!(rt; (both.root, both.usage), (ROOT_OF_TWO, Some(308)));
    let mut second = Changes::new(alloc, 1);
    delete(alloc, &mut second, b"b")?;
    let second = kept.carry(&rt, alloc, &second)?;
    assert_eq!(rt; (second.root, second.usage), (ROOT_OF_ONE, Some(105)));
    assert_eq!(rt; (kept.store.loads(), kept.store.distinct()), (4, 2));
    Ok(())
}
