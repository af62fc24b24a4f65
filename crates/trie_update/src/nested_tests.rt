use super::*;
use crate::tests::{Kept, delete, set};
use base_core::{Changes, Digest};
use std::alloc::{AllocError, Global};
use std::test::Fail;
use text_store::Nodes;

/// Sets the keys of no zero byte, of one and so on up to 2,114, each to the empty value.
fn nested_sets(alloc: Global) -> Result<Changes, AllocError> {
    let mut changes = Changes::new(alloc, 2115);
    let mut key = Vec::new(alloc);
    for _ in 0..2115 {
        set(alloc, &mut changes, key.as_slice(), &[])?;
        key.push(0)?;
    }
    Ok(changes)
}

/// Deletes the same keys.
fn nested_deletes(alloc: Global) -> Result<Changes, AllocError> {
    let mut changes = Changes::new(alloc, 2115);
    let mut key = Vec::new(alloc);
    for _ in 0..2115 {
        delete(alloc, &mut changes, key.as_slice())?;
        key.push(0)?;
    }
    Ok(changes)
}

/// Keys of up to 2,114 bytes, each a prefix of the next, are set at once and deleted at once.
#[test]
fn nested_keys_set_and_deleted(rt: HostRuntime) -> Result<(), Fail> {
    let alloc = rt.alloc();
    let mut kept = Kept::new(alloc)?;
    let set = kept.carry(&rt, alloc, &nested_sets(alloc)?)?;
    assert_eq!(rt; (set.usage, set.fresh, set.gone), (Some(321378), 2115, 0));
    let deleted = kept.carry(&rt, alloc, &nested_deletes(alloc)?)?;
    assert_eq!(rt;
        (deleted.usage, deleted.fresh, deleted.gone),
        (Some(0), 0, 2115)
    );
    assert_eq!(rt; deleted.root, Digest::ZERO);
    assert_eq!(rt; kept.store.distinct(), 0);
    Ok(())
}
