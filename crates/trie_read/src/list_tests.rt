ghost use Rattle.std.specs.Prelude.{◌≤◌};
ghost use Rattle.base_core.specs.Bounds.{most_pairs};

use super::*;
use base_core::{Digest, Pairs, digest};
use node_codec::{Kids, ValueRef, write_branch};
use std::alloc::{AllocError, Global};
use std::process::Abort;
use std::test::Fail;
use tests::{ROOT, Records, extension, holding, leaf};
use text_store::{MemNodes, Texts};

fn expect_rows(
    rt: &impl Abort,
    alloc: Global,
    pairs: &Pairs,
    rows: &[(&[u8], &[u8])],
) -> Result<(), Fail> {
    assert_eq!(rt; pairs.rows(alloc)?.as_slice(), rows);
    Ok(())
}

/// The pairs and the loads of a listing.
fn expect_pairs(
    rt: &impl Abort,
    alloc: Global,
    store: &mut MemNodes,
    root: &Digest,
    from: &[u8],
    most: u64,
    rows: &[(&[u8], &[u8])],
    loads: u64,
) -> Result<(), Fail>
    requires { most ≤ most_pairs }
{
    let before = store.loads();
    let pairs = list(alloc, store, root, from, most)?;
    expect_rows(rt, alloc, &pairs, rows)?;
    assert_eq!(rt; store.loads(), before.saturating_add(loads));
    Ok(())
}

/// The error of a listing of all pairs, and its loads.
fn expect_error(
    rt: &impl Abort,
    alloc: Global,
    store: &mut MemNodes,
    root: &Digest,
    error: ListError,
    loads: u64,
) -> Result<(), Fail> {
    let before = store.loads();
    match list(alloc, store, root, b"", 5) {
        Ok(_) => return Err(Fail::new("a listing")),
        Err(ListError::NoMemory) => return Err(Fail::from(AllocError)),
        Err(found) => assert_eq!(rt; found, error),
    }
    assert_eq!(rt; store.loads(), before.saturating_add(loads));
    Ok(())
}

#[test]
fn pairs_from_a_key(rt: HostRuntime) -> Result<(), Fail> {
    let alloc = rt.alloc();
    let a: (&[u8], &[u8]) = (b"a", b"a");
    let b: (&[u8], &[u8]) = (b"b", b"b");
    let mut store = Records::new(alloc)?.store(alloc, &[])?;
    expect_pairs(&rt, alloc, &mut store, &ROOT, b"b", 5, &[b], 4)?;
    expect_pairs(&rt, alloc, &mut store, &ROOT, b"", 1, &[a], 4)?;
    expect_pairs(&rt, alloc, &mut store, &ROOT, b"a", 5, &[a, b], 6)?;
    expect_pairs(&rt, alloc, &mut store, &ROOT, b"aa", 5, &[b], 5)?;
    expect_pairs(&rt, alloc, &mut store, &ROOT, b"c", 5, &[], 2)?;
    expect_pairs(&rt, alloc, &mut store, &ROOT, b"a", 0, &[], 0)?;
    expect_pairs(&rt, alloc, &mut store, &Digest::ZERO, b"", 5, &[], 0)
}

/// The keys 61 and 6162: the first is that of a branch.
#[test]
fn value_of_a_branch_before_its_children(rt: HostRuntime) -> Result<(), Fail> {
    let alloc = rt.alloc();
    let below = leaf(alloc, &[2], 1, b"b")?;
    let value = ValueRef {
        length: 1,
        digest: digest(b"a"),
    };
    let mut kids = Kids::NONE;
    kids.set(6, Some(digest(below.as_slice())));
    let branch = write_branch(alloc, &Some(value), &kids, 204)?;
    let above = extension(alloc, &[6, 1], &branch)?;
    let root = digest(above.as_slice());
    let texts: [&[u8]; 5] = [
        b"a",
        b"b",
        below.as_slice(),
        branch.as_slice(),
        above.as_slice(),
    ];
    let mut store = holding(alloc, &texts, &[])?;
    let a: (&[u8], &[u8]) = (b"a", b"a");
    let ab: (&[u8], &[u8]) = (b"ab", b"b");
    expect_pairs(&rt, alloc, &mut store, &root, b"a", 5, &[a, ab], 5)?;
    expect_pairs(&rt, alloc, &mut store, &root, b"a", 1, &[a], 3)?;
    expect_pairs(&rt, alloc, &mut store, &root, b"a\x00", 5, &[ab], 4)
}

#[test]
fn errors_of_a_listing(rt: HostRuntime) -> Result<(), Fail> {
    let alloc = rt.alloc();
    let records = Records::new(alloc)?;
    for load in 1..7 {
        let mut store = records.store(alloc, &[12 + load])?;
        expect_error(&rt, alloc, &mut store, &ROOT, ListError::Fault, load)?;
    }
    let texts: [&[u8]; 4] = [
        records.root.as_slice(),
        records.branch.as_slice(),
        records.first.as_slice(),
        b"a",
    ];
    let mut store = holding(alloc, &texts, &[])?;
    let missing = ListError::Missing {
        digest: digest(records.second.as_slice()),
    };
    expect_error(&rt, alloc, &mut store, &ROOT, missing, 5)?;
    let long = leaf(alloc, &[6, 1], 2, b"a")?;
    let mut store = holding(alloc, &[long.as_slice(), b"a"], &[])?;
    let bad = ListError::Bad {
        digest: digest(b"a"),
    };
    expect_error(&rt, alloc, &mut store, &digest(long.as_slice()), bad, 2)?;
    let bad = ListError::Bad {
        digest: digest(b"a"),
    };
    expect_error(&rt, alloc, &mut store, &digest(b"a"), bad, 1)
}
