ghost use Rattle.std.specs.Prelude.{◌≡◌, ◌≤◌, OnOk, length};
ghost use Rattle.base_core.specs.Faults.{risen};

use super::*;
use base_core::{Digest, Fault, Text, digest};
use std::alloc::{AllocError, Global};
use std::process::Abort;
use std::test::Fail;

/// How many of these digests have a text, by a load for each.
fn count_held<T: Texts>(store: &mut T, digests: &[Digest]) -> Result<usize, Fault>
    ensures texts { T.store.texts store.new ≡ T.store.texts store.old }
    ensures alike { T.store.alike store.old store.new }
    ensures loads { OnOk result (T.store.loads store.new ≡ risen (T.store.loads store.old) (length digests.now)) }
{
    let mut count = 0;
    for d in digests {
        if store.load(d)?.is_some() {
            count += 1;
        }
    }
    Ok(count)
}

/// Adds a text under its digest: 0 where it was added, 1 where it clashes, 2 where the store failed,
/// 3 where its count would be too high.
fn keep<N: Nodes>(store: &mut N, alloc: Global, text: &[u8], times: u64) -> Result<u8, AllocError>
    requires { 1 ≤ times }
{
    match store.reserve(1) {
        Ok(()) => {}
        Err(ReserveError::Fault) => return Ok(2),
        Err(ReserveError::NoMemory) => return Err(AllocError),
    }
    let d = digest(text);
    if store.count(&d) > u64::MAX - times {
        return Ok(3);
    }
    match store.add(&d, Text::copy(alloc, text)?, times) {
        Ok(()) => Ok(0),
        Err(AddError::Clash { .. }) => Ok(1),
        Err(AddError::Fault) => Ok(2),
    }
}

/// Releases uses of a text, if it has so many.
fn let_go<N: Nodes>(store: &mut N, d: &Digest, times: u64) -> Result<bool, Fault> {
    if store.count(d) < times {
        return Ok(false);
    }
    store.release(d, times)?;
    Ok(true)
}

/// How many texts a store has, and the count of one.
fn expect_counts<N: Nodes>(rt: &impl Abort, store: &N, d: &Digest, distinct: u64, count: u64) {
    assert!(rt; store.distinct() == distinct);
    assert!(rt; store.count(d) == count);
}

fn expect_text<T: Texts>(
    rt: &impl Abort,
    store: &mut T,
    d: &Digest,
    want: Option<&[u8]>,
) -> Result<(), Fail> {
    assert!(rt; store.load(d)? == want);
    Ok(())
}

/// Keeps a text, with this answer of `keep`.
fn expect_kept(
    rt: &impl Abort,
    store: &mut MemNodes,
    alloc: Global,
    text: &[u8],
    times: u64,
    answer: u8,
) -> Result<(), Fail>
    requires { 1 ≤ times }
{
    assert!(rt; keep(store, alloc, text, times)? == answer);
    Ok(())
}

#[test]
fn texts_are_counted(rt: HostRuntime) -> Result<(), Fail> {
    let alloc = rt.alloc();
    let mut store = MemNodes::new(alloc, &[])?;
    let (a, b, c) = (digest(b"a"), digest(b"b"), digest(b"c"));
    expect_counts(&rt, &store, &b, 0, 0);
    expect_kept(&rt, &mut store, alloc, b"a", 2, 0)?;
    expect_kept(&rt, &mut store, alloc, b"b", 1, 0)?;
    expect_kept(&rt, &mut store, alloc, b"b", 3, 0)?;
    expect_counts(&rt, &store, &b, 2, 4);
    expect_counts(&rt, &store, &c, 2, 0);
    assert!(rt; count_held(&mut store, &[a, b, c, Digest::ZERO])? == 2);
    assert!(rt; store.loads() == 4);
    expect_text(&rt, &mut store, &b, Some(b"b"))
}

#[test]
fn text_goes_with_its_last_use(rt: HostRuntime) -> Result<(), Fail> {
    let alloc = rt.alloc();
    let mut store = MemNodes::new(alloc, &[])?;
    let d = digest(b"a");
    expect_kept(&rt, &mut store, alloc, b"a", 3, 0)?;
    for (times, distinct, count) in [(2, 1, 1), (1, 0, 0), (0, 0, 0)] {
        assert!(rt; let_go(&mut store, &d, times)?);
        expect_counts(&rt, &store, &d, distinct, count);
    }
    expect_text(&rt, &mut store, &d, None)
}

/// A text is kept, loaded and released. Which of these fail where this call fails.
fn failures(alloc: Global, fails: u64) -> Result<(u8, bool, bool), AllocError> {
    let mut store = MemNodes::new(alloc, &[fails])?;
    let d = digest(b"a");
    let kept = keep(&mut store, alloc, b"a", 1)?;
    let load_failed = store.load(&d).is_err();
    Ok((kept, load_failed, let_go(&mut store, &d, 1).is_err()))
}

#[test]
fn each_call_fails_in_turn(rt: HostRuntime) -> Result<(), Fail> {
    let alloc = rt.alloc();
    for (fails, want) in [
        (1, (2, false, false)),
        (2, (2, false, false)),
        (3, (0, true, false)),
        (4, (0, false, true)),
        (5, (0, false, false)),
    ] {
        assert!(rt; failures(alloc, fails)? == want, "call {fails}");
    }
    Ok(())
}

#[test]
fn faults_change_nothing(rt: HostRuntime) -> Result<(), Fail> {
    let alloc = rt.alloc();
    let mut store = MemNodes::new(alloc, &[5, 3, 4])?;
    let d = digest(b"a");
    expect_kept(&rt, &mut store, alloc, b"a", 2, 0)?;
    assert!(rt; store.load(&d).is_err());
    expect_kept(&rt, &mut store, alloc, b"b", 2, 2)?;
    assert!(rt; let_go(&mut store, &d, 2).is_err());
    expect_counts(&rt, &store, &d, 1, 2);
    expect_text(&rt, &mut store, &d, Some(b"a"))?;
    assert!(rt; store.loads() == 2);
    Ok(())
}
