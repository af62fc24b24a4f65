ghost use Rattle.std.specs.Prelude.{◌≤◌};

use super::*;
use std::alloc::Global;
use std::process::Abort;
use std::test::Fail;

/// All that is left of a source.
fn expect_rest(
    rt: &impl Abort,
    feed: &mut Feed,
    source: &mut MemSource,
    want: &[u8],
) -> Result<(), Fail> {
    assert!(rt; feed.all(source)?.as_slice() == want, "{want:?}");
    Ok(())
}

/// Takes an input whole, in pieces.
fn expect_all(rt: &impl Abort, alloc: Global, input: &[u8], piece: u64) -> Result<(), Fail>
    requires { 1 ≤ piece }
{
    let mut source = MemSource::new(alloc, input, piece, &[])?;
    let mut feed = Feed::new(alloc);
    expect_rest(rt, &mut feed, &mut source, input)?;
    expect_rest(rt, &mut feed, &mut source, b"")
}

#[test]
fn inputs_in_any_pieces(rt: HostRuntime) -> Result<(), Fail> {
    let alloc = rt.alloc();
    for piece in [1, 7, 65536] {
        expect_all(&rt, alloc, b"", piece)?;
        expect_all(&rt, alloc, b"one\n\0two", piece)?;
    }
    Ok(())
}

/// The second read fails. All is handed out when it is asked for again.
#[test]
fn a_fault_keeps_what_came(rt: HostRuntime) -> Result<(), Fail> {
    let alloc = rt.alloc();
    let mut source = MemSource::new(alloc, b"abcd", 2, &[2])?;
    let mut feed = Feed::new(alloc);
    assert!(rt; matches!(feed.all(&mut source), Err(FeedError::ReadFault)));
    expect_rest(&rt, &mut feed, &mut source, b"abcd")
}
