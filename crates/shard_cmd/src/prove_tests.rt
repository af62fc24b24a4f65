use super::*;
use crate::replay_tests::{DELETION, READS, recording, texts};
use crate::shard_tests::{FORKS, LINE, expect, expect_faults, run_over, spelled};
use base_core::{Limits, Text};
use script_io::{MemSink, MemSource};
use std::alloc::{AllocError, Global};
use std::process::Abort;
use std::test::Fail;
use text_store::{MemNodes, Nodes, Texts};

const OTHER: &[u8] = b"0707070707070707070707070707070707070707070707070707070707070707";

/// The recording of these words at the block with both keys, behind a script that loads four texts.
fn expect_recording(
    rt: &impl Abort,
    alloc: Global,
    words: &[&[u8]],
    recorded: &Text,
    loads: u64,
) -> Result<(), Fail> {
    let ended = run_over(alloc, words, LINE, 0)?;
    assert_eq!(rt; ended.outcome.status, Status::Done);
    assert!(rt; ended.written.bytes() == recorded.as_slice());
    let nodes = &ended.outcome.nodes;
    assert_eq!(rt; (nodes.loads(), nodes.distinct()), (loads, 7));
    Ok(())
}

/// A deletion touches four nodes, also where a change of the same key stands before it.
#[test]
fn a_deletion(rt: HostRuntime) -> Result<(), Fail> {
    let alloc = rt.alloc();
    let recorded = recording(alloc, DELETION, &texts(alloc, true, false, false)?)?;
    expect_recording(&rt, alloc, &[b"prove", b"A", b"-62"], &recorded, 8)?;
    expect_recording(
        &rt,
        alloc,
        &[b"prove", b"A", b"+62=63", b"-62"],
        &recorded,
        8,
    )
}

/// Reads look at the state before any change, wherever they stand.
#[test]
fn reads_and_a_deletion(rt: HostRuntime) -> Result<(), Fail> {
    let alloc = rt.alloc();
    let recorded = recording(alloc, READS, &texts(alloc, true, false, true)?)?;
    expect_recording(
        &rt,
        alloc,
        &[b"prove", b"A", b"?62", b"?63", b"-62"],
        &recorded,
        14,
    )?;
    expect_recording(
        &rt,
        alloc,
        &[b"prove", b"A", b"-62", b"?62", b"?63"],
        &recorded,
        14,
    )
}

/// A block that is not live, and a script that is refused.
#[test]
fn refused_requests(rt: HostRuntime) -> Result<(), Fail> {
    let alloc = rt.alloc();
    let words: &[&[u8]] = &[b"prove", OTHER, b"?61"];
    let course = (Status::Refused, 4, 7);
    expect(&rt, alloc, words, LINE, b"refused not-live\n", course)?;
    let words: &[&[u8]] = &[b"prove", b"A", b"?61"];
    let script = b"block A Z 1\nset 61 61\nend\nblock B A 2\nstats\nend\n";
    let course = (Status::Syntax, 0, 2);
    expect(&rt, alloc, words, script, b"syntax 5\n", course)
}

/// The words on a source whose first read fails, where one key may be changed.
fn one_change(alloc: Global, command: &[&[u8]]) -> Result<(Status, MemSink), AllocError> {
    let mut words = Vec::new(alloc);
    for word in command {
        words.push(spelled(alloc, word)?)?;
    }
    let mut source = MemSource::new(alloc, b"block", 100, &[1])?;
    let mut sink = MemSink::new(alloc, 1000, 50, &[])?;
    let nodes = MemNodes::new(alloc, &[])?;
    let limits = Limits {
        pairs: 1,
        blocks: 2,
        changes: 1,
    };
    let words = words.as_slice();
    let outcome = run(alloc, words, &mut source, &mut sink, nodes, &limits);
    let status = outcome.status;
    Ok((status, sink))
}

/// A second changed key is one too many, and nothing is read then.
#[test]
fn too_many_changes(rt: HostRuntime) -> Result<(), Fail> {
    let alloc = rt.alloc();
    let words: &[&[u8]] = &[b"prove", b"A", b"?61", b"-62", b"?63", b"+63=-"];
    let (status, sink) = one_change(alloc, words)?;
    assert_eq!(rt; status, Status::Refused);
    assert_eq!(rt; sink.bytes(), b"refused full-changes\n".as_slice());
    // The same key twice is one.
    let words: &[&[u8]] = &[b"prove", b"A", b"-62", b"+62=-"];
    let (status, sink) = one_change(alloc, words)?;
    assert_eq!(rt; status, Status::ReadFault);
    assert!(rt; sink.bytes().is_empty());
    Ok(())
}

/// The store fails at each of its calls in turn. Where it fails in a recording nothing is written.
#[test]
fn failing_stores(rt: HostRuntime) -> Result<(), Fail> {
    let steps = [
        (7, 0, (0, 6), (0, 1)),
        (6, 0, (6, 7), (1, 1)),
        (3, 0, (7, 7), (1, 2)),
        (7, 0, (2, 7), (1, 2)),
        (3, 0, (2, 2), (1, 1)),
    ];
    let alloc = rt.alloc();
    let words: &[&[u8]] = &[b"prove", b"B", b"?61", b"-61"];
    let whole = run_over(alloc, words, FORKS, 0)?;
    expect_faults(&rt, alloc, words, whole.written.bytes(), &steps)
}
