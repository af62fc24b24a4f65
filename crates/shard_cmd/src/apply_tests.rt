ghost use Rattle.std.specs.Prelude.{◌≤◌};
ghost use Rattle.base_core.specs.Bounds.{AreLimits};

use super::*;
use base_core::{Limits, Text};
use script_io::{MemSink, MemSource};
use std::alloc::{AllocError, Global};
use std::process::Abort;
use std::test::Fail;
use text_store::MemNodes;

/// What a capital letter stands for in a script or a reply of these tests: an id, or a root that
/// another program computed.
fn spelling(letter: u8) -> Option<&'static [u8]> {
    match letter {
        b'Z' => Some(b"0000000000000000000000000000000000000000000000000000000000000000"),
        b'A' => Some(b"0101010101010101010101010101010101010101010101010101010101010101"),
        b'B' => Some(b"0202020202020202020202020202020202020202020202020202020202020202"),
        b'C' => Some(b"0303030303030303030303030303030303030303030303030303030303030303"),
        b'D' => Some(b"0404040404040404040404040404040404040404040404040404040404040404"),
        b'I' => Some(b"0909090909090909090909090909090909090909090909090909090909090909"),
        // of 61 and 61
        b'R' => Some(b"cfbcdb2eb8dbb0eb842f2bcde9119be3c52b1c917c6df883427205cec06387cc"),
        // of 61 and 61, 62 and 62
        b'T' => Some(b"06481f83918f99a3be485a586d16b56c10a9d578353d60e887baa5f9c389262e"),
        _ => None,
    }
}

fn spelled(alloc: Global, text: &[u8]) -> Result<Vec<u8>, AllocError> {
    let mut bytes = Vec::new(alloc);
    for byte in text {
        match spelling(*byte) {
            Some(digits) => bytes.extend_from_slice(digits)?,
            None => bytes.push(*byte)?,
        }
    }
    Ok(bytes)
}

fn words(alloc: Global) -> Result<Vec<Text>, AllocError> {
    let mut words = Vec::new(alloc);
    words.push(Text::copy(alloc, b"apply")?)?;
    Ok(words)
}

/// The input gives this output and status, where it comes in pieces of this length.
fn expect_by(
    rt: &impl Abort,
    alloc: Global,
    limits: &Limits,
    input: &[u8],
    piece: u64,
    output: &[u8],
    status: Status,
) -> Result<(), Fail>
    requires piece { 1 ≤ piece }
    requires limits { AreLimits limits.now }
{
    let words = words(alloc)?;
    let mut source = MemSource::new(alloc, input, piece, &[])?;
    let mut sink = MemSink::new(alloc, 2048, 2048, &[])?;
    let nodes = MemNodes::new(alloc, &[])?;
    let outcome = run(
        alloc,
        words.as_slice(),
        &mut source,
        &mut sink,
        nodes,
        limits,
    );
    let ended = outcome.status;
    assert_eq!(rt; ended, status, "by {piece}");
    assert_eq!(rt; sink.bytes(), output, "by {piece}");
    Ok(())
}

/// The script gives this output and status, in whatever pieces it comes.
fn expect(
    rt: &impl Abort,
    alloc: Global,
    limits: &Limits,
    script: &[u8],
    output: &[u8],
    status: Status,
) -> Result<(), Fail>
    requires { AreLimits limits.now }
{
    let (input, output) = (spelled(alloc, script)?, spelled(alloc, output)?);
    let (input, output) = (input.as_slice(), output.as_slice());
    expect_by(rt, alloc, limits, input, 1, output, status)?;
    expect_by(rt, alloc, limits, input, 7, output, status)?;
    expect_by(rt, alloc, limits, input, 65536, output, status)
}

#[test]
fn forks_and_a_move(rt: HostRuntime) -> Result<(), Fail> {
    let script = b"block A Z 1\nset 61 61\nend\nblock B A 2\nend\nblock C A 3\nset 62 62\nend\n\
        block D B 5\nend\nhead B\nflat C 62\nblock C D 5\nend\nblock C I 6\nend\nblock C D 6\nend\n\
        flat C 61\nblock D C 7\nend\n";
    let output = b"block A ok R\nblock B ok R\nblock C ok T\nblock D ok R\nhead B ok 2 1\n\
        flat refused not-live\nblock C refused height\nblock C refused no-prev\nblock C ok R\n\
        flat 61\nblock D refused known\n";
    let limits = &Limits::FULL;
    expect(&rt, rt.alloc(), limits, script, output, Status::Done)
}

#[test]
fn readings(rt: HostRuntime) -> Result<(), Fail> {
    let script = b"# two values\nblock A Z 18446744073709551615\nset 61 -\nset 62 6\nend\n";
    let limits = &Limits::FULL;
    let bad = Status::Syntax;
    expect(&rt, rt.alloc(), limits, script, b"syntax 4\n", bad)?;
    let script = b"block A Z 1\nset 61 -\nset 62 62\nset 63 63\ndel 63\nend\nflat A 61\nflat A 62\n\
        flat A 63\nflat Z 61\nblock B A 2\ndel 62\nset 61 6161\nend\nflat B 62\nflat A 62\nhead B\n\
        flat B 61\nhead A";
    let output =
        b"block A ok 5da05c02c385f5265c3bba3e931eb54dcd497b6189d84b71b41e7f6931bb1e68\nflat -\n\
        flat 62\nflat none\nflat none\n\
        block B ok cdcfeb9e1f1cef67dcfb6db9619733c63135cf16e687a4ff1f5c27feab16a31f\nflat none\n\
        flat 62\nhead B ok 2 0\nflat 6161\nhead A refused not-live\n";
    expect(&rt, rt.alloc(), limits, script, output, Status::Done)
}

/// A line may stand where it may not, and the replies to those before it stay.
#[test]
fn misplaced_lines(rt: HostRuntime) -> Result<(), Fail> {
    let (alloc, limits) = (rt.alloc(), &Limits::FULL);
    expect(&rt, alloc, limits, b"", b"", Status::Done)?;
    let bad = Status::Syntax;
    expect(&rt, alloc, limits, b"set 61 61\n", b"syntax 1\n", bad)?;
    expect(&rt, alloc, limits, b"\ndel 61\n", b"syntax 2\n", bad)?;
    expect(&rt, alloc, limits, b"block A Z 1\n", b"syntax 2\n", bad)?;
    let script = b"block A Z 1\nblock B Z 1\nend\n";
    expect(&rt, alloc, limits, script, b"syntax 2\n", bad)?;
    let script = b"block A Z 1\nend\nflat A 61\nend\nset\n";
    let output = b"block A ok Z\nflat none\nsyntax 4\n";
    expect(&rt, alloc, limits, script, output, bad)?;
    let script = b"head A\nblock A Z 1\nflat A 61\n";
    let output = b"head A refused not-live\nsyntax 3\n";
    expect(&rt, alloc, limits, script, output, bad)
}

#[test]
fn limits(rt: HostRuntime) -> Result<(), Fail> {
    let alloc = rt.alloc();
    let few = Limits {
        pairs: 1,
        blocks: 2,
        changes: 1,
    };
    let script = b"block A Z 1\nset 61 61\nset 61 61\nend\nblock B A 2\nend\n";
    let output = b"block A ok R\nblock B refused full-blocks\n";
    expect(&rt, alloc, &few, script, output, Status::Done)?;
    let script = b"block A Z 1\nset 61 61\ndel 62\nend\n";
    expect(&rt, alloc, &few, script, b"syntax 3\n", Status::Syntax)?;
    let one = Limits {
        pairs: 1,
        ..Limits::FULL
    };
    // The refused block leaves no change.
    let script =
        b"block A Z 1\nset 61 61\nset 62 62\nend\nflat Z 61\nblock A Z 1\nset 61 61\nend\n";
    let output = b"block A refused full-pairs\nflat none\nblock A ok R\n";
    expect(&rt, alloc, &one, script, output, Status::Done)
}

const TWINS: &[u8] = b"block A Z 1\nset 61 61\nset 62 62\nend\nblock B Z 1\nset 61 61\nset 62 62\n\
    end\nhead A\nflat B 61\n";

const TWINS_OUTPUT: &[u8] = b"block A ok T\nblock B ok T\nhead A ok 1 1\nflat refused not-live\n";

/// A run on two like blocks, where the source gives 100 bytes at a time and the sink takes 50. The
/// reads whose numbers are in the first list fail, and the writes whose numbers are in the second.
/// The status is this one, and so many bytes of the output are written.
fn expect_fault(
    rt: &impl Abort,
    alloc: Global,
    reads: &[u64],
    writes: &[u64],
    status: Status,
    written: usize,
) -> Result<(), Fail> {
    let words = words(alloc)?;
    let (input, output) = (spelled(alloc, TWINS)?, spelled(alloc, TWINS_OUTPUT)?);
    let mut source = MemSource::new(alloc, input.as_slice(), 100, reads)?;
    let mut sink = MemSink::new(alloc, 1000, 50, writes)?;
    let (words, limits) = (words.as_slice(), &Limits::FULL);
    let nodes = MemNodes::new(alloc, &[])?;
    let outcome = run(alloc, words, &mut source, &mut sink, nodes, limits);
    let ended = outcome.status;
    assert_eq!(rt; ended, status);
    assert_eq!(rt; sink.bytes().len(), written);
    assert!(rt; output.as_slice().starts_with(sink.bytes()));
    Ok(())
}

/// The replies that are due are written, whichever read fails.
#[test]
fn failing_reads(rt: HostRuntime) -> Result<(), Fail> {
    let alloc = rt.alloc();
    for (read, written) in [(1, 0), (2, 0), (3, 139), (4, 139), (5, 355), (6, 377)] {
        expect_fault(&rt, alloc, &[read], &[], Status::ReadFault, written)?;
    }
    expect_fault(&rt, alloc, &[7], &[], Status::Done, 377)
}

#[test]
fn failing_writes(rt: HostRuntime) -> Result<(), Fail> {
    let alloc = rt.alloc();
    for write in 1..9 {
        let written = 50 * (write as usize - 1);
        expect_fault(&rt, alloc, &[], &[write], Status::WriteFault, written)?;
    }
    expect_fault(&rt, alloc, &[], &[9], Status::Done, 377)?;
    // The source fails, and then the sink.
    expect_fault(&rt, alloc, &[5], &[3], Status::WriteFault, 100)
}
