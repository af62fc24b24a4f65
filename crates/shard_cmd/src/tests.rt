ghost use Rattle.std.specs.Prelude.{◌≤◌};
ghost use Rattle.base_core.specs.Bounds.{AreLimits};

use super::*;
use base_core::{Limits, Text};
use script_io::{MemSink, MemSource, Source};
use std::alloc::{AllocError, Global};
use std::process::Abort;
use std::test::Fail;
use text_store::MemNodes;

const EMPTY: &[u8] = b"root 0000000000000000000000000000000000000000000000000000000000000000 0\n";

const ONE_PAIR: &[u8] =
    b"root c6d20f554d697a121ebc84350e46da9e3bb4e3c08d5f67204156fc6661069cc0 106\n";

const TWO_PAIRS: &[u8] =
    b"root 06481f83918f99a3be485a586d16b56c10a9d578353d60e887baa5f9c389262e 308\n";

const LATER_VALUE: &[u8] =
    b"root 5da05c02c385f5265c3bba3e931eb54dcd497b6189d84b71b41e7f6931bb1e68 307\n";

const THREE_PAIRS: &[u8] =
    b"root af4610cb4df6cdceed69a12f061aa392ce63174c3c5de75b535d521664685392 409\n";

const LONGEST_KEY: &[u8] =
    b"root f9b499e2766e52a17f98df2f0adc55534ac76dac94d63f20e44d1cdbca27b029 4331\n";

const LONGEST_KEY_ALONE: &[u8] =
    b"root dede5370d83325011dfa6876efc4d8b223f29d8b0a44c5410f7f3aead7f4a479 4330\n";

const NESTED_KEYS: &[u8] =
    b"root 0d01049e271b765a439d3f682300429c4ee901aa3e5c7662633bbf799841b9ca 321378\n";

fn words(alloc: Global, texts: &[&[u8]]) -> Result<Vec<Text>, AllocError> {
    let mut words = Vec::new(alloc);
    for text in texts {
        words.push(Text::copy(alloc, text)?)?;
    }
    Ok(words)
}

/// The input gives this output and status under `root`, where it comes in pieces of this length.
fn expect_by(
    rt: &impl Abort,
    alloc: Global,
    limits: &Limits,
    input: &[u8],
    piece: u64,
    output: &[u8],
    status: Status,
) -> Result<(), Fail>
    requires piece { 1 ≤ piece }
    requires limits { AreLimits limits.now }
{
    let words = words(alloc, &[b"root"])?;
    let mut source = MemSource::new(alloc, input, piece, &[])?;
    let mut sink = MemSink::new(alloc, 1024, 1024, &[])?;
    let nodes = MemNodes::new(alloc, &[])?;
    let outcome = run(
        alloc,
        words.as_slice(),
        &mut source,
        &mut sink,
        nodes,
        limits,
    );
    let ended = outcome.status;
    assert_eq!(rt; ended, status, "by {piece}");
    assert_eq!(rt; sink.bytes(), output, "by {piece}");
    Ok(())
}

/// The input gives this output and status under `root`, in whatever pieces it comes.
fn expect(
    rt: &impl Abort,
    alloc: Global,
    input: &[u8],
    output: &[u8],
    status: Status,
) -> Result<(), Fail> {
    let limits = &Limits::FULL;
    expect_by(rt, alloc, limits, input, 1, output, status)?;
    expect_by(rt, alloc, limits, input, 7, output, status)?;
    expect_by(rt, alloc, limits, input, 65536, output, status)
}

#[test]
fn scripts(rt: HostRuntime) -> Result<(), Fail> {
    let alloc = rt.alloc();
    let done = Status::Done;
    expect(&rt, alloc, b"", EMPTY, done)?;
    expect(&rt, alloc, b"set 61 6869\n", ONE_PAIR, done)?;
    let input = b"# two\nset 62 62\n\n#\nset 61 61\n\n";
    expect(&rt, alloc, input, TWO_PAIRS, done)?;
    let input = b"set 61 61\nset 62 62";
    expect(&rt, alloc, input, TWO_PAIRS, done)?;
    let input = b"set aB 31\nset AC 32\nset BB 33\n";
    expect(&rt, alloc, input, THREE_PAIRS, done)?;
    let input = b"set 61 61\nset 62 62\nset 61 -\n";
    expect(&rt, alloc, input, LATER_VALUE, done)?;
    let input = b"set 61 -\nset 62 62\n";
    expect(&rt, alloc, input, LATER_VALUE, done)?;
    let bad = Status::Syntax;
    expect(&rt, alloc, b"set 61 61\r\n", b"syntax 1\n", bad)?;
    expect(&rt, alloc, b"set 61  61\n", b"syntax 1\n", bad)?;
    let input = b"set 61 61\nset 6 61\n";
    expect(&rt, alloc, input, b"syntax 2\n", bad)?;
    let input = b"set 61 61\n# a comment\n\nset 61\nset 62\n";
    expect(&rt, alloc, input, b"syntax 4\n", bad)
}

/// Lines of blocks are none of `root`'s. The line before is done, and the one behind is not come to.
#[test]
fn lines_of_blocks(rt: HostRuntime) -> Result<(), Fail> {
    let alloc = rt.alloc();
    let table: [&[u8]; 5] = [
        b"set 61 61\nend\nset\n",
        b"set 61 61\ndel 61\nset\n",
        b"\nhead 0123456789abcdef0123456789abcdef0123456789abcdef0123456789abcdef",
        b"\nflat 0123456789abcdef0123456789abcdef0123456789abcdef0123456789abcdef -",
        b"#\nblock 0123456789abcdef0123456789abcdef0123456789abcdef0123456789abcdef 0000000000000000000000000000000000000000000000000000000000000000 7\n",
    ];
    for input in table {
        expect(&rt, alloc, input, b"syntax 2\n", Status::Syntax)?;
    }
    Ok(())
}

/// A script of one line, whose key has so many bytes, each of them 61.
fn long_key(alloc: Global, length: usize, value: &[u8]) -> Result<Vec<u8>, AllocError> {
    let mut script = Vec::new(alloc);
    script.extend_from_slice(b"set ")?;
    for _ in 0..length {
        script.extend_from_slice(b"61")?;
    }
    script.extend_from_slice(b" ")?;
    script.extend_from_slice(value)?;
    script.extend_from_slice(b"\n")?;
    Ok(script)
}

#[test]
fn longest_key(rt: HostRuntime) -> Result<(), Fail> {
    let alloc = rt.alloc();
    let input = long_key(alloc, 2114, b"62")?;
    expect(&rt, alloc, input.as_slice(), LONGEST_KEY, Status::Done)?;
    let input = long_key(alloc, 2114, b"-")?;
    expect(
        &rt,
        alloc,
        input.as_slice(),
        LONGEST_KEY_ALONE,
        Status::Done,
    )?;
    let input = long_key(alloc, 2115, b"-")?;
    expect(&rt, alloc, input.as_slice(), b"syntax 1\n", Status::Syntax)
}

/// Each key is a prefix of the next, up to the longest.
fn nested_keys(alloc: Global) -> Result<Vec<u8>, AllocError> {
    let mut script = Vec::new(alloc);
    script.extend_from_slice(b"set - -\n")?;
    let zeros = [b'0'; 4228];
    for length in 1..2115 {
        script.extend_from_slice(b"set ")?;
        script.extend_from_slice(&zeros[..2 * length])?;
        script.extend_from_slice(b" -\n")?;
    }
    Ok(script)
}

#[test]
fn deepest_trie(rt: HostRuntime) -> Result<(), Fail> {
    let alloc = rt.alloc();
    let input = nested_keys(alloc)?;
    let (limits, input) = (&Limits::FULL, input.as_slice());
    expect_by(&rt, alloc, limits, input, 65536, NESTED_KEYS, Status::Done)
}

#[test]
fn full_pairs(rt: HostRuntime) -> Result<(), Fail> {
    let alloc = rt.alloc();
    let one = Limits {
        pairs: 1,
        ..Limits::FULL
    };
    let full = b"refused full-pairs\n";
    // The third line is bad, and is not come to.
    let input = b"set 61 68\nset 62 62\nset\n";
    expect_by(&rt, alloc, &one, input, 7, full, Status::Refused)?;
    let input = b"set 61 68\nset 61 6869\n";
    expect_by(&rt, alloc, &one, input, 7, ONE_PAIR, Status::Done)
}

/// A run of `root` on one pair. The reads whose numbers are in the first list fail, and the writes
/// whose numbers are in the second. The sink has room for so many bytes, and takes 50 at a time.
fn faulty(
    alloc: Global,
    reads: &[u64],
    writes: &[u64],
    room: u64,
) -> Result<(Status, MemSink), AllocError> {
    let words = words(alloc, &[b"root"])?;
    let mut source = MemSource::new(alloc, b"set 61 6869\n", 7, reads)?;
    let mut sink = MemSink::new(alloc, room, 50, writes)?;
    let (words, limits) = (words.as_slice(), &Limits::FULL);
    let nodes = MemNodes::new(alloc, &[])?;
    let outcome = run(alloc, words, &mut source, &mut sink, nodes, limits);
    let status = outcome.status;
    Ok((status, sink))
}

#[test]
fn failing_streams(rt: HostRuntime) -> Result<(), Fail> {
    let alloc = rt.alloc();
    for read in 1..4 {
        let (status, sink) = faulty(alloc, &[read], &[], 100)?;
        assert_eq!(rt; status, Status::ReadFault, "read {read}");
        assert!(rt; sink.bytes().is_empty(), "read {read}");
    }
    // The last has room for the first 60 bytes.
    for (write, room, written) in [(1, 100, 0), (2, 100, 50), (4, 60, 60)] {
        let (status, sink) = faulty(alloc, &[], &[write], room)?;
        assert_eq!(rt; status, Status::WriteFault, "write {write}");
        assert_eq!(rt; sink.bytes(), &ONE_PAIR[..written], "write {write}");
    }
    // The run is over before these come.
    let (status, sink) = faulty(alloc, &[4], &[3], 74)?;
    assert_eq!(rt; status, Status::Done);
    assert_eq!(rt; sink.bytes(), ONE_PAIR);
    Ok(())
}

/// Words that are no command. The source is one whose first read fails: it is still to come.
fn expect_bad(rt: &impl Abort, alloc: Global, texts: &[&[u8]]) -> Result<(), Fail> {
    let words = words(alloc, texts)?;
    let mut source = MemSource::new(alloc, b"set 61 6869\n", 7, &[1])?;
    let mut sink = MemSink::new(alloc, 100, 5, &[])?;
    let (words, limits) = (words.as_slice(), &Limits::FULL);
    let nodes = MemNodes::new(alloc, &[])?;
    let outcome = run(alloc, words, &mut source, &mut sink, nodes, limits);
    let status = outcome.status;
    assert_eq!(rt; status, Status::Usage);
    assert_eq!(rt; sink.bytes(), b"bad command\n".as_slice());
    assert!(rt; source.read(&mut [0; 7]).is_err());
    Ok(())
}

#[test]
fn bad_words(rt: HostRuntime) -> Result<(), Fail> {
    let alloc = rt.alloc();
    expect_bad(&rt, alloc, &[])?;
    expect_bad(&rt, alloc, &[b"Root"])?;
    expect_bad(&rt, alloc, &[b"root", b""])
}

#[test]
fn exit_statuses(rt: HostRuntime) {
    let statuses = [
        Status::Done,
        Status::NoMemory,
        Status::Usage,
        Status::Syntax,
        Status::Refused,
        Status::ReadFault,
        Status::WriteFault,
    ];
    for (i, status) in statuses.into_iter().enumerate() {
        assert_eq!(rt; status as usize, i);
    }
}
