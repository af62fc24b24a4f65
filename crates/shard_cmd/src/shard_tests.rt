use super::*;
use base_core::{Limits, Text, digest};
use script_io::{MemSink, MemSource};
use std::alloc::{AllocError, Global};
use std::process::Abort;
use std::test::Fail;
use text_store::{MemNodes, Nodes, Texts};

/// What a capital letter stands for in a script or a reply of these tests: an id, or a root that
/// another program computed.
fn spelling(letter: u8) -> Option<&'static [u8]> {
    match letter {
        b'Z' => Some(b"0000000000000000000000000000000000000000000000000000000000000000"),
        b'A' => Some(b"0101010101010101010101010101010101010101010101010101010101010101"),
        b'B' => Some(b"0202020202020202020202020202020202020202020202020202020202020202"),
        b'C' => Some(b"0303030303030303030303030303030303030303030303030303030303030303"),
        // of 61 and 61
        b'R' => Some(b"cfbcdb2eb8dbb0eb842f2bcde9119be3c52b1c917c6df883427205cec06387cc"),
        // of 61 and 61, 62 and 62
        b'T' => Some(b"06481f83918f99a3be485a586d16b56c10a9d578353d60e887baa5f9c389262e"),
        _ => None,
    }
}

pub fn spelled(alloc: Global, text: &[u8]) -> Result<Text, AllocError> {
    let mut bytes = Vec::new(alloc);
    for byte in text {
        match spelling(*byte) {
            Some(digits) => bytes.extend_from_slice(digits)?,
            None => bytes.push(*byte)?,
        }
    }
    Text::copy(alloc, bytes.as_slice())
}

/// A run of the words on the script, over a store that fails at a call, and the bytes that it wrote.
#[derive(Drop)]
pub struct Ended {
    pub outcome: Outcome<MemNodes>,
    pub written: MemSink,
}

pub fn run_over(
    alloc: Global,
    command: &[&[u8]],
    script: &[u8],
    fails: u64,
) -> Result<Ended, AllocError> {
    let mut words = Vec::new(alloc);
    for word in command {
        words.push(spelled(alloc, word)?)?;
    }
    let input = spelled(alloc, script)?;
    let mut source = MemSource::new(alloc, input.as_slice(), 1000, &[])?;
    let mut written = MemSink::new(alloc, 2000, 2000, &[])?;
    let nodes = MemNodes::new(alloc, &[fails])?;
    let (words, limits) = (words.as_slice(), &Limits::FULL);
    let outcome = run(alloc, words, &mut source, &mut written, nodes, limits);
    Ok(Ended { outcome, written })
}

/// The words and the script give this output and status. So many texts are loaded, and so many are
/// held then.
pub fn expect(
    rt: &impl Abort,
    alloc: Global,
    command: &[&[u8]],
    script: &[u8],
    output: &[u8],
    (status, loads, held): (Status, u64, u64),
) -> Result<(), Fail> {
    let ended = run_over(alloc, command, script, 0)?;
    assert_eq!(rt; ended.outcome.status, status);
    assert!(rt; ended.written.bytes() == spelled(alloc, output)?.as_slice());
    let nodes = &ended.outcome.nodes;
    assert!(rt; (nodes.loads(), nodes.distinct()) == (loads, held));
    Ok(())
}

pub const LINE: &[u8] = b"block A Z 1\nset 61 61\nset 62 62\nend\nblock B A 2\ndel 62\nend\n";

/// One of two keys is deleted. Its leaf stays until the head has passed the block.
#[test]
fn one_of_two_keys_deleted(rt: HostRuntime) -> Result<(), Fail> {
    let script =
        b"block A Z 1\nset 61 61\nset 62 62\nend\nblock B A 2\ndel 62\nend\nusage A\nusage B\n\
        trie B 62\ntrie B 61\nflat B 62\nstats\nhead B\nstats\n";
    let output =
        b"block A ok T\nblock B ok R\nusage 308\nusage 105\ntrie none\ntrie 61\nflat none\n\
        stats 3 0 3 7\nhead B ok 2 0\nstats 1 1 0 2\n";
    let course = (Status::Done, 9, 2);
    expect(&rt, rt.alloc(), &[b"apply"], script, output, course)
}

#[test]
fn two_forks_alike(rt: HostRuntime) -> Result<(), Fail> {
    let script = b"block A Z 1\nset 61 61\nset 62 62\nend\nblock B Z 1\nset 61 61\nset 62 62\nend\n\
        same A B\nsame A Z\nstats\nhead A\nstats\nflat B 61\ntrie B 61\nsame A B\nusage B\n";
    let output = b"block A ok T\nblock B ok T\nsame yes\nsame no\nstats 3 0 4 6\nhead A ok 1 1\n\
        stats 1 2 0 6\nflat refused not-live\ntrie refused not-live\nsame refused not-live\n\
        usage refused not-live\n";
    let course = (Status::Done, 0, 6);
    expect(&rt, rt.alloc(), &[b"apply"], script, output, course)
}

/// Both keys have one value, so that their leaves are one text.
#[test]
fn two_leaves_alike(rt: HostRuntime) -> Result<(), Fail> {
    let script =
        b"block A Z 1\nset 61 76\nset 62 76\nend\nstats\nblock B A 2\ndel 62\nend\nstats\nhead B\nstats\n";
    let output = b"block A ok 05d65799a28064e3ae393adb402beaf4645d8eeb0341c5794286e97943bb530d\n\
        stats 2 0 2 4\nblock B ok 45fd0f55f715d43cbc44cd7cc09796c5f0a77e14279c2c5fc3abe2912affc09d\n\
        stats 3 0 3 5\nhead B ok 2 0\nstats 1 1 0 2\n";
    let course = (Status::Done, 4, 2);
    expect(&rt, rt.alloc(), &[b"apply"], script, output, course)
}

/// A value that is the text of the other key's leaf.
#[test]
fn leaf_as_a_value(rt: HostRuntime) -> Result<(), Fail> {
    let script =
        b"block A Z 1\nset 61 6869\nset 62 000100000020020000008f434346648f6b96df89dda901c5176b10a6d83961dd3c1ac88b59b2dc327aa46800000000000000\nend\nstats\n";
    let output =
        b"block A ok b176673eae05d3804cdf25a79e25a71871969c7978ca439061ade084ea4ee921\nstats 2 0 2 5\n";
    let course = (Status::Done, 0, 5);
    expect(&rt, rt.alloc(), &[b"apply"], script, output, course)
}

#[test]
fn keys_behind_a_script(rt: HostRuntime) -> Result<(), Fail> {
    let alloc = rt.alloc();
    let course = (Status::Done, 6, 7);
    expect(
        &rt,
        alloc,
        &[b"get", b"B", b"61"],
        LINE,
        b"flat 61\ntrie 61\n",
        course,
    )?;
    let course = (Status::Done, 5, 7);
    expect(
        &rt,
        alloc,
        &[b"get", b"B", b"62"],
        LINE,
        b"flat none\ntrie none\n",
        course,
    )?;
    let id = b"0707070707070707070707070707070707070707070707070707070707070707";
    let course = (Status::Refused, 4, 7);
    expect(
        &rt,
        alloc,
        &[b"get", id, b"61"],
        LINE,
        b"refused not-live\n",
        course,
    )?;
    // Readings are skipped between blocks, and refused within one.
    let script = b"usage Z\nblock A Z 1\nset 61 61\nend\ntrie A 61\nstats\nhead B\n";
    let course = (Status::Done, 2, 2);
    expect(
        &rt,
        alloc,
        &[b"get", b"A", b"61"],
        script,
        b"flat 61\ntrie 61\n",
        course,
    )?;
    let script = b"block A Z 1\nset 61 61\nend\nblock B A 2\nstats\nend\n";
    let course = (Status::Syntax, 0, 2);
    expect(
        &rt,
        alloc,
        &[b"get", b"A", b"61"],
        script,
        b"syntax 5\n",
        course,
    )
}

/// Two forks of one state, and what is read of them.
pub const FORKS: &[u8] = b"block A Z 1\nset 61 61\nset 62 62\nend\nblock B A 2\ndel 62\nend\n\
    block C Z 1\nset 61 61\nend\ntrie B 61\nusage C\nhead B\nstats\n";

const FORKS_OUTPUT: &[u8] = b"block A ok T\nblock B ok R\nblock C ok R\ntrie 61\nusage 105\n\
    head B ok 2 1\nstats 1 1 0 2\n";

/// The least and the most of a count.
type Span = (u64, u64);

/// The store fails at a call. So many bytes of the output are written, so many texts are held, and
/// so often the value 61 is counted.
fn expect_fault(
    rt: &impl Abort,
    alloc: Global,
    command: &[&[u8]],
    fails: u64,
    written: &[u8],
    held: Span,
    counted: Span,
) -> Result<(), Fail> {
    let ended = run_over(alloc, command, FORKS, fails)?;
    assert_eq!(rt; ended.outcome.status, Status::StoreFault);
    assert!(rt; ended.written.bytes() == written);
    expect_between(rt, ended.outcome.nodes.distinct(), held);
    expect_between(rt, ended.outcome.nodes.count(&digest(b"a")), counted);
    Ok(())
}

fn expect_between(rt: &impl Abort, count: u64, (least, most): Span) {
    assert!(rt; least <= count && count <= most);
}

/// The run is over before the call comes at which the store fails.
pub fn expect_done(
    rt: &impl Abort,
    alloc: Global,
    command: &[&[u8]],
    script: &[u8],
    fails: u64,
    output: &[u8],
) -> Result<(), Fail> {
    let ended = run_over(alloc, command, script, fails)?;
    assert_eq!(rt; ended.outcome.status, Status::Done);
    assert!(rt; ended.written.bytes() == output);
    Ok(())
}

/// What stands for each step that calls the store: how many calls it makes, how many bytes of the
/// output are written where one of them fails, between how many texts are held then, and between
/// how often the value 61 is counted.
pub fn expect_faults(
    rt: &impl Abort,
    alloc: Global,
    command: &[&[u8]],
    output: &[u8],
    steps: &[(u64, usize, Span, Span)],
) -> Result<(), Fail> {
    let mut fails = 1u64;
    for (calls, written, held, counted) in steps {
        let Some((written, _)) = output.split_at_checked(*written) else {
            return Err(Fail::new("the output is shorter"));
        };
        for _ in 0..*calls {
            expect_fault(rt, alloc, command, fails, written, *held, *counted)?;
            fails = fails.saturating_add(1);
        }
    }
    expect_done(rt, alloc, command, FORKS, fails, output)
}

/// The store fails at each of its calls in turn. The replies that are due are written.
#[test]
fn failing_stores(rt: HostRuntime) -> Result<(), Fail> {
    let alloc = rt.alloc();
    let steps = [
        (7, 0, (0, 6), (0, 1)),
        (6, 139, (6, 7), (1, 1)),
        (3, 278, (7, 7), (1, 2)),
        (2, 417, (7, 7), (2, 2)),
        (1, 425, (7, 7), (2, 2)),
        (7, 435, (2, 7), (1, 2)),
    ];
    let output = spelled(alloc, FORKS_OUTPUT)?;
    expect_faults(&rt, alloc, &[b"apply"], output.as_slice(), &steps)?;
    let steps = [
        (7, 0, (0, 6), (0, 1)),
        (6, 0, (6, 7), (1, 1)),
        (3, 0, (7, 7), (1, 2)),
        (7, 0, (2, 7), (1, 2)),
        (2, 8, (2, 2), (1, 1)),
    ];
    let output = b"flat 61\ntrie 61\n";
    expect_faults(&rt, alloc, &[b"get", b"B", b"61"], output, &steps)
}

/// `root` calls no store.
#[test]
fn root_without_a_store(rt: HostRuntime) -> Result<(), Fail> {
    let alloc = rt.alloc();
    let output = spelled(alloc, b"root R 105\n")?;
    expect_done(&rt, alloc, &[b"root"], b"set 61 61\n", 1, output.as_slice())
}
