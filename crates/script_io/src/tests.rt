ghost use Rattle.std.specs.Prelude.{◌≤◌};

use super::*;
use base_core::Text;
use std::alloc::{AllocError, Global};
use std::io;
use std::io::{ErrorKind, Read, Write};
use std::process::Abort;
use std::test::Fail;

fn copies(alloc: Global, byte: u8, count: usize) -> Result<Vec<u8>, AllocError> {
    vec![in alloc; byte; count]
}

/// The next line is this one, of this number.
fn expect_next<S: Source>(
    rt: &impl Abort,
    lines: &mut Lines,
    source: &mut S,
    want: &[u8],
    number: u64,
) -> Result<(), Fail> {
    assert!(rt; lines.next(source)? == Some(want), "line {number}");
    assert!(rt; lines.number() == number, "line {number}");
    Ok(())
}

fn expect_end<S: Source>(rt: &impl Abort, lines: &mut Lines, source: &mut S) -> Result<(), Fail> {
    assert!(rt; lines.next(source)?.is_none());
    Ok(())
}

fn expect_fault<S: Source>(rt: &impl Abort, lines: &mut Lines, source: &mut S) {
    assert!(rt; matches!(lines.next(source), Err(LineError::ReadFault)));
}

/// Copies of words.
pub(crate) fn texts(alloc: Global, words: &[&[u8]]) -> Result<Vec<Text>, AllocError> {
    let mut texts = Vec::new(alloc);
    for word in words {
        texts.push(Text::copy(alloc, word)?)?;
    }
    Ok(texts)
}

/// Reads the lines of an input in pieces.
fn expect_lines(
    rt: &impl Abort,
    alloc: Global,
    input: &[u8],
    piece: u64,
    want: &[&[u8]],
) -> Result<(), Fail>
    requires { 1 ≤ piece }
{
    let mut source = MemSource::new(alloc, input, piece, &[])?;
    let mut lines = Lines::new(alloc);
    assert!(rt; lines.number() == 0);
    for (i, line) in want.iter().enumerate() {
        expect_next(rt, &mut lines, &mut source, line, i as u64 + 1)?;
    }
    expect_end(rt, &mut lines, &mut source)
}

#[test]
fn lines_in_any_pieces(rt: HostRuntime) -> Result<(), Fail> {
    let alloc = rt.alloc();
    let table: [(&[u8], &[&[u8]]); 7] = [
        (b"", &[]),
        (b"\n", &[b""]),
        (b"\n\n", &[b"", b""]),
        (b"# one\n\nset 61 -\n", &[b"# one", b"", b"set 61 -"]),
        (
            b"no line\nfeed at the end",
            &[b"no line", b"feed at the end"],
        ),
        (b"one\r\ntwo\r", &[b"one\r", b"two\r"]),
        (b"seven_b\neightby\n\0", &[b"seven_b", b"eightby", b"\0"]),
    ];
    for (input, want) in table {
        for piece in [1, 7, 65536] {
            expect_lines(&rt, alloc, input, piece, want)?;
        }
    }
    Ok(())
}

#[test]
fn longest_line(rt: HostRuntime) -> Result<(), Fail> {
    let alloc = rt.alloc();
    let mut input = copies(alloc, b'x', 8400000)?;
    expect_lines(&rt, alloc, input.as_slice(), 65536, &[input.as_slice()])?;

    input.push(b'x')?;
    let mut source = MemSource::new(alloc, input.as_slice(), 65536, &[])?;
    let mut lines = Lines::new(alloc);
    for _ in 0..2 {
        assert!(&rt; matches!(lines.next(&mut source), Err(LineError::Long)));
        assert!(&rt; lines.number() == 1);
    }
    Ok(())
}

/// The second and the fourth read fail. The line is handed out when it is asked for again.
#[test]
fn source_fails(rt: HostRuntime) -> Result<(), Fail> {
    let alloc = rt.alloc();
    let mut source = MemSource::new(alloc, b"ab\ncd", 2, &[2, 4])?;
    let mut lines = Lines::new(alloc);
    for (number, line) in [(1, b"ab"), (2, b"cd")] {
        expect_fault(&rt, &mut lines, &mut source);
        assert!(rt; lines.number() == number);
        expect_next(&rt, &mut lines, &mut source, line, number)?;
    }
    expect_end(&rt, &mut lines, &mut source)
}

/// The word of a command.
fn word_of(command: &Command) -> &'static [u8] {
    match command {
        Command::Root => b"root",
        Command::Apply => b"apply",
        Command::Get { .. } => b"get",
        Command::Prove { .. } => b"prove",
        Command::Replay => b"replay",
    }
}

/// The words are the command of this word, or none where it is empty.
fn expect_command(
    rt: &impl Abort,
    alloc: Global,
    words: &[&[u8]],
    want: &[u8],
) -> Result<(), Fail> {
    let texts = texts(alloc, words)?;
    match read_command(alloc, texts.as_slice()) {
        Ok(found) => assert!(rt; word_of(&found) == want, "{words:?}"),
        Err(CommandError::Bad) => assert!(rt; want.is_empty(), "{words:?}"),
        Err(CommandError::NoMemory) => return Err(Fail::from(AllocError)),
    }
    Ok(())
}

const ID: &[u8; 64] = b"0123456789ABCDEF0123456789abcdef0123456789abcdef0123456789abcdef";

#[test]
fn commands(rt: HostRuntime) -> Result<(), Fail> {
    let alloc = rt.alloc();
    let table: [(&[&[u8]], &[u8]); 21] = [
        (&[b"root"], b"root"),
        (&[b"apply"], b"apply"),
        (&[b"replay"], b"replay"),
        (&[], b""),
        (&[b""], b""),
        (&[b"Root"], b""),
        (&[b"roots"], b""),
        (&[b"appl"], b""),
        (&[b"root", b""], b""),
        (&[b"apply", b"root"], b""),
        (&[b"replay", b""], b""),
        (&[b"get", ID, b"61"], b"get"),
        (&[b"get", ID], b""),
        (&[b"get", ID, b"6"], b""),
        (&[b"get", b"61", ID], b""),
        (&[b"get", ID, b"61", b""], b""),
        (&[b"prove", ID, b"?61"], b"prove"),
        (&[b"prove", ID, b"?61", b"+62=63", b"-64"], b"prove"),
        (&[b"prove", ID], b""),
        (&[b"prove", b"?61", ID], b""),
        (&[b"proved", ID, b"?61"], b""),
    ];
    for (words, want) in table {
        expect_command(&rt, alloc, words, want)?;
    }
    Ok(())
}

/// Of seven bytes a sink takes these, which are all where it is done, and then none.
fn expect_taken(rt: &impl Abort, sink: &mut MemSink, done: bool, want: &[u8]) {
    let found = put(sink, b"abcdefg").is_ok();
    assert!(rt; found == done, "{want:?}");
    assert!(rt; sink.bytes() == want, "{want:?}");
    assert!(rt; put(sink, b"").is_ok(), "no write");
}

/// A sink of so many bytes takes them in pieces, and the third write fails where `fails` is 3.
#[test]
fn writes_in_pieces(rt: HostRuntime) -> Result<(), Fail> {
    let alloc = rt.alloc();
    let table: [(u64, u64, u64, bool, &[u8]); 6] = [
        (9, 1, 0, true, b"abcdefg"),
        (7, 4, 0, true, b"abcdefg"),
        (7, 9, 0, true, b"abcdefg"),
        (6, 4, 0, false, b"abcdef"),
        (9, 2, 3, false, b"abcd"),
        (0, 1, 0, false, b""),
    ];
    for (most, piece, fails, done, want) in table {
        let mut sink = MemSink::new(alloc, most, piece, &[fails])?;
        expect_taken(&rt, &mut sink, done, want);
    }
    Ok(())
}

#[test]
fn printed_forms(rt: HostRuntime) -> Result<(), Fail> {
    let mut buffer = Buffer::new(rt.alloc());
    for n in [0, 9, 10, 100, u64::MAX] {
        put_number(&mut buffer, n)?;
        put(&mut buffer, b" ")?;
    }
    for bytes in [b"".as_slice(), b"\x00\xff\x1a"] {
        put_hex(&mut buffer, bytes)?;
    }
    let want = b"0 9 10 100 18446744073709551615 -00ff1a".as_slice();
    assert!(rt; buffer.bytes() == want);
    Ok(())
}

/// More bytes than are spelled at a time.
#[test]
fn many_digits(rt: HostRuntime) -> Result<(), Fail> {
    let alloc = rt.alloc();
    let mut bytes = copies(alloc, 0xa5, 1024)?;
    bytes.push(0x0f)?;
    let mut sink = MemSink::new(alloc, 2050, 100, &[])?;
    put_hex(&mut sink, bytes.as_slice())?;
    let found = sink.bytes();
    assert!(rt; found.len() == 2050 && found.starts_with(b"a5a5") && found.ends_with(b"a5a50f"));
    Ok(())
}

/// A stream whose reads and flushes fail. It takes whatever is written.
#[derive(Drop)]
struct Broken;

impl Read for Broken {
    fn read(&mut self, _: &mut [u8]) -> io::Result<usize> {
        Err(io::Error::from(ErrorKind::Other))
    }
}

impl Write for Broken {
    fn write(&mut self, piece: &[u8]) -> io::Result<usize> {
        Ok(piece.len())
    }

    fn flush(&mut self) -> io::Result<()> {
        Err(io::Error::from(ErrorKind::Other))
    }
}

#[test]
fn lines_of_std(rt: HostRuntime) -> Result<(), Fail> {
    let mut lines = Lines::new(rt.alloc());
    let mut source = StdSource::new(b"one\ntwo".as_slice());
    expect_next(&rt, &mut lines, &mut source, b"one", 1)?;
    expect_next(&rt, &mut lines, &mut source, b"two", 2)?;
    expect_end(&rt, &mut lines, &mut source)?;
    expect_fault(&rt, &mut lines, &mut StdSource::new(Broken));
    Ok(())
}

#[test]
fn sinks_of_std(rt: HostRuntime) -> Result<(), Fail> {
    let mut bytes = [0; 3];
    let mut sink = StdSink::new(bytes.as_mut_slice());
    put(&mut sink, b"ab")?;
    assert!(rt; put(&mut sink, b"cd").is_err(), "no room");
    assert!(rt; bytes == *b"abc");
    let mut sink = StdSink::new(Broken);
    assert!(rt; put(&mut sink, b"ab").is_err(), "not flushed");
    Ok(())
}
