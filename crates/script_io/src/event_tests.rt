use super::*;
use base_core::Fault;
use std::alloc::{AllocError, Global};
use std::process::Abort;
use std::test::Fail;

/// So many digits, of these over and over.
fn put_digits(line: &mut Buffer, digits: &[u8; 16], count: usize) -> Result<(), Fault> {
    for i in 0..count {
        let digit = digits[i % 16];
        put(line, &[digit])?;
    }
    Ok(())
}

/// What a byte of a pattern stands for: `L` for 64 small digits, `U` for the same in capitals, `Z` for
/// as many zeros, `K` and `Y` for one digit less than `L` and `Z`, `J` for two less than `L`, and
/// any other for itself.
fn put_part(line: &mut Buffer, part: u8) -> Result<(), Fault> {
    let (digits, count) = match part {
        b'J' => (b"0123456789abcdef", 62),
        b'K' => (b"0123456789abcdef", 63),
        b'L' => (b"0123456789abcdef", 64),
        b'U' => (b"0123456789ABCDEF", 64),
        b'Y' => (b"0000000000000000", 63),
        b'Z' => (b"0000000000000000", 64),
        _ => return put(line, &[part]),
    };
    put_digits(line, digits, count)
}

/// The line that a pattern stands for.
fn spelled(alloc: Global, pattern: &[u8]) -> Result<Buffer, Fault> {
    let mut line = Buffer::new(alloc);
    for part in pattern {
        put_part(&mut line, *part)?;
    }
    Ok(line)
}

/// A word with a text behind it.
fn put_one(line: &mut Buffer, word: &[u8], a: &[u8]) -> Result<(), Fault> {
    put(line, word)?;
    put_hex(line, a)
}

/// A word with two texts behind it.
fn put_two(line: &mut Buffer, word: &[u8], a: &[u8], b: &[u8]) -> Result<(), Fault> {
    put_one(line, word, a)?;
    put_one(line, b" ", b)
}

/// The line that asks for this, with small digits and no zeros in front.
fn put_event(line: &mut Buffer, event: &Event) -> Result<(), Fault> {
    match event {
        Event::Nothing => Ok(()),
        Event::Open { id, prev, height } => {
            put_two(line, b"block ", &id.0, &prev.0)?;
            put(line, b" ")?;
            put_number(line, *height)
        }
        Event::Set { key, value } => put_two(line, b"set ", key.as_slice(), value.as_slice()),
        Event::Del { key } => put_one(line, b"del ", key.as_slice()),
        Event::End => put(line, b"end"),
        Event::Head { id } => put_one(line, b"head ", &id.0),
        Event::Flat { id, key } => put_two(line, b"flat ", &id.0, key.as_slice()),
        Event::Trie { id, key } => put_two(line, b"trie ", &id.0, key.as_slice()),
        Event::Same { a, b } => put_two(line, b"same ", &a.0, &b.0),
        Event::Usage { id } => put_one(line, b"usage ", &id.0),
        Event::Stats => put(line, b"stats"),
    }
}

/// A line asks for what another one does, which is spelled as `put_event` does.
fn expect_read(rt: &impl Abort, alloc: Global, line: &[u8], want: &[u8]) -> Result<(), Fail> {
    let event = read_event(alloc, line)?;
    let mut asked = Buffer::new(alloc);
    put_event(&mut asked, &event)?;
    assert!(rt; asked.bytes() == want, "{line:?}");
    Ok(())
}

/// Each pattern with that of the line as `put_event` spells it.
fn expect_events(rt: &impl Abort, alloc: Global, table: &[(&[u8], &[u8])]) -> Result<(), Fail> {
    for (pattern, want) in table {
        let line = spelled(alloc, pattern)?;
        let want = spelled(alloc, want)?;
        expect_read(rt, alloc, line.bytes(), want.bytes())?;
    }
    Ok(())
}

fn expect_refused(rt: &impl Abort, alloc: Global, line: &[u8]) {
    assert!(rt;
        matches!(read_event(alloc, line), Err(EventError::Bad)),
        "{line:?}"
    );
}

/// Each pattern is one of a line that is none of a script.
fn expect_bad(rt: &impl Abort, alloc: Global, patterns: &[&[u8]]) -> Result<(), Fail> {
    for pattern in patterns {
        let line = spelled(alloc, pattern)?;
        expect_refused(rt, alloc, line.bytes());
    }
    Ok(())
}

#[test]
fn nothing_asked(rt: HostRuntime) -> Result<(), Fail> {
    let alloc = rt.alloc();
    for line in [b"".as_slice(), b"#", b"# set  61", b"#\xff", b"#end"] {
        expect_read(&rt, alloc, line, b"")?;
    }
    expect_refused(&rt, alloc, b"# comment\r");
    Ok(())
}

#[test]
fn lines_of_keys(rt: HostRuntime) -> Result<(), Fail> {
    let table: [(&[u8], &[u8]); 8] = [
        (b"set 61 6869", b"set 61 6869"),
        (b"set - -", b"set - -"),
        (b"set 00 -", b"set 00 -"),
        (b"set aB fFFf", b"set ab ffff"),
        (b"del 61", b"del 61"),
        (b"del -", b"del -"),
        (b"del aB", b"del ab"),
        (b"end", b"end"),
    ];
    expect_events(&rt, rt.alloc(), &table)
}

#[test]
fn bad_sets(rt: HostRuntime) -> Result<(), Fail> {
    let patterns: [&[u8]; 14] = [
        b" ",
        b"set",
        b"set 61",
        b"set 61 62 63",
        b"set  61 62",
        b"set 61  62",
        b" set 61 62",
        b"set 61 62 ",
        b"set\t61 62",
        b"Set 61 62",
        b"set 61 62\r",
        b"set 6 62",
        b"set 61 6g",
        b"set 61 ",
    ];
    expect_bad(&rt, rt.alloc(), &patterns)
}

#[test]
fn bad_deletions_and_ends(rt: HostRuntime) -> Result<(), Fail> {
    let patterns: [&[u8]; 13] = [
        b"del",
        b"del ",
        b"del 6",
        b"del 6g",
        b"del  61",
        b"del 61 ",
        b"del 61 62",
        b"del 61\r",
        b"end ",
        b" end",
        b"End",
        b"end\r",
        b"end 1",
    ];
    expect_bad(&rt, rt.alloc(), &patterns)
}

#[test]
fn heads_and_readings(rt: HostRuntime) -> Result<(), Fail> {
    let table: [(&[u8], &[u8]); 8] = [
        (b"head L", b"head L"),
        (b"head U", b"head L"),
        (b"flat Z -", b"flat Z -"),
        (b"flat U 4F", b"flat L 4f"),
        (b"trie U 4F", b"trie L 4f"),
        (b"same U Z", b"same L Z"),
        (b"usage U", b"usage L"),
        (b"stats", b"stats"),
    ];
    expect_events(&rt, rt.alloc(), &table)
}

#[test]
fn bad_heads_and_readings(rt: HostRuntime) -> Result<(), Fail> {
    let patterns: [&[u8]; 13] = [
        b"head",
        b"head ",
        b"head -",
        b"head K",
        b"head J",
        b"head Kg",
        b"head L0",
        b"head L ",
        b"head  L",
        b"flat L",
        b"flat L ",
        b"flat 61 L",
        b"flat L 61 62",
    ];
    expect_bad(&rt, rt.alloc(), &patterns)
}

#[test]
fn bad_readings_of_tries(rt: HostRuntime) -> Result<(), Fail> {
    let patterns: [&[u8]; 13] = [
        b"trie L",
        b"trie L 6",
        b"trie 61 L",
        b"trie L 61 62",
        b"same L",
        b"same L 61",
        b"same Y L",
        b"same L Z L",
        b"usage",
        b"usage J",
        b"usage L 61",
        b"stats ",
        b"stats\r",
    ];
    expect_bad(&rt, rt.alloc(), &patterns)
}

#[test]
fn blocks(rt: HostRuntime) -> Result<(), Fail> {
    let table: [(&[u8], &[u8]); 5] = [
        (b"block U Z 0", b"block L Z 0"),
        (b"block U Z 1234567890", b"block L Z 1234567890"),
        (b"block U Z 00000000000000000000", b"block L Z 0"),
        (b"block U Z 00000000000000000109", b"block L Z 109"),
        (
            b"block U Z 18446744073709551615",
            b"block L Z 18446744073709551615",
        ),
    ];
    expect_events(&rt, rt.alloc(), &table)
}

#[test]
fn bad_blocks(rt: HostRuntime) -> Result<(), Fail> {
    let patterns: [&[u8]; 18] = [
        b"block L Z",
        b"block L 1",
        b"block L Y 1",
        b"block Y L 1",
        b"Block L Z 1",
        b"block L Z ",
        b"block L Z 18446744073709551616",
        b"block L Z 99999999999999999999",
        b"block L Z 000000000000000000000",
        b"block L Z 000000000000000000001",
        b"block L Z +1",
        b"block L Z -1",
        b"block L Z 1 ",
        b"block L Z  1",
        b"block L Z 1\r",
        b"block L Z 0x1",
        b"block L Z 1_0",
        b"block L Z /:",
    ];
    expect_bad(&rt, rt.alloc(), &patterns)
}

fn copies(alloc: Global, byte: u8, count: usize) -> Result<Vec<u8>, AllocError> {
    vec![in alloc; byte; count]
}

/// A set of a key and a value of so many bytes fits, or is none of a script.
fn expect_lengths(
    rt: &impl Abort,
    alloc: Global,
    key: usize,
    value: usize,
    fits: bool,
) -> Result<(), Fail> {
    let key = copies(alloc, 7, key)?;
    let value = copies(alloc, 7, value)?;
    let mut line = Buffer::new(alloc);
    put_two(&mut line, b"set ", key.as_slice(), value.as_slice())?;
    expect_fitting(rt, alloc, line.bytes(), fits)
}

/// A line that is spelled as `put_event` does fits, or is none of a script.
fn expect_fitting(rt: &impl Abort, alloc: Global, line: &[u8], fits: bool) -> Result<(), Fail> {
    if fits {
        return expect_read(rt, alloc, line, line);
    }
    expect_refused(rt, alloc, line);
    Ok(())
}

#[test]
fn longest_key_and_value(rt: HostRuntime) -> Result<(), Fail> {
    let alloc = rt.alloc();
    for (key, value, fits) in [
        (2114, 0, true),
        (2115, 0, false),
        (1, 4194304, true),
        (1, 4194305, false),
    ] {
        expect_lengths(&rt, alloc, key, value, fits)?;
    }
    Ok(())
}

/// A deletion and a reading with a key of so many bytes fit, or are none of a script.
fn expect_key(rt: &impl Abort, alloc: Global, length: usize, fits: bool) -> Result<(), Fail> {
    let key = copies(alloc, 0x77, length)?;
    let mut line = Buffer::new(alloc);
    put_one(&mut line, b"del ", key.as_slice())?;
    expect_fitting(rt, alloc, line.bytes(), fits)?;
    let mut line = Buffer::new(alloc);
    put_two(&mut line, b"flat ", &[0; 32], key.as_slice())?;
    expect_fitting(rt, alloc, line.bytes(), fits)
}

/// The keys of a deletion and of a reading are as long as any, and no longer.
#[test]
fn longest_keys(rt: HostRuntime) -> Result<(), Fail> {
    let alloc = rt.alloc();
    for (length, fits) in [(2114, true), (2115, false)] {
        expect_key(&rt, alloc, length, fits)?;
    }
    Ok(())
}
