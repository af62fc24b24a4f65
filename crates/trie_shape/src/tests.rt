use super::*;
use base_core::{Digest, Limits, Pairs, PutError, Text, Writer};
use node_codec::{Kids, read_node};
use std::alloc::{AllocError, Global};
use std::process::Abort;
use std::test::Fail;

type Pair<'a> = (&'a [u8], &'a [u8]);

fn put(pairs: &mut Pairs, alloc: Global, key: &[u8], value: &[u8]) -> Result<(), PutError> {
    match (Text::copy(alloc, key), Text::copy(alloc, value)) {
        (Ok(key), Ok(value)) => pairs.put(key, value),
        _ => Err(PutError::NoMemory),
    }
}

fn hex(digest: &Digest) -> [u8; 64] {
    let mut digits = [0; 64];
    digest.to_hex_into(&mut digits);
    digits
}

#[test]
fn small_states(rt: HostRuntime) -> Result<(), Fail> {
    let alloc = rt.alloc();
    let table: [(&[Pair<'_>], &str, u64); 8] = [
        (
            &[],
            "0000000000000000000000000000000000000000000000000000000000000000",
            0,
        ),
        (
            &[(b"", b"")],
            "4937311fa09b313baa6d2ad061234f75e53d8dfabe99f86ee22689309d9a0f34",
            102,
        ),
        (
            &[(b"a", b"hi")],
            "c6d20f554d697a121ebc84350e46da9e3bb4e3c08d5f67204156fc6661069cc0",
            106,
        ),
        (
            &[(b"b", b"b"), (b"a", b"a")],
            "06481f83918f99a3be485a586d16b56c10a9d578353d60e887baa5f9c389262e",
            308,
        ),
        (
            &[(b"a", b"a"), (b"ab", b"b")],
            "6e36cff03296388deeb24640de825a7358e4fc5165c2484c07240ba01b78f13e",
            258,
        ),
        (
            &[(b"\x00", b""), (b"", b"root"), (b"\x00\x01", b"x")],
            "df67dec9933bbb8fa4d6f80e461294195c274112321d4581de91a152fcdb673f",
            359,
        ),
        (
            &[(b"\xab", b"1"), (b"\xac", b"2"), (b"\xbb", b"3")],
            "af4610cb4df6cdceed69a12f061aa392ce63174c3c5de75b535d521664685392",
            409,
        ),
        (
            &[
                (b"\x12\x34", b"p"),
                (b"\x12\x44", b"q"),
                (b"\x12\x44\xaa", b"r"),
            ],
            "927ce79756d70097cb1fd75250d4d2ef24b43b95954e94ad6f042b3e2311141d",
            463,
        ),
    ];
    for (rows, root, usage) in table {
        let mut pairs = Pairs::new(alloc, 16);
        for (key, value) in rows {
            put(&mut pairs, alloc, key, value)?;
        }
        let built = build(alloc, &pairs)?;
        assert_eq!(rt; hex(&built.root).as_slice(), root.as_bytes());
        assert_eq!(rt; built.usage, usage, "{root}");
    }
    Ok(())
}

#[test]
fn sixteen_children(rt: HostRuntime) -> Result<(), Fail> {
    let alloc = rt.alloc();
    let mut pairs = Pairs::new(alloc, 17);
    for i in 0..16u8 {
        put(&mut pairs, alloc, &[16 * i], &[i])?;
    }
    let built = build(alloc, &pairs)?;
    let root = b"28e5cbe540dc6bbe285c984e47a76b7538373369c53dd63016414ba8a1b3ffe4";
    assert_eq!(rt; hex(&built.root).as_slice(), root.as_slice());
    assert_eq!(rt; built.usage, 1698);

    put(&mut pairs, alloc, b"", b"top")?;
    let built = build(alloc, &pairs)?;
    let root = b"158104ab58f145a0d50d53467fee3856c10cca4df559780a29d36900086151c8";
    assert_eq!(rt; hex(&built.root).as_slice(), root.as_slice());
    assert_eq!(rt; built.usage, 1751);
    Ok(())
}

/// The longest key, and then the deepest trie: each key is a prefix of the next, up to that one.
#[test]
fn nested_keys(rt: HostRuntime) -> Result<(), Fail> {
    let alloc = rt.alloc();
    let mut pairs = Pairs::new(alloc, Limits::FULL.pairs);
    let zeros = [0; 2114];
    put(&mut pairs, alloc, &zeros, b"")?;
    let built = build(alloc, &pairs)?;
    let root = b"b513e8280b62f04fbf9ac96926f80aed84b21294d1579bb1db1771e8a5d32008";
    assert_eq!(rt; hex(&built.root).as_slice(), root.as_slice());
    assert_eq!(rt; built.usage, 4330);

    for length in 0..2114 {
        put(&mut pairs, alloc, &zeros[..length], b"")?;
    }
    let built = build(alloc, &pairs)?;
    let root = b"0d01049e271b765a439d3f682300429c4ee901aa3e5c7662633bbf799841b9ca";
    assert_eq!(rt; hex(&built.root).as_slice(), root.as_slice());
    assert_eq!(rt; built.usage, 321378);
    Ok(())
}

/// The name and usage of a leaf with nothing left of its key.
fn leaf(alloc: Global, value: &[u8; 1]) -> Result<(Option<Digest>, u64), CloseError> {
    let Ok(path) = Text::copy(alloc, &[]) else {
        return Err(CloseError::NoMemory);
    };
    let value = value_ref(value);
    Sub::Leaf { path, value }.name(alloc)
}

/// The two keys under an extension, put together by hand.
#[test]
fn subtrees(rt: HostRuntime) -> Result<(), Fail> {
    let alloc = rt.alloc();
    let (first, first_usage) = leaf(alloc, b"a")?;
    let (second, second_usage) = leaf(alloc, b"b")?;
    assert!(rt; first_usage == 103 && second_usage == 103);
    let mut kids = Kids::NONE;
    kids.set(1, first);
    kids.set(2, second);
    assert!(rt; kids.count() >= 2);
    let branch = close_branch(alloc, None, &kids, first_usage + second_usage)?;
    assert_eq!(rt; branch.usage, 256);

    let sub = Sub::Branch {
        digest: branch.digest,
        usage: branch.usage,
    };
    let sub = sub.under(alloc, &[6])?;
    let closed = sub.close(alloc)?.expect(&rt, "an extension has a record");
    let root = b"06481f83918f99a3be485a586d16b56c10a9d578353d60e887baa5f9c389262e";
    assert_eq!(rt; hex(&closed.digest).as_slice(), root.as_slice());
    assert_eq!(rt; closed.usage, 308);
    Ok(())
}

/// The record of a leaf with a value of two bytes, or of an extension, with a path of zeros.
fn path_record(alloc: Global, leaf: bool, nibbles: u16) -> Result<Text, AllocError> {
    let flags = if leaf { 0x20 } else { 0 };
    let odd = if nibbles % 2 == 1 { 0x10 } else { 0 };
    let mut writer = Writer::new(alloc);
    writer.put_u8(if leaf { 0 } else { 3 })?;
    writer.put_u32(1 + nibbles as u32 / 2)?;
    writer.put_u8(flags + odd)?;
    for _ in 0..nibbles / 2 {
        writer.put_u8(0)?;
    }
    if leaf {
        writer.put_u32(2)?;
    }
    writer.put_raw(&[7; 32])?;
    writer.put_u64(0)?;
    Ok(writer.into_text())
}

/// The record of a branch with two children, and with a value of two bytes or none.
fn branch_record(alloc: Global, value: bool) -> Result<Text, AllocError> {
    let mut writer = Writer::new(alloc);
    if value {
        writer.put_raw(b"\x02\x02\0\0\0")?;
        writer.put_raw(&[7; 32])?;
    } else {
        writer.put_u8(1)?;
    }
    writer.put_u16(6)?;
    writer.put_raw(&[7; 64])?;
    writer.put_u64(0)?;
    Ok(writer.into_text())
}

fn expect_cost(rt: &impl Abort, record: &Text, cost: u64) {
    let (node, _) = read_node(record.as_slice()).expect(rt, "a record");
    assert_eq!(rt; own_cost(&node), cost);
}

fn expect_fit(rt: &impl Abort, record: &Text, depth: u64, after_extension: bool, want: bool) {
    let (node, _) = read_node(record.as_slice()).expect(rt, "a record");
    assert_eq!(rt; fits(&node, depth, after_extension), want, "{depth}");
}

#[test]
fn costs_of_nodes(rt: HostRuntime) -> Result<(), Fail> {
    let alloc = rt.alloc();
    expect_cost(&rt, &path_record(alloc, true, 0)?, 104);
    expect_cost(&rt, &path_record(alloc, true, 1)?, 104);
    expect_cost(&rt, &path_record(alloc, true, 4228)?, 4332);
    expect_cost(&rt, &path_record(alloc, false, 1)?, 52);
    expect_cost(&rt, &path_record(alloc, false, 2)?, 54);
    expect_cost(&rt, &branch_record(alloc, false)?, 50);
    expect_cost(&rt, &branch_record(alloc, true)?, 102);
    Ok(())
}

/// A key ends at a whole byte and within 4,228 nibbles, and below no extension.
#[test]
fn where_leaves_fit(rt: HostRuntime) -> Result<(), Fail> {
    let odd = path_record(rt.alloc(), true, 1)?;
    expect_fit(&rt, &odd, 1, false, true);
    expect_fit(&rt, &odd, 2, false, false);
    expect_fit(&rt, &odd, 1, true, false);
    expect_fit(&rt, &odd, 4227, false, true);
    expect_fit(&rt, &odd, 4229, false, false);
    expect_fit(&rt, &odd, u64::MAX, false, false);
    let long = path_record(rt.alloc(), true, 4228)?;
    expect_fit(&rt, &long, 0, false, true);
    expect_fit(&rt, &long, 2, false, false);
    Ok(())
}

/// There is room for a nibble more, a value is of a whole key, and an extension is below no other.
#[test]
fn where_other_nodes_fit(rt: HostRuntime) -> Result<(), Fail> {
    let extension = path_record(rt.alloc(), false, 2)?;
    expect_fit(&rt, &extension, 4225, false, true);
    expect_fit(&rt, &extension, 4226, false, false);
    expect_fit(&rt, &extension, 0, true, false);
    let branch = branch_record(rt.alloc(), false)?;
    expect_fit(&rt, &branch, 4227, true, true);
    expect_fit(&rt, &branch, 4228, false, false);
    let with_value = branch_record(rt.alloc(), true)?;
    expect_fit(&rt, &with_value, 4226, true, true);
    expect_fit(&rt, &with_value, 4227, true, false);
    Ok(())
}
