ghost use Rattle.std.specs.Prelude.{◌≤◌, length};
ghost use Rattle.byte_model.specs.Nibbles.{AreNibbles};
ghost use Rattle.byte_model.specs.PackedPath.{longest_path};
ghost use Rattle.trie_model.specs.State.{longest_key};

use super::*;
use base_core::{Digest, Text, digest};
use node_codec::{Kids, ValueRef, write_branch, write_extension, write_leaf};
use std::alloc::{AllocError, Global};
use std::process::Abort;
use std::test::Fail;
use text_store::{MemNodes, Nodes, Texts};

/// The root of the state with the values a and b under the keys 61 and 62.
pub(crate) const ROOT: Digest = Digest(
    *b"\x06\x48\x1f\x83\x91\x8f\x99\xa3\xbe\x48\x5a\x58\x6d\x16\xb5\x6c\x10\xa9\xd5\x78\x35\x3d\x60\xe8\x87\xba\xa5\xf9\xc3\x89\x26\x2e",
);

/// A store that holds these texts, each under its digest. That takes two calls for each. Calls of
/// these numbers fail.
pub(crate) fn holding(
    alloc: Global,
    texts: &[&[u8]],
    fails: &[u64],
) -> Result<MemNodes, AllocError> {
    let mut store = MemNodes::new(alloc, fails)?;
    for text in texts {
        if store.reserve(1).is_err() {
            return Err(AllocError);
        }
        let d = digest(text);
        if store.count(&d) == 0 {
            let _ = store.add(&d, Text::copy(alloc, text)?, 1);
        }
    }
    Ok(store)
}

/// The record of a leaf whose value is said to have so many bytes.
pub(crate) fn leaf(
    alloc: Global,
    path: &[u8],
    value_length: u32,
    value: &[u8],
) -> Result<Text, AllocError>
    requires nibbles { AreNibbles path.now }
    requires short { length path.now ≤ longest_path }
{
    let value = ValueRef {
        length: value_length,
        digest: digest(value),
    };
    write_leaf(alloc, path, &value, 103)
}

/// The record of an extension above a record.
pub(crate) fn extension(alloc: Global, path: &[u8], child: &Text) -> Result<Text, AllocError>
    requires nibbles { AreNibbles path.now }
    requires short { length path.now ≤ longest_path }
{
    write_extension(alloc, path, &digest(child.as_slice()), 308)
}

/// The record of a branch with a child at 1, and perhaps another at 2.
fn branch(alloc: Global, one: &Text, two: Option<&Text>) -> Result<Text, AllocError> {
    let mut kids = Kids::NONE;
    kids.set(1, Some(digest(one.as_slice())));
    if let Some(two) = two {
        kids.set(2, Some(digest(two.as_slice())));
    }
    write_branch(alloc, &None, &kids, 256)
}

/// The answer and the loads of a lookup.
fn expect(
    rt: &impl Abort,
    store: &mut MemNodes,
    root: &Digest,
    key: &[u8],
    answer: Result<Option<&[u8]>, ReadError>,
    loads: u64,
)
    requires { length key.now ≤ longest_key }
{
    let before = store.loads();
    assert_eq!(rt; get(store, root, key), answer);
    assert_eq!(rt; store.loads(), before.saturating_add(loads));
}

/// The records of the leaves under 61 and 62, of the branch above them, and of the extension above
/// that, which is the root.
#[derive(Drop)]
pub(crate) struct Records {
    pub(crate) first: Text,
    pub(crate) second: Text,
    pub(crate) branch: Text,
    pub(crate) root: Text,
}

impl Records {
    pub(crate) fn new(alloc: Global) -> Result<Records, AllocError> {
        let first = leaf(alloc, &[], 1, b"a")?;
        let second = leaf(alloc, &[], 1, b"b")?;
        let branch = branch(alloc, &first, Some(&second))?;
        let root = extension(alloc, &[6], &branch)?;
        Ok(Records {
            first,
            second,
            branch,
            root,
        })
    }

    /// A store of these records and the two values, which takes twelve calls.
    pub(crate) fn store(&self, alloc: Global, fails: &[u64]) -> Result<MemNodes, AllocError> {
        let texts: [&[u8]; 6] = [
            b"a",
            b"b",
            self.first.as_slice(),
            self.second.as_slice(),
            self.branch.as_slice(),
            self.root.as_slice(),
        ];
        holding(alloc, &texts, fails)
    }
}

#[test]
fn values_of_keys(rt: HostRuntime) -> Result<(), Fail> {
    let alloc = rt.alloc();
    let mut store = Records::new(alloc)?.store(alloc, &[])?;
    expect(&rt, &mut store, &ROOT, b"a", Ok(Some(b"a")), 4);
    expect(&rt, &mut store, &ROOT, b"b", Ok(Some(b"b")), 4);
    expect(&rt, &mut store, &ROOT, b"a\x00", Ok(None), 3);
    expect(&rt, &mut store, &ROOT, b"", Ok(None), 1);
    expect(&rt, &mut store, &ROOT, b"q", Ok(None), 1);
    expect(&rt, &mut store, &ROOT, b"c", Ok(None), 2);
    expect(&rt, &mut store, &Digest::ZERO, b"a", Ok(None), 0);
    Ok(())
}

/// What the root's record says, and what is said of no root.
#[test]
fn stated_usage(rt: HostRuntime) -> Result<(), Fail> {
    let alloc = rt.alloc();
    let records = Records::new(alloc)?;
    let mut store = records.store(alloc, &[14])?;
    assert_eq!(rt; usage_of(&mut store, &ROOT), Ok(308));
    assert_eq!(rt; usage_of(&mut store, &ROOT), Err(ReadError::Fault));
    assert_eq!(rt; usage_of(&mut store, &Digest::ZERO), Ok(0));
    assert_eq!(rt; store.loads(), 2);
    assert_eq!(rt;
        usage_of(&mut store, &digest(b"a")),
        Err(ReadError::Bad {
            digest: digest(b"a")
        })
    );
    assert_eq!(rt;
        usage_of(&mut store, &digest(b"c")),
        Err(ReadError::Missing {
            digest: digest(b"c")
        })
    );
    Ok(())
}

/// Each load fails in turn, and each text is missing in turn. The key is 61.
#[test]
fn lookups_that_are_cut_short(rt: HostRuntime) -> Result<(), Fail> {
    let alloc = rt.alloc();
    let fault = Err(ReadError::Fault);
    let mut store = MemNodes::new(alloc, &[1])?;
    expect(&rt, &mut store, &ROOT, b"a", fault, 1);
    let records = Records::new(alloc)?;
    for load in 1..5 {
        let mut store = records.store(alloc, &[12 + load])?;
        expect(&rt, &mut store, &ROOT, b"a", fault, load);
        expect(&rt, &mut store, &ROOT, b"a", Ok(Some(b"a")), 4);
    }
    let texts: [&[u8]; 3] = [
        records.root.as_slice(),
        records.branch.as_slice(),
        records.first.as_slice(),
    ];
    let missing = [
        ROOT,
        digest(records.branch.as_slice()),
        digest(records.first.as_slice()),
        digest(b"a"),
    ];
    for i in 0..4 {
        let mut store = holding(alloc, &texts[..i], &[])?;
        let answer = Err(ReadError::Missing { digest: missing[i] });
        expect(&rt, &mut store, &ROOT, b"a", answer, i as u64 + 1);
    }
    Ok(())
}

/// A lookup below a record that is bad, or below two, of which the second is. The key is 61.
fn expect_bad(
    rt: &impl Abort,
    alloc: Global,
    above: &[u8],
    bad: &[u8],
    loads: u64,
) -> Result<(), Fail> {
    let mut store = holding(alloc, &[above, bad], &[])?;
    let root = if loads == 1 {
        digest(bad)
    } else {
        digest(above)
    };
    let answer = Err(ReadError::Bad {
        digest: digest(bad),
    });
    expect(rt, &mut store, &root, b"a", answer, loads);
    Ok(())
}

/// Records that are cut, longer or changed by a byte, and nodes that may not stand where they do.
#[test]
fn bad_texts(rt: HostRuntime) -> Result<(), Fail> {
    let alloc = rt.alloc();
    let records = Records::new(alloc)?;
    let root = records.root.as_slice();
    assert_eq!(rt; root.len(), 46);
    let (cut, _) = root.split_at(45);
    expect_bad(&rt, alloc, b"", cut, 1)?;
    let mut changed = Vec::from_slice(alloc, root)?;
    changed[5] = 0x26;
    expect_bad(&rt, alloc, b"", changed.as_slice(), 1)?;
    changed[5] = 0x16;
    changed.push(0)?;
    expect_bad(&rt, alloc, b"", changed.as_slice(), 1)?;
    let odd = leaf(alloc, &[6], 1, b"a")?;
    expect_bad(&rt, alloc, b"", odd.as_slice(), 1)?;
    let lonely = branch(alloc, &records.first, None)?;
    expect_bad(&rt, alloc, b"", lonely.as_slice(), 1)?;
    let low = leaf(alloc, &[1], 1, b"a")?;
    let above = extension(alloc, &[6], &low)?;
    expect_bad(&rt, alloc, above.as_slice(), low.as_slice(), 2)?;
    let second = extension(alloc, &[1], &records.branch)?;
    let above = extension(alloc, &[6], &second)?;
    expect_bad(&rt, alloc, above.as_slice(), second.as_slice(), 2)?;
    let above = leaf(alloc, &[6, 1], 2, b"a")?;
    expect_bad(&rt, alloc, above.as_slice(), b"a", 2)
}
