use super::*;
use crate::tests::{Kept, delete, set};
use base_core::{Changes, Digest, digest};
use std::alloc::Global;
use std::test::Fail;

/// The leaves of the keys 61 and 62, which both have the value v.
const LEAF: Digest = Digest(
    *b"\x21\x6b\x51\x5a\x41\xd6\xd0\x29\x59\xd3\xb3\x70\x92\x91\x5e\x8f\x24\x27\x81\xfa\x8e\x20\xe4\xa7\x74\x9a\xc8\x3c\xf3\x48\x6a\x26",
);

/// The branch above the two leaves.
const BRANCH: Digest = Digest(
    *b"\x86\x73\xa1\xa8\x3f\x32\xa4\x8d\x19\x57\x9f\x3e\x6d\xa8\xf9\xd7\xe8\xa4\xd1\x46\xc4\x53\xad\x59\xa3\xa1\x1e\x79\x01\x03\xab\xc3",
);

/// The extension above the branch.
const EXTENSION: Digest = Digest(
    *b"\x05\xd6\x57\x99\xa2\x80\x64\xe3\xae\x39\x3a\xdb\x40\x2b\xea\xf4\x64\x5d\x8e\xeb\x03\x41\xc5\x79\x42\x86\xe9\x79\x43\xbb\x53\x0d",
);

/// The leaf of the key 61 where it is the only one.
const LONE: Digest = Digest(
    *b"\x45\xfd\x0f\x55\xf7\x15\xd4\x3c\xbc\x44\xcd\x7c\xc0\x97\x96\xc5\xf0\xa7\x7e\x14\x27\x9c\x2c\x5f\xc3\xab\xe2\x91\x2a\xff\xc0\x9d",
);

/// How often a digest is lost.
fn times_lost(lost: &Lost, name: &Digest) -> u64 {
    for place in 0..lost.len() {
        let lost = lost.at(place);
        if lost.digest == *name {
            return lost.times;
        }
    }
    0
}

/// How often a text is made, beyond how often it is lost.
fn times_made(made: &Made, name: &Digest) -> u64 {
    for place in 0..made.len() {
        let made = made.at(place);
        if made.digest == *name {
            return made.times;
        }
    }
    0
}

fn two_keys(alloc: Global, kept: &mut Kept, rt: &impl std::process::Abort) -> Result<Change, Fail> {
    let mut both = Changes::new(alloc, 2);
    set(alloc, &mut both, b"a", b"v")?;
    set(alloc, &mut both, b"b", b"v")?;
    kept.carry(rt, alloc, &both)
}

/// Two keys with one value are set: their leaves are one text.
#[test]
fn one_leaf_of_two_keys_made(rt: HostRuntime) -> Result<(), Fail> {
    let alloc = rt.alloc();
    let change = two_keys(alloc, &mut Kept::new(alloc)?, &rt)?;
    assert_eq!(rt; (change.fresh, change.gone), (2, 0));
    assert_eq!(rt; (change.made.len(), change.lost.len()), (4, 0));
    assert_eq!(rt; times_made(&change.made, &digest(b"v")), 2);
    assert_eq!(rt; times_made(&change.made, &LEAF), 2);
    assert_eq!(rt; times_made(&change.made, &BRANCH), 1);
    assert_eq!(rt; times_made(&change.made, &EXTENSION), 1);
    Ok(())
}

/// One of the two keys is deleted.
#[test]
fn one_leaf_of_two_keys_lost(rt: HostRuntime) -> Result<(), Fail> {
    let alloc = rt.alloc();
    let mut kept = Kept::new(alloc)?;
    two_keys(alloc, &mut kept, &rt)?;
    let mut second = Changes::new(alloc, 1);
    delete(alloc, &mut second, b"b")?;
    let change = kept.carry(&rt, alloc, &second)?;
    assert_eq!(rt; (change.fresh, change.gone), (0, 1));
    assert_eq!(rt; (change.made.len(), change.lost.len()), (1, 4));
    assert_eq!(rt; times_made(&change.made, &LONE), 1);
    assert_eq!(rt; times_lost(&change.lost, &digest(b"v")), 1);
    assert_eq!(rt; times_lost(&change.lost, &LEAF), 2);
    assert_eq!(rt; times_lost(&change.lost, &BRANCH), 1);
    assert_eq!(rt; times_lost(&change.lost, &EXTENSION), 1);
    Ok(())
}
