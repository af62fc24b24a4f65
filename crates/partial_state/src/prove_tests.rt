use super::*;
use crate::replay_tests::{DELETION, branch, file, nodes_but};
use base_core::{Text, digest};
use std::alloc::Global;
use std::process::Abort;
use std::test::Fail;
use text_store::{MemNodes, TextSet};

/// What is made over the texts of a set, as bytes.
fn proof_over(alloc: Global, head: &[u8], set: &TextSet) -> Result<Text, ProveError> {
    let bytes = file(alloc, head, set)?;
    let Ok(proof) = Proof::read(alloc, bytes.as_slice()) else {
        return Err(ProveError::NoMemory);
    };
    let Proof {
        root,
        ops,
        mut state,
    } = proof;
    let made = prove(alloc, &mut state, &root, ops)?;
    Ok(made.write(alloc)?)
}

#[test]
fn a_recording_has_the_touched_texts(rt: HostRuntime) -> Result<(), Fail> {
    let alloc = rt.alloc();
    let mut set = nodes_but(alloc, 4)?;
    set.put(b"a")?;
    let made = proof_over(alloc, &DELETION, &set).ok().ok_or("refused")?;
    let wanted = file(alloc, &DELETION, &nodes_but(alloc, 4)?)?;
    assert_eq!(rt; made.as_slice(), wanted.as_slice());
    Ok(())
}

#[test]
fn a_text_that_the_store_lacks_is_missed(rt: HostRuntime) -> Result<(), Fail> {
    let alloc = rt.alloc();
    let set = nodes_but(alloc, 2)?;
    match proof_over(alloc, &DELETION, &set) {
        Err(ProveError::Missing { digest: named }) => {
            assert_eq!(rt; named, digest(branch(alloc)?.as_slice()))
        }
        _ => assert!(rt; false, "nothing is missed"),
    }
    Ok(())
}

#[test]
fn a_fault_of_the_store_is_told(rt: HostRuntime) -> Result<(), Fail> {
    let alloc = rt.alloc();
    let mut store = MemNodes::new(alloc, &[1])?;
    let mut ops = Ops::new(alloc, 1);
    if ops.remove(Text::copy(alloc, b"b")?).is_err() {
        return Err("no change".into());
    }
    match prove(alloc, &mut store, &digest(b"root"), ops) {
        Err(ProveError::Fault) => Ok(()),
        _ => Err("no fault".into()),
    }
}
