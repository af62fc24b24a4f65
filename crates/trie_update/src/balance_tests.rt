use crate::balance::balance;
use crate::change::{LostText, MadeText};
use crate::errors::UpdateError;
use crate::ledger::Ledger;
use base_core::{Digest, Text};
use std::alloc::{AllocError, Global};
use std::test::Fail;

/// A ledger of texts of one byte each, under digests that are filled with a byte.
fn ledger_of(alloc: Global, gained: &[(u8, u8)], lost: &[u8]) -> Result<Ledger, UpdateError> {
    let mut ledger = Ledger::new(alloc);
    for (digest, text) in gained {
        match Text::copy(alloc, &[*text]) {
            Ok(text) => ledger.gain(Digest([*digest; 32]), text)?,
            Err(AllocError) => return Err(UpdateError::NoMemory),
        }
    }
    for digest in lost {
        ledger.lose(Digest([*digest; 32]))?;
    }
    Ok(ledger)
}

fn is_made(made: &MadeText, digest: u8, text: u8, times: u64) -> bool {
    made.digest == Digest([digest; 32])
        && made.text.as_slice() == [text].as_slice()
        && made.times == times
}

fn is_lost(lost: &LostText, digest: u8, times: u64) -> bool {
    lost.digest == Digest([digest; 32]) && lost.times == times
}

/// One text is gained twice and lost once, one gained and lost, and two digests are lost alone or
/// more often than gained.
#[test]
fn gains_and_losses_by_digest(rt: HostRuntime) -> Result<(), Fail> {
    let alloc = rt.alloc();
    let Ok(ledger) = ledger_of(
        alloc,
        &[(8, 1), (5, 2), (8, 1), (6, 3)],
        &[5, 9, 6, 8, 6, 9],
    ) else {
        return Err(Fail::from(AllocError));
    };
    let Ok((mut made, lost)) = balance(alloc, ledger) else {
        return Err(Fail::from(AllocError));
    };
    assert_eq!(rt; made.len(), 3);
    assert!(rt; is_made(made.at(0), 5, 2, 0));
    assert!(rt; is_made(made.at(1), 6, 3, 0));
    assert!(rt; is_made(made.at(2), 8, 1, 1));
    assert_eq!(rt; lost.len(), 2);
    assert!(rt; is_lost(lost.at(0), 6, 1));
    assert!(rt; is_lost(lost.at(1), 9, 2));
    match made.take_first() {
        Some(first) => assert!(rt; is_made(&first, 5, 2, 0)),
        None => assert!(rt; false, "nothing was made"),
    }
    assert_eq!(rt; made.len(), 2);
    Ok(())
}

/// Of two digests that two texts share, the least one is told, with both texts.
#[test]
fn the_least_clash(rt: HostRuntime) -> Result<(), Fail> {
    let alloc = rt.alloc();
    let Ok(ledger) = ledger_of(alloc, &[(7, 1), (4, 2), (7, 3), (4, 5), (4, 2)], &[]) else {
        return Err(Fail::from(AllocError));
    };
    let Err(error) = balance(alloc, ledger) else {
        return Err(Fail::from(AllocError));
    };
    match error {
        UpdateError::Clash { digest, one, other } => {
            assert_eq!(rt; digest, Digest([4; 32]));
            assert_eq!(rt; one.as_slice(), [2].as_slice());
            assert_eq!(rt; other.as_slice(), [5].as_slice());
        }
        UpdateError::NoMemory => return Err(Fail::from(AllocError)),
        _other => assert!(rt; false, "no clash"),
    }
    Ok(())
}
