ghost use Rattle.std.specs.Prelude.{◌≡◌, ◌≤◌, ◌⊎◌, true, false, length, IfOk, OnOk, IfErr};
ghost use Rattle.std.specs.List.Sorted.{IsSorted, IsSortedByKey, IsPartitionPoint};
ghost use Rattle.std.specs.Ordering.{is_lt, is_le};
ghost use Rattle.trie_update.specs.Balances.{times_in, gained_digests, by_bytes, AreBelow, AreUpTo, Agree, IsMade, IsLost, IsBalance, IsBalanceError};
ghost use Rattle.trie_update.specs.declared.errors.UpdateError.TheVariants.{Clash, NoMemory};

use crate::change::{Lost, LostText, Made, MadeText};
use crate::errors::UpdateError;
use crate::ledger::{Gained, Ledger};
use base_core::{Digest, Text};
use std::alloc::{AllocError, Global};
use std::collections::VecDeque;

/// What is gained and lost in the end, by digest.
pub(crate) fn balance(alloc: Global, ledger: Ledger) -> Result<(Made, Lost), UpdateError>
    ensures balanced { IfOk result (λ sides. IsBalance ledger.gained.items ledger.lost.items sides.0 sides.1) }
    ensures error { IfErr result (IsBalanceError ledger.gained.items) }
{
    let Ledger {
        mut gained,
        mut lost,
        ..
    } = ledger;
    gained.sort_unstable_by_key(|entry| entry.digest);
    lost.sort_unstable();
    if let Err(error) = agree(alloc, &gained) {
        return Err(error);
    }
    match sides(alloc, gained, &lost) {
        Ok(sides) => Ok(sides),
        Err(AllocError) => Err(UpdateError::NoMemory),
    }
}

/// Tests that no two texts share a digest. Texts are in the order of their digests.
fn agree(alloc: Global, gained: &[Gained]) -> Result<(), UpdateError>
    requires { IsSortedByKey (λ g. g.digest) by_bytes gained.now }
    ensures agree { OnOk result (Agree gained.now) }
    ensures error { IfErr result (IsBalanceError gained.now) }
{
    for i in 1..gained.len() {
        let (former, entry) = (&gained[i - 1], &gained[i]);
        if former.digest == entry.digest && former.text.as_slice() != entry.text.as_slice() {
            return Err(clash(alloc, former, entry));
        }
    }
    Ok(())
}

fn clash(alloc: Global, former: &Gained, entry: &Gained) -> UpdateError
    ensures { (result ≡ Clash entry.now.digest former.now.text entry.now.text) ⊎ (result ≡ NoMemory) }
{
    let one = Text::copy(alloc, former.text.as_slice());
    let other = Text::copy(alloc, entry.text.as_slice());
    match (one, other) {
        (Ok(one), Ok(other)) => UpdateError::Clash {
            digest: entry.digest,
            one,
            other,
        },
        _ => UpdateError::NoMemory,
    }
}

/// Both sides, where no two texts share a digest.
fn sides(alloc: Global, gained: Vec<Gained>, lost: &[Digest]) -> Result<(Made, Lost), AllocError>
    requires gained { IsSortedByKey (λ g. g.digest) by_bytes gained.items }
    requires agree { Agree gained.items }
    requires lost { IsSorted by_bytes lost.now }
    ensures { IfOk result (λ sides. IsBalance gained.items lost.now sides.0 sides.1) }
{
    let gains = digests_of(alloc, &gained)?;
    let made = made_texts(alloc, gained, &gains, lost)?;
    let lost = lost_texts(alloc, &gains, lost)?;
    Ok((
        Made {
            texts: VecDeque::from_vec(made),
        },
        Lost { texts: lost },
    ))
}

fn digests_of(alloc: Global, gained: &[Gained]) -> Result<Vec<Digest>, AllocError>
    ensures { IfOk result (λ digests. digests.items ≡ gained_digests gained.now) }
{
    gained.iter().map(|entry| entry.digest).collect(alloc)
}

/// Each text once, with what its gains are more than its losses.
fn made_texts(
    alloc: Global,
    mut gained: Vec<Gained>,
    gains: &[Digest],
    lost: &[Digest],
) -> Result<Vec<MadeText>, AllocError>
    requires gained { IsSortedByKey (λ g. g.digest) by_bytes gained.items }
    requires agree { Agree gained.items }
    requires gains { gains.now ≡ gained_digests gained.items }
    requires lost { IsSorted by_bytes lost.now }
    ensures { IfOk result (λ texts. IsMade gained.items lost.now texts.items) }
{
    gained.dedup_by_key(|entry| entry.digest);
    let mut texts = Vec::with_capacity(alloc, gained.len())?;
    let mut gains_place = 0;
    let mut lost_place = 0;
    for Gained { digest, text } in gained {
        let gain_count = times_from(gains, &mut gains_place, &digest);
        let loss_count = times_from(lost, &mut lost_place, &digest);
        texts.push(MadeText {
            digest,
            text,
            times: gain_count.saturating_sub(loss_count),
        })?;
    }
    Ok(texts)
}

/// Each digest once that is lost more often than gained, with the difference.
fn lost_texts(alloc: Global, gains: &[Digest], lost: &[Digest]) -> Result<Vec<LostText>, AllocError>
    requires gains { IsSorted by_bytes gains.now }
    requires lost { IsSorted by_bytes lost.now }
    ensures { IfOk result (λ texts. IsLost gains.now lost.now texts.items) }
{
    let mut digests = Vec::from_slice(alloc, lost)?;
    digests.dedup();
    let mut texts = Vec::with_capacity(alloc, digests.len())?;
    let mut gains_place = 0;
    let mut lost_place = 0;
    for digest in &digests {
        let gain_count = times_from(gains, &mut gains_place, digest);
        let loss_count = times_from(lost, &mut lost_place, digest);
        if loss_count > gain_count {
            texts.push(LostText {
                digest: *digest,
                times: loss_count - gain_count,
            })?;
        }
    }
    Ok(texts)
}

/// How often a digest stands in a list in order, of which all before a place are below it. The place
/// moves behind it, so that rising digests are counted in one pass over the list.
fn times_from(digests: &[Digest], place: &mut usize, digest: &Digest) -> u64
    requires order { IsSorted by_bytes digests.now }
    requires within { place.old ≤ length digests.now }
    requires below { AreBelow digests.now place.old digest.now }
    ensures times { result ≡ times_in digests.now digest.now.0 }
    ensures within { place.new ≤ length digests.now }
    ensures up_to { AreUpTo digests.now place.new digest.now }
{
    let first = past_lower(digests, *place, digest);
    let behind = past_equal(digests, first, digest);
    *place = behind;
    (behind - first) as u64
}

/// The place of the first digest that is not below one, from a place on.
fn past_lower(digests: &[Digest], from: usize, digest: &Digest) -> usize
    requires order { IsSorted by_bytes digests.now }
    requires within { from ≤ length digests.now }
    requires below { AreBelow digests.now from digest.now }
    ensures within { result ≤ length digests.now }
    ensures parted { IsPartitionPoint (λ d. is_lt (by_bytes d digest.now) ≡ true) (λ d. is_lt (by_bytes d digest.now) ≡ false) digests.now result }
{
    for place in from..digests.len() {
        if digests[place] >= *digest {
            return place;
        }
    }
    digests.len()
}

/// The place of the first digest that is above one, from a place on.
fn past_equal(digests: &[Digest], from: usize, digest: &Digest) -> usize
    requires order { IsSorted by_bytes digests.now }
    requires within { from ≤ length digests.now }
    requires up_to { AreUpTo digests.now from digest.now }
    ensures within { result ≤ length digests.now }
    ensures parted { IsPartitionPoint (λ d. is_le (by_bytes d digest.now) ≡ true) (λ d. is_le (by_bytes d digest.now) ≡ false) digests.now result }
{
    for place in from..digests.len() {
        if digests[place] > *digest {
            return place;
        }
    }
    digests.len()
}
