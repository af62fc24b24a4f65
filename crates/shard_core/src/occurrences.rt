ghost use Rattle.std.specs.Prelude.{◌≡◌, ◌<◌, IfOk};
ghost use Rattle.std.specs.List.{filter};
ghost use Rattle.std.specs.Prelude.{nat_lt};
ghost use Rattle.shard_core.specs.Ledgers.{entries_of, gains_of, losses_of};

use base_core::Digest;
use std::alloc::{AllocError, Global};
use trie_update::{Lost, Made};

/// By how much a digest occurs more often than before, or less often.
#[derive(Clone, Copy, Debug)]
pub(crate) struct Occurrences {
    pub(crate) digest: Digest,
    pub(crate) times: u64,
}

/// The digests that gain by a batch.
pub(crate) fn gains(alloc: Global, made: &Made) -> Result<Vec<Occurrences>, AllocError>
    ensures { IfOk result (λ gains. entries_of gains.items ≡ filter (λ entry. nat_lt 0 entry.1) (gains_of made.now)) }
{
    let mut gains = Vec::new(alloc);
    for place in 0..made.len() {
        let text = made.at(place);
        if text.times > 0 {
            gains.push(Occurrences {
                digest: text.digest,
                times: text.times,
            })?;
        }
    }
    Ok(gains)
}

/// The digests that lose by a batch.
pub(crate) fn losses(alloc: Global, lost: &Lost) -> Result<Vec<Occurrences>, AllocError>
    ensures { IfOk result (λ losses. entries_of losses.items ≡ losses_of lost.now) }
{
    let mut losses = Vec::new(alloc);
    for place in 0..lost.len() {
        let text = lost.at(place);
        losses.push(Occurrences {
            digest: text.digest,
            times: text.times,
        })?;
    }
    Ok(losses)
}
