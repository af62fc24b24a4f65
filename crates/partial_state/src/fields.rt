//! Counts and vectors within a limit. None of this takes memory.

ghost use Rattle.std.specs.Prelude.{◌≤◌, length, IfOk, IfSome};
ghost use Rattle.std.specs.Option.{option_copied};
ghost use Rattle.byte_model.specs.Node.{longest_value};
ghost use Rattle.partial_model.specs.Recording.{count_within, vector_within, value_at, becomes_at};
ghost use Rattle.partial_state.specs.Recordings.{Reads};

use crate::proof_error::ProofError;
use base_core::{BorshError, LONGEST_VALUE, Reader};

/// A count that is at most so many.
#[tactic(auto, unfolding(partial_model::specs::Recording::count_within))]
pub(crate) fn read_count(reader: &mut Reader<'_>, most: u64) -> Result<u32, ProofError>
    ensures read { Reads (λ n. n) result reader.old reader.new (count_within most) }
    ensures within { IfOk result (λ n. n ≤ most) }
{
    let at = reader.place();
    let count = reader.u32()?;
    if count as u64 > most {
        return Err(ProofError::Head { at });
    }
    Ok(count)
}

/// A vector of at most so many bytes.
#[tactic(auto, unfolding(partial_model::specs::Recording::vector_within))]
pub(crate) fn read_within<'a>(reader: &mut Reader<'a>, most: u64) -> Result<&'a [u8], ProofError>
    ensures read { Reads (λ bytes. bytes.now) result reader.old reader.new (vector_within most) }
    ensures within { IfOk result (λ bytes. length bytes.now ≤ most) }
{
    let at = reader.place();
    let bytes = reader.bytes()?;
    if bytes.len() as u64 > most {
        return Err(ProofError::Head { at });
    }
    Ok(bytes)
}

/// What a key becomes: the byte 0 says that it is deleted, and behind the byte 1 stands its value.
#[tactic(auto, unfolding(partial_model::specs::Recording::becomes_at))]
pub(crate) fn read_becomes<'a>(reader: &mut Reader<'a>) -> Result<Option<&'a [u8]>, ProofError>
    ensures read { Reads (λ value. option_copied value) result reader.old reader.new becomes_at }
    ensures within { IfOk result (λ value. IfSome value (λ v. length v.now ≤ longest_value)) }
{
    let at = reader.place();
    match reader.u8()? {
        0 => Ok(None),
        1 => read_value(reader),
        _ => Err(ProofError::Frame(BorshError::Ordinal { at })),
    }
}

#[tactic(auto, unfolding(partial_model::specs::Recording::value_at))]
fn read_value<'a>(reader: &mut Reader<'a>) -> Result<Option<&'a [u8]>, ProofError>
    ensures read { Reads (λ value. option_copied value) result reader.old reader.new value_at }
    ensures within { IfOk result (λ value. IfSome value (λ v. length v.now ≤ longest_value)) }
{
    Ok(Some(read_within(reader, LONGEST_VALUE)?))
}
