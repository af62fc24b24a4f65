//! Reading the texts of a partial state, and the tests on their order.

ghost use Rattle.std.specs.Prelude.{◌≡◌, ◌^◌, ◌<◌, map, length, IfOk, Result};
ghost use Rattle.std.specs.List.{AllByRecursion};
ghost use Rattle.record_model.specs.Fields.{vector_at};
ghost use Rattle.base_core.specs.Reading.{Follows};
ghost use Rattle.partial_model.specs.Texts.{first_fall, is_above};
ghost use Rattle.partial_model.specs.Partial.{texts_at, listed_at};
ghost use Rattle.text_store.specs.PartialStates.{Lists};

use crate::errors::PartialError;
use base_core::{BorshError, Reader};
use std::alloc::Global;

/// The texts of a partial state in any order, each where it stands. A count is believed only as far
/// as there are texts.
pub(crate) fn read_texts<'a>(
    alloc: Global,
    reader: &mut Reader<'a>,
) -> Result<Vec<&'a [u8]>, PartialError>
    ensures read { Lists (λ texts. map (λ text. text.now) texts.items) result reader.old reader.new listed_at }
    ensures short { IfOk result (λ texts. AllByRecursion (λ text. length text.now < 2 ^ 32) texts.items) }
    ensures few { IfOk result (λ texts. length texts.items < 2 ^ 32) }
{
    let start = reader.place();
    if reader.u8()? != 0 {
        return Err(PartialError::Frame(BorshError::Ordinal { at: start }));
    }
    let count = reader.u32()?;
    read_counted(alloc, reader, count)
}

fn read_counted<'a>(
    alloc: Global,
    reader: &mut Reader<'a>,
    count: u32,
) -> Result<Vec<&'a [u8]>, PartialError>
    ensures read { Lists (λ texts. map (λ text. text.now) texts.items) result reader.old reader.new (texts_at count) }
    ensures short { IfOk result (λ texts. AllByRecursion (λ text. length text.now < 2 ^ 32) texts.items) }
    ensures count { IfOk result (λ texts. length texts.items ≡ count) }
{
    let mut texts = Vec::new(alloc);
    for _ in 0..count {
        let text = read_text(reader)?;
        let Ok(()) = texts.push(text) else {
            return Err(PartialError::NoMemory);
        };
    }
    Ok(texts)
}

fn read_text<'a>(reader: &mut Reader<'a>) -> Result<&'a [u8], BorshError>
    ensures read { Follows (λ text. text.now) result reader.old reader.new vector_at }
    ensures short { IfOk result (λ text. length text.now < 2 ^ 32) }
{
    let length = reader.u32()?;
    reader.take(length as u64)
}

/// The place of the first text that is not above the one before it.
pub(crate) fn fall_among(texts: &[&[u8]]) -> Option<u64>
    ensures { result ≡ first_fall (map (λ text. text.now) texts.now) }
{
    for place in 1..texts.len() {
        if !rises(texts[place - 1], texts[place]) {
            return Some(place as u64);
        }
    }
    None
}

/// Whether a text is above an earlier one.
fn rises(earlier: &[u8], text: &[u8]) -> bool
    ensures { result ≡ is_above text.now earlier.now }
{
    earlier < text
}
