ghost use Rattle.std.specs.Prelude.{◌≤◌, ◌↔◌, IsOk, IsTrue};
ghost use Rattle.std.specs.List.{AllPass};
ghost use Rattle.hex.specs.Hex.{decode_of, is_hex_digit};
ghost use Rattle.byte_model.specs.Node.{longest_value};
ghost use Rattle.script_model.specs.Spellings.{hex_bytes, at_most};
ghost use Rattle.script_io.specs.Meanings.{IsRead};

use crate::event::EventError;
use base_core::Text;
use std::alloc::Global;

/// The bytes that a hexadecimal text writes, at most so many.
pub(crate) fn read_hex(alloc: Global, text: &[u8], most: u64) -> Result<Text, EventError>
    requires { most ≤ longest_value }
    ensures { IsRead (λ bytes. bytes) (at_most most (hex_bytes text.now)) result }
{
    if text == b"-".as_slice() {
        return Ok(Text::from_bytes(Vec::new(alloc)));
    }
    if text.is_empty() {
        return Err(EventError::Bad);
    }
    if text.len() as u64 > 2 * most {
        return Err(EventError::Bad);
    }
    if let Ok(bytes) = hex::decode(alloc, text) {
        return Ok(Text::from_bytes(bytes));
    }
    // Digits that were not decoded found no memory.
    if are_pairs_of_digits(text) {
        Err(EventError::NoMemory)
    } else {
        Err(EventError::Bad)
    }
}

fn are_pairs_of_digits(text: &[u8]) -> bool
    ensures { IsTrue result ↔ IsOk (decode_of text.now) }
{
    text.len() % 2 == 0 && are_digits(text)
}

fn are_digits(text: &[u8]) -> bool
    ensures { IsTrue result ↔ AllPass is_hex_digit text.now }
{
    text.iter().all(|digit| digit.is_ascii_hexdigit())
}
