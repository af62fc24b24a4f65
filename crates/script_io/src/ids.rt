ghost use Rattle.std.specs.Prelude.{◌≡◌};
ghost use Rattle.std.specs.Option.{option_map};
ghost use Rattle.script_model.specs.Spellings.{id_of};

use base_core::{DIGEST_BYTES, Digest};
use hex::FromHex;

/// The id that a text writes, two digits for each of its bytes. It takes no memory.
pub(crate) fn read_id(text: &[u8]) -> Option<Digest>
    ensures { option_map (λ id. id.0) result ≡ id_of text.now }
{
    match <[u8; DIGEST_BYTES] as FromHex>::from_hex(text) {
        Ok(bytes) => Some(Digest(bytes)),
        Err(_) => None,
    }
}
