ghost use Rattle.std.specs.Prelude.{◌≡◌};
ghost use Rattle.sha2.specs.Sha256.{sha256};

use crate::hash::Digest;
use sha2::Sha256;

/// The SHA-256 of some bytes. It takes no memory.
pub fn digest(bytes: &[u8]) -> Digest
    ensures { result.0 ≡ sha256 bytes.now }
{
    Digest(<Sha256 as sha2::Digest>::digest(bytes))
}
