ghost use Rattle.std.specs.Prelude.{◌≡◌, ℕ, ◌≤◌, List, Option, IfSome, drop, length};
ghost use Rattle.std.specs.Fmt.{decimal};
ghost use Rattle.hex.specs.Hex.{encode_lower};
ghost use Rattle.base_core.specs.Faults.{IsCounted};
ghost use Rattle.script_model.specs.Spellings.{hex_text};
ghost use Rattle.script_io.specs.Streams.{Appends};

use crate::sink::Sink;
use base_core::Fault;

/// Hands all of the bytes to a sink, as many at a time as it takes. A sink that fails has taken a
/// prefix of them. It takes no memory.
pub fn put<K: Sink>(sink: &mut K, bytes: &[u8]) -> Result<(), Fault>
    ensures written { IfSome (K.written sink.old) (λ before. Appends before (K.written sink.new) bytes.now result) }
    ensures counted { IsCounted (K.faults sink.old) (K.faults sink.new) result }
{
    let mut rest = bytes;
    while !rest.is_empty() {
        let taken = sink.write(rest)?;
        rest = &rest[taken..];
    }
    Ok(())
}

/// Writes a number in decimal, without leading zeros, as `put` does. It takes no memory.
pub fn put_number<K: Sink>(sink: &mut K, n: u64) -> Result<(), Fault>
    ensures written { IfSome (K.written sink.old) (λ before. Appends before (K.written sink.new) (decimal n) result) }
    ensures counted { IsCounted (K.faults sink.old) (K.faults sink.new) result }
{
    let mut digits = [0; 20];
    let start = write_digits(n, &mut digits);
    put(sink, &digits[start..])
}

/// Writes two small hexadecimal digits for each byte, or `-` where there is none, as `put` does. It
/// takes no memory.
pub fn put_hex<K: Sink>(sink: &mut K, bytes: &[u8]) -> Result<(), Fault>
    ensures written { IfSome (K.written sink.old) (λ before. Appends before (K.written sink.new) (hex_text bytes.now) result) }
    ensures counted { IsCounted (K.faults sink.old) (K.faults sink.new) result }
{
    if bytes.is_empty() {
        return put(sink, b"-");
    }
    put_digits(sink, bytes)
}

// How many bytes are spelled at a time.
const PIECE: usize = 512;

fn put_digits<K: Sink>(sink: &mut K, bytes: &[u8]) -> Result<(), Fault>
    ensures written { IfSome (K.written sink.old) (λ before. Appends before (K.written sink.new) (encode_lower bytes.now) result) }
    ensures counted { IsCounted (K.faults sink.old) (K.faults sink.new) result }
{
    let mut rest = bytes;
    while !rest.is_empty() {
        let (prefix, after) = rest.split_at(rest.len().min(PIECE));
        match put_piece(sink, prefix) {
            Ok(()) => rest = after,
            Err(fault) => return Err(fault),
        }
    }
    Ok(())
}

fn put_piece<K: Sink>(sink: &mut K, bytes: &[u8]) -> Result<(), Fault>
    requires { length bytes.now ≤ PIECE }
    ensures written { IfSome (K.written sink.old) (λ before. Appends before (K.written sink.new) (encode_lower bytes.now) result) }
    ensures counted { IsCounted (K.faults sink.old) (K.faults sink.new) result }
{
    let mut digits = [0; 2 * PIECE];
    let digits = &mut digits[..2 * bytes.len()];
    let _ = hex::encode_to_slice(bytes, digits);
    put(sink, digits)
}

// Writes the digits of a number at the end, and answers where they begin.
fn write_digits(n: u64, digits: &mut [u8; 20]) -> usize
    ensures start { result ≤ 20 }
    ensures digits { drop result digits.new ≡ decimal n }
{
    let mut start = 20;
    let mut rest = n;
    while rest >= 10 {
        start -= 1;
        digits[start] = b'0' + (rest % 10) as u8;
        rest /= 10;
    }
    start -= 1;
    digits[start] = b'0' + rest as u8;
    start
}
