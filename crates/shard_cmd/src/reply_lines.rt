ghost use Rattle.std.specs.Prelude.{◌≡◌, ◌++◌, OnOk, codes};
ghost use Rattle.std.specs.Fmt.{decimal};
ghost use Rattle.hex.specs.Hex.{encode_lower};
ghost use Rattle.output_model.specs.Ends.{line_of};
ghost use Rattle.output_model.specs.Readings.{stats_of};
ghost use Rattle.script_model.specs.Spellings.{hex_text};

use base_core::{Digest, Fault};
use script_io::{Buffer, put, put_hex, put_number};
use shard_core::{HeadMoved, Stats};

/// The line `block ID ok ROOT`.
pub fn put_accepted(replies: &mut Buffer, id: &Digest, root: &Digest) -> Result<(), Fault>
    ensures { OnOk result (replies.new.bytes ≡ replies.old.bytes ++ line_of (codes "block " ++ encode_lower id.now.0 ++ codes " ok " ++ encode_lower root.now.0)) }
{
    put(replies, b"block ")?;
    put_digits(replies, id)?;
    put(replies, b" ok ")?;
    put_digits(replies, root)?;
    put(replies, b"\n")?;
    Ok(())
}

/// The line `block ID refused NAME`.
pub fn put_refused(replies: &mut Buffer, id: &Digest, name: &[u8]) -> Result<(), Fault>
    ensures { OnOk result (replies.new.bytes ≡ replies.old.bytes ++ line_of (codes "block " ++ encode_lower id.now.0 ++ codes " refused " ++ name.now)) }
{
    put(replies, b"block ")?;
    put_digits(replies, id)?;
    put(replies, b" refused ")?;
    put(replies, name)?;
    put(replies, b"\n")?;
    Ok(())
}

/// The line `head ID ok PASSED DROPPED`.
pub fn put_moved(replies: &mut Buffer, id: &Digest, moved: &HeadMoved) -> Result<(), Fault>
    ensures { OnOk result (replies.new.bytes ≡ replies.old.bytes
        ++ line_of (codes "head " ++ encode_lower id.now.0 ++ codes " ok " ++ decimal moved.now.passed ++ codes " " ++ decimal moved.now.dropped)) }
{
    put(replies, b"head ")?;
    put_digits(replies, id)?;
    put(replies, b" ok ")?;
    put_number(replies, moved.passed)?;
    put(replies, b" ")?;
    put_number(replies, moved.dropped)?;
    put(replies, b"\n")?;
    Ok(())
}

/// The line `head ID refused not-live`.
pub fn put_not_moved(replies: &mut Buffer, id: &Digest) -> Result<(), Fault>
    ensures { OnOk result (replies.new.bytes ≡ replies.old.bytes ++ line_of (codes "head " ++ encode_lower id.now.0 ++ codes " refused not-live")) }
{
    put(replies, b"head ")?;
    put_digits(replies, id)?;
    put(replies, b" refused not-live\n")
}

/// The line `flat V` or `trie V`, by the word with which it begins.
pub fn put_value(replies: &mut Buffer, word: &[u8], value: &[u8]) -> Result<(), Fault>
    ensures { OnOk result (replies.new.bytes ≡ replies.old.bytes ++ line_of (word.now ++ hex_text value.now)) }
{
    put(replies, word)?;
    put_hex(replies, value)?;
    put(replies, b"\n")?;
    Ok(())
}

/// The line `usage N`.
pub fn put_usage(replies: &mut Buffer, usage: u64) -> Result<(), Fault>
    ensures { OnOk result (replies.new.bytes ≡ replies.old.bytes ++ line_of (codes "usage " ++ decimal usage)) }
{
    put(replies, b"usage ")?;
    put_number(replies, usage)?;
    put(replies, b"\n")?;
    Ok(())
}

/// The line `stats LIVE PAIRS DELTAS DISTINCT`.
pub fn put_stats(replies: &mut Buffer, stats: &Stats) -> Result<(), Fault>
    ensures { OnOk result (replies.new.bytes ≡ replies.old.bytes ++ stats_of stats.now.live stats.now.pairs stats.now.deltas stats.now.distinct) }
{
    put(replies, b"stats ")?;
    put_number(replies, stats.live)?;
    put(replies, b" ")?;
    put_number(replies, stats.pairs)?;
    put(replies, b" ")?;
    put_number(replies, stats.deltas)?;
    put(replies, b" ")?;
    put_number(replies, stats.distinct)?;
    put(replies, b"\n")?;
    Ok(())
}

/// The line `clash DIGEST`, of the digest that texts share.
pub fn put_clash(replies: &mut Buffer, digest: &Digest) -> Result<(), Fault>
    ensures { OnOk result (replies.new.bytes ≡ replies.old.bytes ++ line_of (codes "clash " ++ encode_lower digest.now.0)) }
{
    put(replies, b"clash ")?;
    put_digits(replies, digest)?;
    put(replies, b"\n")?;
    Ok(())
}

/// The 64 digits of an id or a digest.
pub fn put_digits(replies: &mut Buffer, id: &Digest) -> Result<(), Fault>
    ensures { OnOk result (replies.new.bytes ≡ replies.old.bytes ++ encode_lower id.now.0) }
{
    let mut digits = [0; 64];
    id.to_hex_into(&mut digits);
    put(replies, &digits)
}
