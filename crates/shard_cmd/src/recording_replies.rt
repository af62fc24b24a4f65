//! What is written of a recording.

ghost use Rattle.std.specs.Prelude.{◌≡◌, ◌++◌, IfOk, OnOk, length, codes};
ghost use Rattle.std.specs.Option.{option_copied};
ghost use Rattle.std.specs.Fmt.{decimal};
ghost use Rattle.hex.specs.Hex.{encode_lower};
ghost use Rattle.byte_model.specs.Nibbles.{AreBytes};
ghost use Rattle.byte_model.specs.Node.{digest_width};
ghost use Rattle.output_model.specs.Ends.{line_of, clash_at, refused_place, refused_digest};
ghost use Rattle.output_model.specs.Replay.{read_line, read_lines, behind_changes, replayed as output_of};
ghost use Rattle.shard_cmd.specs.Replies.{IsReply};

use crate::reply::Reply;
use crate::reply_lines::{put_clash, put_digits, put_value};
use crate::status::Status;
use base_core::{Digest, Fault};
use partial_state::{Answers, Replayed};
use script_io::{Buffer, put, put_number};
use std::alloc::{AllocError, Global};

/// What each read answers, and the root behind the changes.
pub fn replayed_reply(alloc: Global, replayed: &Replayed) -> Result<Reply, AllocError>
    ensures reply { IfOk result (IsReply (output_of replayed.now.answers replayed.now.root.0)) }
    ensures root { OnOk result (AreBytes replayed.now.root.0 × (length replayed.now.root.0 ≡ digest_width)) }
{
    let mut lines = Buffer::new(alloc);
    match put_replayed(&mut lines, replayed) {
        Ok(()) => Ok(Reply {
            bytes: lines.into_text(),
            status: Status::Done,
        }),
        Err(Fault) => Err(AllocError),
    }
}

fn put_replayed(lines: &mut Buffer, replayed: &Replayed) -> Result<(), Fault>
    ensures lines { OnOk result (lines.new.bytes ≡ lines.old.bytes ++ (read_lines replayed.now.answers ++ behind_changes replayed.now.root.0)) }
    ensures root { OnOk result (AreBytes replayed.now.root.0 × (length replayed.now.root.0 ≡ digest_width)) }
{
    put_answers(lines, &replayed.answers)?;
    put_root(lines, &replayed.root.0)
}

/// The line `root ROOT`.
fn put_root(lines: &mut Buffer, root: &[u8]) -> Result<(), Fault>
    requires { length root.now ≡ digest_width }
    ensures line { OnOk result (lines.new.bytes ≡ lines.old.bytes ++ behind_changes root.now) }
    ensures root { AreBytes root.now × (length root.now ≡ digest_width) }
{
    put_value(lines, b"root ", root)
}

fn put_answers(lines: &mut Buffer, answers: &Answers) -> Result<(), Fault>
    ensures { OnOk result (lines.new.bytes ≡ lines.old.bytes ++ read_lines answers.now) }
{
    for place in 0..answers.len() {
        put_answer(lines, answers.at(place))?;
    }
    Ok(())
}

/// The line `read V` or `read none`.
fn put_answer(lines: &mut Buffer, answer: Option<&[u8]>) -> Result<(), Fault>
    ensures { OnOk result (lines.new.bytes ≡ lines.old.bytes ++ read_line (option_copied answer.entry)) }
{
    match answer {
        Some(value) => put_value(lines, b"read ", value),
        None => put(lines, b"read none\n"),
    }
}

/// The line `refused NAME PLACE`.
pub fn place_reply(alloc: Global, name: &[u8], place: u64) -> Result<Reply, AllocError>
    ensures { IfOk result (IsReply (refused_place name.now place)) }
{
    let mut line = Buffer::new(alloc);
    match put_place(&mut line, name, place) {
        Ok(()) => Ok(Reply {
            bytes: line.into_text(),
            status: Status::Refused,
        }),
        Err(Fault) => Err(AllocError),
    }
}

fn put_place(line: &mut Buffer, name: &[u8], place: u64) -> Result<(), Fault>
    ensures { OnOk result (line.new.bytes ≡ line.old.bytes ++ line_of (codes "refused " ++ name.now ++ codes " " ++ decimal place)) }
{
    put(line, b"refused ")?;
    put(line, name)?;
    put(line, b" ")?;
    put_number(line, place)?;
    put(line, b"\n")?;
    Ok(())
}

/// The line `refused NAME DIGEST`.
pub fn digest_reply(alloc: Global, name: &[u8], digest: &Digest) -> Result<Reply, AllocError>
    ensures { IfOk result (IsReply (refused_digest name.now digest.now.0)) }
{
    let mut line = Buffer::new(alloc);
    match put_digest(&mut line, name, digest) {
        Ok(()) => Ok(Reply {
            bytes: line.into_text(),
            status: Status::Refused,
        }),
        Err(Fault) => Err(AllocError),
    }
}

fn put_digest(line: &mut Buffer, name: &[u8], digest: &Digest) -> Result<(), Fault>
    ensures { OnOk result (line.new.bytes ≡ line.old.bytes ++ line_of (codes "refused " ++ name.now ++ codes " " ++ encode_lower digest.now.0)) }
{
    put(line, b"refused ")?;
    put(line, name)?;
    put(line, b" ")?;
    put_digits(line, digest)?;
    put(line, b"\n")?;
    Ok(())
}

/// The line `clash DIGEST`.
pub fn clash_reply(alloc: Global, digest: &Digest) -> Result<Reply, AllocError>
    ensures { IfOk result (IsReply (clash_at digest.now.0)) }
{
    let mut line = Buffer::new(alloc);
    match put_clash(&mut line, digest) {
        Ok(()) => Ok(Reply {
            bytes: line.into_text(),
            status: Status::Clash,
        }),
        Err(Fault) => Err(AllocError),
    }
}
