ghost use Rattle.std.specs.Prelude.{◌≡◌, ◌++◌, ◌∷◌, [], IfOk, OnOk, codes};
ghost use Rattle.std.specs.Fmt.{decimal};
ghost use Rattle.hex.specs.Hex.{encode_lower};
ghost use Rattle.script_model.specs.Lines.{line_feed};
ghost use Rattle.output_model.specs.Ends.{syntax_at, full_pairs};
ghost use Rattle.shard_cmd.specs.Replies.{IsReply};

use crate::status::Status;
use base_core::{Fault, Text};
use script_io::{Buffer, put, put_number};
use std::alloc::{AllocError, Global};
use trie_shape::Built;

/// What a run writes in the end, and the status that it has once that is written.
#[derive(Debug, Drop)]
pub struct Reply {
    pub bytes: Text,
    pub status: Status,
}

/// The line `root ROOT USAGE`.
pub fn root_reply(alloc: Global, built: &Built) -> Result<Reply, AllocError>
    ensures line { IfOk result (λ reply. reply.bytes
        ≡ codes "root " ++ encode_lower built.now.root.0 ++ codes " " ++ decimal built.now.usage ++ line_feed ∷ []) }
    ensures done { IfOk result (λ reply. reply.status ≡ Status.Done) }
{
    let mut line = Buffer::new(alloc);
    match put_root(&mut line, built) {
        Ok(()) => Ok(Reply {
            bytes: Text::copy(alloc, line.bytes())?,
            status: Status::Done,
        }),
        Err(Fault) => Err(AllocError),
    }
}

fn put_root(line: &mut Buffer, built: &Built) -> Result<(), Fault>
    ensures { OnOk result (line.new.bytes ≡ line.old.bytes
        ++ codes "root " ++ encode_lower built.now.root.0 ++ codes " " ++ decimal built.now.usage ++ line_feed ∷ []) }
{
    let mut digits = [0; 64];
    built.root.to_hex_into(&mut digits);
    put(line, b"root ")?;
    put(line, &digits)?;
    put(line, b" ")?;
    put_number(line, built.usage)?;
    put(line, b"\n")?;
    Ok(())
}

/// The line `syntax NUMBER`, of the line of a script that is refused.
pub fn syntax_reply(alloc: Global, number: u64) -> Result<Reply, AllocError>
    ensures { IfOk result (IsReply (syntax_at number)) }
{
    let mut line = Buffer::new(alloc);
    match put_syntax(&mut line, number) {
        Ok(()) => Ok(Reply {
            bytes: Text::copy(alloc, line.bytes())?,
            status: Status::Syntax,
        }),
        Err(Fault) => Err(AllocError),
    }
}

pub fn put_syntax(line: &mut Buffer, number: u64) -> Result<(), Fault>
    ensures { OnOk result (line.new.bytes ≡ line.old.bytes ++ codes "syntax " ++ decimal number ++ line_feed ∷ []) }
{
    put(line, b"syntax ")?;
    put_number(line, number)?;
    put(line, b"\n")?;
    Ok(())
}

/// The line `refused full-pairs`.
pub fn full_reply(alloc: Global) -> Result<Reply, AllocError>
    ensures { IfOk result (IsReply full_pairs) }
{
    Ok(Reply {
        bytes: Text::copy(alloc, b"refused full-pairs\n")?,
        status: Status::Refused,
    })
}
