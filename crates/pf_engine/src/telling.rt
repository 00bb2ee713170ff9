//! Replies as lines of the output: whole, or without memory not at all.
ghost use Rattle.std.specs.Prelude.{◌≡◌, ◌++◌, [], ◌∷◌, IfOk, OnErr, OnOk};
ghost use Rattle.pf_reply.specs.Refusals.{refusal_text};
ghost use Rattle.pf_reply.specs.Replies as replies;
ghost use Rattle.pf_runs.specs.Runs.{reply_text};

use crate::outcome::Outcome;
use pf_base::NoMemory;
use pf_reply::{Refusal, Reply, put_refusal, put_reply};
use std::alloc::Global;

/// A reply as a line.
pub(crate) fn reply_line(alloc: Global, reply: &Reply) -> Result<Vec<u8>, NoMemory>
    ensures { IfOk result (λ line. line.items ≡ reply_text (replies.reply_text reply.now ∷ [])) }
{
    let mut line = Vec::new(alloc);
    put_reply(&mut line, reply)?;
    line.push(b'\n')?;
    Ok(line)
}

/// A refusal as a line.
pub(crate) fn refusal_line(alloc: Global, refusal: &Refusal) -> Result<Vec<u8>, NoMemory>
    ensures { IfOk result (λ line. line.items ≡ reply_text (refusal_text refusal.now ∷ [])) }
{
    let mut line = Vec::new(alloc);
    put_refusal(&mut line, refusal)?;
    line.push(b'\n')?;
    Ok(line)
}

/// A refusal as a line, in its place.
pub(crate) fn into_line(alloc: Global, refusal: Refusal) -> Result<Vec<u8>, NoMemory>
    ensures { IfOk result (λ line. line.items ≡ reply_text (refusal_text refusal ∷ [])) }
{
    refusal_line(alloc, &refusal)
}

/// Appends a line that was made whole.
pub(crate) fn tell(out: &mut Vec<u8>, line: &[u8]) -> Result<(), NoMemory>
    ensures ok { OnOk result (out.new.items ≡ out.old.items ++ line.now) }
    ensures err { OnErr result (out.new.items ≡ out.old.items) }
{
    out.extend_from_slice(line)?;
    Ok(())
}

/// Tells a refusal.
pub(crate) fn refuse(
    alloc: Global,
    out: &mut Vec<u8>,
    refusal: &Refusal,
) -> Result<Outcome, NoMemory>
    ensures refused { IfOk result (λ outcome. outcome ≡ Outcome.Refused) }
    ensures told { OnOk result (out.new.items ≡ out.old.items ++ reply_text (refusal_text refusal.now ∷ [])) }
    ensures silent { OnErr result (out.new.items ≡ out.old.items) }
{
    let line = refusal_line(alloc, refusal)?;
    tell(out, &line)?;
    Ok(Outcome::Refused)
}
