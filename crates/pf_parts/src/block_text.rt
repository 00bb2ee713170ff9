//! The texts of kinds of blocks (pf.conf(5), "block").
ghost use Rattle.std.specs.Prelude.{◌≡◌, ◌++◌, OnOk};
ghost use Rattle.pf_parts.specs.Appending.{Extends};
ghost use Rattle.pf_parts.specs.BlockText.{block_text};

use crate::block::BlockKind;
use crate::text::{put, put_numbered};
use pf_base::NoMemory;

// `return-rst`, with a ttl that isn't 0.
#[tactic(auto, unfolding(crate::specs::BlockText::block_text))]
fn put_reset(out: &mut Vec<u8>, ttl: u8) -> Result<(), NoMemory>
    ensures ok { OnOk result (out.new.items ≡ out.old.items ++ block_text (BlockKind.Rst ttl)) }
    ensures kept { Extends out.old.items out.new.items }
{
    if ttl == 0 {
        put(out, b"return-rst")?;
    } else {
        put_numbered(out, b"return-rst (ttl ", u32::from(ttl))?;
        put(out, b")")?;
    }
    Ok(())
}

// `return-icmp` with both codes.
fn put_icmp(out: &mut Vec<u8>, code: u8, code6: u8) -> Result<(), NoMemory>
    ensures ok { OnOk result (out.new.items ≡ out.old.items ++ block_text (BlockKind.Icmp code code6)) }
    ensures kept { Extends out.old.items out.new.items }
{
    put_numbered(out, b"return-icmp (", u32::from(code))?;
    put_numbered(out, b", ", u32::from(code6))?;
    put(out, b")")?;
    Ok(())
}

/// Appends what the sender of a blocked packet is told: `drop`, `return`, `return-rst` with the ttl where
/// it isn't 0, or `return-icmp` with both codes. Without memory a front of this may be appended.
#[tactic(auto, unfolding(crate::specs::BlockText::block_text))]
pub fn put_block_kind(out: &mut Vec<u8>, kind: BlockKind) -> Result<(), NoMemory>
    ensures ok { OnOk result (out.new.items ≡ out.old.items ++ block_text kind) }
    ensures kept { Extends out.old.items out.new.items }
{
    match kind {
        BlockKind::Drop => put(out, b"drop")?,
        BlockKind::Return => put(out, b"return")?,
        BlockKind::Rst { ttl } => put_reset(out, ttl)?,
        BlockKind::Icmp { code, code6 } => put_icmp(out, code, code6)?,
    }
    Ok(())
}
