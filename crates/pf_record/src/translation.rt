//! The texts of translations (pf.conf(5), TRANSLATION).
ghost use Rattle.std.specs.Prelude.{◌≡◌, ◌++◌, OnOk};
ghost use Rattle.std.specs.Option.{option_map};
ghost use Rattle.pf_addr.specs.Text.{addr_text};
ghost use Rattle.pf_parts.specs.Appending.{Extends};
ghost use Rattle.pf_parts.specs.Parts.{spaced};
ghost use Rattle.pf_record.specs.TranslationText.{nat_text, rdr_text, target_text};

use pf_addr::{Addr, put_addr};
use pf_base::NoMemory;
use pf_parts::{put, put_numbered};
use pf_rule::Target;

fn put_address(out: &mut Vec<u8>, addr: &Addr) -> Result<(), NoMemory>
    ensures ok { OnOk result (out.new.items ≡ out.old.items ++ addr_text addr.now) }
    ensures kept { Extends out.old.items out.new.items }
{
    put_addr(out, addr)
}

// The address, and the port where one is given.
#[tactic(auto, unfolding(crate::specs::TranslationText::target_text))]
fn put_target(out: &mut Vec<u8>, target: &Target) -> Result<(), NoMemory>
    ensures ok { OnOk result (out.new.items ≡ out.old.items ++ target_text target.now) }
    ensures kept { Extends out.old.items out.new.items }
{
    put_address(out, &target.addr)?;
    if let Some(port) = target.port {
        put_numbered(out, b" port ", u32::from(port))?;
    }
    Ok(())
}

/// Appends `nat-to` with its address, and its port where one is given, with a space before it. Without memory
/// what stood in `out` still stands in front.
pub fn put_nat(out: &mut Vec<u8>, nat: &Option<Target>) -> Result<(), NoMemory>
    ensures ok { OnOk result (out.new.items ≡ out.old.items ++ spaced (option_map nat_text nat.now)) }
    ensures kept { Extends out.old.items out.new.items }
{
    if let Some(target) = nat {
        put(out, b" nat-to ")?;
        put_target(out, target)?;
    }
    Ok(())
}

/// Appends `rdr-to` with its address, and its port where one is given, with a space before it. Without memory
/// what stood in `out` still stands in front.
pub fn put_rdr(out: &mut Vec<u8>, rdr: &Option<Target>) -> Result<(), NoMemory>
    ensures ok { OnOk result (out.new.items ≡ out.old.items ++ spaced (option_map rdr_text rdr.now)) }
    ensures kept { Extends out.old.items out.new.items }
{
    if let Some(target) = rdr {
        put(out, b" rdr-to ")?;
        put_target(out, target)?;
    }
    Ok(())
}
