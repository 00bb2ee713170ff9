//! The texts of a rule's addresses (pf.conf(5), PARAMETERS, `from` and `to`).
ghost use Rattle.std.specs.Prelude.{◌≡◌, ◌++◌, OnOk, codes, decimal};
ghost use Rattle.std.specs.Option.{option_map};
ghost use Rattle.pf_addr.specs.PrefixText.{prefix_text};
ghost use Rattle.pf_addr.specs.Text.{addr_text};
ghost use Rattle.pf_parts.specs.Appending.{Extends};
ghost use Rattle.pf_parts.specs.Parts.{spaced};
ghost use Rattle.pf_print.specs.HostText.{addresses_text, dynamic_text, host_text, hosts_text, port_text, tests_no_host, text_if};
ghost use Rattle.pf_print.specs.HostText as says;

use crate::set::put_ports;
use pf_addr::{Addr, DynIf, Prefix, Range, put_addr, put_prefix};
use pf_base::NoMemory;
use pf_ops::Op16;
use pf_parts::{put, put_number};
use pf_rule::{AddrSet, AddrTest, Criteria};

/// Appends these bytes where the test holds.
pub(crate) fn put_if(out: &mut Vec<u8>, stands: bool, bytes: &[u8]) -> Result<(), NoMemory>
    ensures ok { OnOk result (out.new.items ≡ out.old.items ++ text_if stands bytes.now) }
    ensures kept { Extends out.old.items out.new.items }
{
    if stands {
        put(out, bytes)?;
    }
    Ok(())
}

fn put_address(out: &mut Vec<u8>, addr: &Addr) -> Result<(), NoMemory>
    ensures ok { OnOk result (out.new.items ≡ out.old.items ++ addr_text addr.now) }
    ensures kept { Extends out.old.items out.new.items }
{
    put_addr(out, addr)
}

/// Appends a prefix. Without memory what stood in `out` still stands in front.
pub(crate) fn put_network(out: &mut Vec<u8>, prefix: &Prefix) -> Result<(), NoMemory>
    ensures ok { OnOk result (out.new.items ≡ out.old.items ++ prefix_text prefix.now) }
    ensures kept { Extends out.old.items out.new.items }
{
    put_prefix(out, prefix)?;
    Ok(())
}

fn put_range(out: &mut Vec<u8>, range: &Range) -> Result<(), NoMemory>
    ensures ok { OnOk result (out.new.items ≡ out.old.items ++ (addr_text range.now.low ++ codes " - " ++ addr_text range.now.high)) }
    ensures kept { Extends out.old.items out.new.items }
{
    put_address(out, &range.low)?;
    put(out, b" - ")?;
    put_address(out, &range.high)?;
    Ok(())
}

// An interface, and what is asked of it.
fn put_asked(out: &mut Vec<u8>, what: &DynIf) -> Result<(), NoMemory>
    ensures ok { OnOk result (out.new.items ≡ out.old.items
        ++ (what.now.name ++ text_if what.now.network (codes ":network") ++ text_if what.now.first (codes ":0"))) }
    ensures kept { Extends out.old.items out.new.items }
{
    put(out, what.name.bytes())?;
    put_if(out, what.network, b":network")?;
    put_if(out, what.first, b":0")?;
    Ok(())
}

// The same in brackets.
fn put_dynamic(out: &mut Vec<u8>, what: &DynIf) -> Result<(), NoMemory>
    ensures ok { OnOk result (out.new.items ≡ out.old.items ++ dynamic_text what.now) }
    ensures kept { Extends out.old.items out.new.items }
{
    put(out, b"(")?;
    put_asked(out, what)?;
    put(out, b")")?;
    Ok(())
}

/// Appends these bytes between `<` and `>`.
pub(crate) fn put_table_name(out: &mut Vec<u8>, name: &[u8]) -> Result<(), NoMemory>
    ensures ok { OnOk result (out.new.items ≡ out.old.items ++ (codes "<" ++ name.now ++ codes ">")) }
    ensures kept { Extends out.old.items out.new.items }
{
    put(out, b"<")?;
    put(out, name)?;
    put(out, b">")?;
    Ok(())
}

// A number between two texts.
fn put_between(out: &mut Vec<u8>, before: &[u8], number: u32, after: &[u8]) -> Result<(), NoMemory>
    ensures ok { OnOk result (out.new.items ≡ out.old.items ++ (before.now ++ decimal number ++ after.now)) }
    ensures kept { Extends out.old.items out.new.items }
{
    put(out, before)?;
    put_number(out, number)?;
    put(out, after)?;
    Ok(())
}

// A table that the optimiser made.
fn put_automatic(out: &mut Vec<u8>, number: u32) -> Result<(), NoMemory>
    ensures ok { OnOk result (out.new.items ≡ out.old.items ++ (codes "<__automatic_" ++ decimal number ++ codes ">")) }
    ensures kept { Extends out.old.items out.new.items }
{
    put_between(out, b"<__automatic_", number, b">")
}

#[tactic(auto, unfolding(crate::specs::HostText::addresses_text))]
fn put_addresses(out: &mut Vec<u8>, what: &AddrSet) -> Result<(), NoMemory>
    ensures ok { OnOk result (out.new.items ≡ out.old.items ++ addresses_text what.now) }
    ensures kept { Extends out.old.items out.new.items }
{
    match what {
        AddrSet::Prefix(prefix) => put_network(out, prefix)?,
        AddrSet::Range(range) => put_range(out, range)?,
        AddrSet::Table(name) => put_table_name(out, name.bytes())?,
        AddrSet::Dynamic(what) => put_dynamic(out, what)?,
        AddrSet::Auto(number) => put_automatic(out, *number)?,
    }
    Ok(())
}

#[tactic(auto, unfolding(crate::specs::HostText::host_text))]
fn put_host(out: &mut Vec<u8>, test: &AddrTest) -> Result<(), NoMemory>
    ensures ok { OnOk result (out.new.items ≡ out.old.items ++ host_text test.now) }
    ensures kept { Extends out.old.items out.new.items }
{
    match test {
        AddrTest::Any => put(out, b"any")?,
        AddrTest::Test { negated, what } => {
            put_if(out, *negated, b"! ")?;
            put_addresses(out, what)?;
        }
    }
    Ok(())
}

// A test of ports, with a space before it.
fn put_port(out: &mut Vec<u8>, ports: &Option<Op16>) -> Result<(), NoMemory>
    ensures ok { OnOk result (out.new.items ≡ out.old.items ++ spaced (option_map port_text ports.now)) }
    ensures kept { Extends out.old.items out.new.items }
{
    if let Some(ports) = ports {
        put(out, b" port ")?;
        put_ports(out, ports)?;
    }
    Ok(())
}

// One side of a rule's hosts.
fn put_side(
    out: &mut Vec<u8>,
    word: &[u8],
    test: &AddrTest,
    ports: &Option<Op16>,
) -> Result<(), NoMemory>
    ensures ok { OnOk result (out.new.items ≡ out.old.items ++ (word.now ++ host_text test.now ++ spaced (option_map port_text ports.now))) }
    ensures kept { Extends out.old.items out.new.items }
{
    put(out, word)?;
    put_host(out, test)?;
    put_port(out, ports)?;
    Ok(())
}

fn is_any(test: &AddrTest) -> bool
    ensures { result ≡ says.is_any test.now }
{
    matches!(test, AddrTest::Any)
}

// Whether neither an address nor a port is tested.
fn tests_no_host(criteria: &Criteria) -> bool
    ensures { result ≡ tests_no_host criteria.now }
{
    is_any(&criteria.source)
        && is_any(&criteria.target)
        && criteria.source_port.is_none()
        && criteria.target_port.is_none()
}

/// Appends `all`, or `from` and `to` with their addresses and ports. Without memory what stood in `out` still stands in front.
#[tactic(auto, unfolding(crate::specs::HostText::hosts_text))]
pub(crate) fn put_hosts(out: &mut Vec<u8>, criteria: &Criteria) -> Result<(), NoMemory>
    ensures ok { OnOk result (out.new.items ≡ out.old.items ++ hosts_text criteria.now) }
    ensures kept { Extends out.old.items out.new.items }
{
    if tests_no_host(criteria) {
        put(out, b"all")?;
    } else {
        put_side(out, b"from ", &criteria.source, &criteria.source_port)?;
        put_side(out, b" to ", &criteria.target, &criteria.target_port)?;
    }
    Ok(())
}
