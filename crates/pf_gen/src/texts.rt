//! The line of a rule and the record of a packet, by the draws from a number on.
ghost use Rattle.std.specs.Prelude.{◌≡◌, ◌++◌, OnOk, IfOk};
ghost use Rattle.pf_gen.specs.Draws.{after, draw as drawn};
ghost use Rattle.pf_gen.specs.Texts.{action_part, action_text, end_part, flags_text, head_part, host_part, port_part, proto_text, quick_text, record_text, rule_text, source_part};

use crate::draws::draw;
use pf_base::NoMemory;
use pf_parts::{put, put_numbered};

fn action_word(action: u32) -> &'static [u8]
    ensures { result.now ≡ action_text action }
{
    if action == 0 { b"pass" } else { b"block" }
}

fn quick_word(quick: u32) -> &'static [u8]
    ensures { result.now ≡ quick_text quick }
{
    if quick == 0 { b" quick" } else { b"" }
}

fn proto_word(proto: u32) -> &'static [u8]
    ensures { result.now ≡ proto_text proto }
{
    if proto == 0 { b"tcp" } else { b"udp" }
}

fn flags_word(proto: u32) -> &'static [u8]
    ensures { result.now ≡ flags_text proto }
{
    if proto == 0 { b" flags=S" } else { b"" }
}

// ACTION [quick] on emE
#[tactic(auto, unfolding(crate::specs::Draws::after, crate::specs::Texts::action_part))]
fn put_action(out: &mut Vec<u8>, number: &mut u32) -> Result<(), NoMemory>
    ensures behind { number.new ≡ after number.old 3 }
    ensures ok { OnOk result (out.new.items ≡ out.old.items ++ action_part number.old) }
{
    let action = draw(number, 2);
    let quick = draw(number, 8);
    let interface = draw(number, 4);
    put(out, action_word(action))?;
    put(out, quick_word(quick))?;
    put_numbered(out, b" on em", interface)?;
    Ok(())
}

// proto PROTO from 10.B.C.0/24
#[tactic(auto, unfolding(crate::specs::Draws::after, crate::specs::Texts::source_part))]
fn put_source(out: &mut Vec<u8>, number: &mut u32) -> Result<(), NoMemory>
    ensures behind { number.new ≡ after number.old 3 }
    ensures ok { OnOk result (out.new.items ≡ out.old.items ++ source_part number.old) }
{
    let proto = draw(number, 2);
    let second = draw(number, 256);
    let third = draw(number, 256);
    put(out, b" proto ")?;
    put(out, proto_word(proto))?;
    put_numbered(out, b" from 10.", second)?;
    put_numbered(out, b".", third)?;
    put(out, b".0/24")?;
    Ok(())
}

// to any port D
#[tactic(auto, unfolding(crate::specs::Draws::after, crate::specs::Texts::port_part))]
fn put_port(out: &mut Vec<u8>, number: &mut u32) -> Result<(), NoMemory>
    ensures behind { number.new ≡ after number.old 1 }
    ensures ok { OnOk result (out.new.items ≡ out.old.items ++ port_part number.old) }
{
    let port = draw(number, 1_000);
    put_numbered(out, b" to any port ", port + 1)?;
    Ok(())
}

// Appends the rule of the next seven draws.
#[tactic(auto, unfolding(crate::specs::Draws::after))]
pub(crate) fn put_rule(out: &mut Vec<u8>, number: &mut u32) -> Result<(), NoMemory>
    ensures behind { OnOk result (number.new ≡ after number.old 7) }
    ensures ok { OnOk result (out.new.items ≡ out.old.items ++ rule_text number.old) }
{
    put_action(out, number)?;
    put_source(out, number)?;
    put_port(out, number)?;
    Ok(())
}

// in emE PROTO; the draw of the protocol is handed back.
#[tactic(auto, unfolding(crate::specs::Draws::after, crate::specs::Texts::head_part))]
fn put_head(out: &mut Vec<u8>, number: &mut u32) -> Result<u32, NoMemory>
    ensures behind { number.new ≡ after number.old 2 }
    ensures proto { IfOk result (λ proto. proto ≡ drawn number.old 2 2) }
    ensures ok { OnOk result (out.new.items ≡ out.old.items ++ head_part number.old) }
{
    let interface = draw(number, 4);
    let proto = draw(number, 2);
    put_numbered(out, b"in em", interface)?;
    put(out, b" ")?;
    put(out, proto_word(proto))?;
    Ok(proto)
}

// 10.B.C.H
#[tactic(auto, unfolding(crate::specs::Draws::after, crate::specs::Texts::host_part))]
fn put_host(out: &mut Vec<u8>, number: &mut u32) -> Result<(), NoMemory>
    ensures behind { number.new ≡ after number.old 3 }
    ensures ok { OnOk result (out.new.items ≡ out.old.items ++ host_part number.old) }
{
    let second = draw(number, 256);
    let third = draw(number, 256);
    let host = draw(number, 256);
    put_numbered(out, b" 10.", second)?;
    put_numbered(out, b".", third)?;
    put_numbered(out, b".", host)?;
    Ok(())
}

// 192.0.2.1 sport=1024 dport=D, and flags for TCP.
#[tactic(auto, unfolding(crate::specs::Draws::after, crate::specs::Texts::end_part))]
fn put_end(out: &mut Vec<u8>, number: &mut u32, proto: u32) -> Result<(), NoMemory>
    ensures behind { number.new ≡ after number.old 1 }
    ensures ok { OnOk result (out.new.items ≡ out.old.items ++ end_part number.old proto) }
{
    let port = draw(number, 1_000);
    put_numbered(out, b" 192.0.2.1 sport=1024 dport=", port + 1)?;
    put(out, flags_word(proto))?;
    Ok(())
}

// Appends the record of the next six draws.
#[tactic(auto, unfolding(crate::specs::Draws::after))]
pub(crate) fn put_record(out: &mut Vec<u8>, number: &mut u32) -> Result<(), NoMemory>
    ensures behind { OnOk result (number.new ≡ after number.old 6) }
    ensures ok { OnOk result (out.new.items ≡ out.old.items ++ record_text number.old) }
{
    let proto = put_head(out, number)?;
    put_host(out, number)?;
    put_end(out, number, proto)?;
    Ok(())
}
