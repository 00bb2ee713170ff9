//! The texts of what a rule tests (pf.conf(5), PARAMETERS).
ghost use Rattle.std.specs.Prelude.{◌≡◌, ◌++◌, OnOk, codes};
ghost use Rattle.std.specs.Option.{option_map};
ghost use Rattle.pf_ops.specs.Words.{letters_of};
ghost use Rattle.pf_parts.specs.Appending.{Extends};
ghost use Rattle.pf_parts.specs.ParamText.{log_text};
ghost use Rattle.pf_parts.specs.Parts.{spaced, with_number, word_if};
ghost use Rattle.pf_print.specs.RuleText as says;

use crate::host::{put_hosts, put_if};
use crate::set::put_ids;
use pf_base::{Family, NoMemory};
use pf_ops::{IcmpType, Op32, TcpFlags, proto_name, put_flags};
use pf_parts::{
    Direction, IfTest, StateKind, TagTest, put, put_log, put_named, put_numbered, put_tos,
};
use pf_rule::{Action, Criteria, Effect, Rule, TCP};

fn put_direction(out: &mut Vec<u8>, direction: Option<Direction>) -> Result<(), NoMemory>
    ensures ok { OnOk result (out.new.items ≡ out.old.items ++ spaced (option_map says.direction_text direction)) }
    ensures kept { Extends out.old.items out.new.items }
{
    match direction {
        None => {}
        Some(Direction::In) => put(out, b" in")?,
        Some(Direction::Out) => put(out, b" out")?,
    }
    Ok(())
}

fn put_quick(out: &mut Vec<u8>, quick: bool) -> Result<(), NoMemory>
    ensures ok { OnOk result (out.new.items ≡ out.old.items ++ spaced (word_if quick (codes "quick"))) }
    ensures kept { Extends out.old.items out.new.items }
{
    put_if(out, quick, b" quick")
}

fn put_iface(out: &mut Vec<u8>, test: &IfTest) -> Result<(), NoMemory>
    ensures ok { OnOk result (out.new.items ≡ out.old.items ++ spaced (says.iface_text test.now)) }
    ensures kept { Extends out.old.items out.new.items }
{
    if let IfTest::On { name, negated } = test {
        put(out, b" on ")?;
        put_if(out, *negated, b"! ")?;
        put_named(out, b"", name)?;
    }
    Ok(())
}

fn put_family(out: &mut Vec<u8>, family: Option<Family>) -> Result<(), NoMemory>
    ensures ok { OnOk result (out.new.items ≡ out.old.items ++ spaced (option_map says.family_text family)) }
    ensures kept { Extends out.old.items out.new.items }
{
    match family {
        None => {}
        Some(Family::Inet) => put(out, b" inet")?,
        Some(Family::Inet6) => put(out, b" inet6")?,
    }
    Ok(())
}

// A protocol by its name, or by its number where it has none.
#[tactic(auto, unfolding(crate::specs::RuleText::proto_text))]
fn put_number_of_proto(out: &mut Vec<u8>, number: u8) -> Result<(), NoMemory>
    ensures ok { OnOk result (out.new.items ≡ out.old.items ++ says.proto_text number) }
    ensures kept { Extends out.old.items out.new.items }
{
    put(out, b"proto ")?;
    match proto_name(number) {
        Some(name) => put(out, name.bytes())?,
        None => put_numbered(out, b"", u32::from(number))?,
    }
    Ok(())
}

fn put_proto(out: &mut Vec<u8>, proto: Option<u8>) -> Result<(), NoMemory>
    ensures ok { OnOk result (out.new.items ≡ out.old.items ++ spaced (option_map says.proto_text proto)) }
    ensures kept { Extends out.old.items out.new.items }
{
    if let Some(number) = proto {
        put(out, b" ")?;
        put_number_of_proto(out, number)?;
    }
    Ok(())
}

// What stands between the head and the interface.
fn put_way(out: &mut Vec<u8>, rule: &Rule) -> Result<(), NoMemory>
    ensures ok { OnOk result (out.new.items ≡ out.old.items ++ (spaced (option_map says.direction_text rule.now.criteria.direction)
        ++ spaced (log_text rule.now.effect.params.log) ++ spaced (word_if rule.now.effect.quick (codes "quick")))) }
    ensures kept { Extends out.old.items out.new.items }
{
    put_direction(out, rule.criteria.direction)?;
    put_log(out, &rule.effect.params.log)?;
    put_quick(out, rule.effect.quick)?;
    Ok(())
}

// The interface, the family and the protocol.
fn put_kind(out: &mut Vec<u8>, criteria: &Criteria) -> Result<(), NoMemory>
    ensures ok { OnOk result (out.new.items ≡ out.old.items ++ (spaced (says.iface_text criteria.now.iface)
        ++ spaced (option_map says.family_text criteria.now.family) ++ spaced (option_map says.proto_text criteria.now.proto))) }
    ensures kept { Extends out.old.items out.new.items }
{
    put_iface(out, &criteria.iface)?;
    put_family(out, criteria.family)?;
    put_proto(out, criteria.proto)?;
    Ok(())
}

/// Appends what stands between the head of a rule and its hosts.
pub(crate) fn put_front(out: &mut Vec<u8>, rule: &Rule) -> Result<(), NoMemory>
    ensures ok { OnOk result (out.new.items ≡ out.old.items ++ says.parts_text (says.front_parts rule.now)) }
    ensures kept { Extends out.old.items out.new.items }
{
    put_way(out, rule)?;
    put_kind(out, &rule.criteria)?;
    Ok(())
}

// A word and a set of users or groups.
fn put_id_test(out: &mut Vec<u8>, word: &[u8], ids: &Option<Op32>) -> Result<(), NoMemory>
    ensures ok { OnOk result (out.new.items ≡ out.old.items ++ spaced (option_map (says.ids_text word.now) ids.now)) }
    ensures kept { Extends out.old.items out.new.items }
{
    if let Some(ids) = ids {
        put(out, b" ")?;
        put(out, word)?;
        put_ids(out, ids)?;
    }
    Ok(())
}

fn put_letters(out: &mut Vec<u8>, bits: u8) -> Result<(), NoMemory>
    ensures ok { OnOk result (out.new.items ≡ out.old.items ++ letters_of bits) }
    ensures kept { Extends out.old.items out.new.items }
{
    put_flags(out, bits)
}

fn put_tested_flags(out: &mut Vec<u8>, flags: TcpFlags) -> Result<(), NoMemory>
    ensures ok { OnOk result (out.new.items ≡ out.old.items ++ says.tested_flags_text flags) }
    ensures kept { Extends out.old.items out.new.items }
{
    put(out, b"flags ")?;
    put_letters(out, flags.set)?;
    put(out, b"/")?;
    put_letters(out, flags.mask)?;
    Ok(())
}

fn makes_state(state: StateKind) -> bool
    ensures { result ≡ says.makes_state state }
{
    !matches!(state, StateKind::None)
}

fn is_tcp_or_any(proto: Option<u8>) -> bool
    ensures { result ≡ says.is_tcp_or_any proto }
{
    match proto {
        None => true,
        Some(number) => number == TCP,
    }
}

/// Whether packets pass by it.
pub(crate) fn is_pass(action: &Action) -> bool
    ensures { result ≡ says.is_pass action.now }
{
    matches!(action, Action::Pass)
}

// Whether the rule would be read with `flags S/SA` where it has no flags.
fn needs_flags(criteria: &Criteria, effect: &Effect) -> bool
    ensures { result ≡ says.needs_flags criteria.now effect.now }
{
    is_pass(&effect.action) && makes_state(effect.state) && is_tcp_or_any(criteria.proto)
}

fn put_flags_test(out: &mut Vec<u8>, flags: Option<TcpFlags>, needs: bool) -> Result<(), NoMemory>
    ensures ok { OnOk result (out.new.items ≡ out.old.items ++ spaced (says.flags_or_any flags needs)) }
    ensures kept { Extends out.old.items out.new.items }
{
    match flags {
        Some(flags) => {
            put(out, b" ")?;
            put_tested_flags(out, flags)?;
        }
        None => put_if(out, needs, b" flags any")?,
    }
    Ok(())
}

fn icmp_word(family: Family) -> &'static [u8]
    ensures { result.now ≡ says.icmp_word family }
{
    match family {
        Family::Inet => b"icmp-type ",
        Family::Inet6 => b"icmp6-type ",
    }
}

fn put_code(out: &mut Vec<u8>, code: Option<u8>) -> Result<(), NoMemory>
    ensures ok { OnOk result (out.new.items ≡ out.old.items ++ says.code_text code) }
    ensures kept { Extends out.old.items out.new.items }
{
    if let Some(code) = code {
        put_numbered(out, b" code ", u32::from(code))?;
    }
    Ok(())
}

#[tactic(auto, unfolding(crate::specs::RuleText::icmp_text))]
fn put_icmp_type(out: &mut Vec<u8>, icmp: &IcmpType) -> Result<(), NoMemory>
    ensures ok { OnOk result (out.new.items ≡ out.old.items ++ says.icmp_text icmp.now) }
    ensures kept { Extends out.old.items out.new.items }
{
    put_numbered(out, icmp_word(icmp.family), u32::from(icmp.kind))?;
    put_code(out, icmp.code)?;
    Ok(())
}

fn put_icmp(out: &mut Vec<u8>, icmp: &Option<IcmpType>) -> Result<(), NoMemory>
    ensures ok { OnOk result (out.new.items ≡ out.old.items ++ spaced (option_map says.icmp_text icmp.now)) }
    ensures kept { Extends out.old.items out.new.items }
{
    if let Some(icmp) = icmp {
        put(out, b" ")?;
        put_icmp_type(out, icmp)?;
    }
    Ok(())
}

fn put_prio_test(out: &mut Vec<u8>, prio: Option<u8>) -> Result<(), NoMemory>
    ensures ok { OnOk result (out.new.items ≡ out.old.items ++ spaced (with_number (codes "prio") prio)) }
    ensures kept { Extends out.old.items out.new.items }
{
    if let Some(prio) = prio {
        put_numbered(out, b" prio ", u32::from(prio))?;
    }
    Ok(())
}

fn put_tagged(out: &mut Vec<u8>, test: &TagTest) -> Result<(), NoMemory>
    ensures ok { OnOk result (out.new.items ≡ out.old.items ++ spaced (says.tagged_text test.now)) }
    ensures kept { Extends out.old.items out.new.items }
{
    if let TagTest::Is { name, negated } = test {
        put(out, b" ")?;
        put_if(out, *negated, b"! ")?;
        put_named(out, b"tagged ", name)?;
    }
    Ok(())
}

/// Appends the hosts of a rule, and the users and groups.
pub(crate) fn put_ends(out: &mut Vec<u8>, criteria: &Criteria) -> Result<(), NoMemory>
    ensures ok { OnOk result (out.new.items ≡ out.old.items ++ says.parts_text (says.end_parts criteria.now)) }
    ensures kept { Extends out.old.items out.new.items }
{
    put(out, b" ")?;
    put_hosts(out, criteria)?;
    put_id_test(out, b"user ", &criteria.user)?;
    put_id_test(out, b"group ", &criteria.group)?;
    Ok(())
}

// The flags and the ICMP type.
fn put_header(out: &mut Vec<u8>, criteria: &Criteria, effect: &Effect) -> Result<(), NoMemory>
    ensures ok { OnOk result (out.new.items ≡ out.old.items ++ (spaced (says.flags_text criteria.now effect.now) ++ spaced (option_map says.icmp_text criteria.now.icmp))) }
    ensures kept { Extends out.old.items out.new.items }
{
    put_flags_test(out, criteria.flags, needs_flags(criteria, effect))?;
    put_icmp(out, &criteria.icmp)?;
    Ok(())
}

// The type of service, the priority and the tag.
fn put_levels(out: &mut Vec<u8>, criteria: &Criteria) -> Result<(), NoMemory>
    ensures ok { OnOk result (out.new.items ≡ out.old.items ++ (spaced (with_number (codes "tos") criteria.now.tos)
        ++ spaced (with_number (codes "prio") criteria.now.prio) ++ spaced (says.tagged_text criteria.now.tagged))) }
    ensures kept { Extends out.old.items out.new.items }
{
    put_tos(out, criteria.tos)?;
    put_prio_test(out, criteria.prio)?;
    put_tagged(out, &criteria.tagged)?;
    Ok(())
}

/// Appends what else a rule tests.
pub(crate) fn put_marks(
    out: &mut Vec<u8>,
    criteria: &Criteria,
    effect: &Effect,
) -> Result<(), NoMemory>
    ensures ok { OnOk result (out.new.items ≡ out.old.items ++ says.parts_text (says.mark_parts criteria.now effect.now)) }
    ensures kept { Extends out.old.items out.new.items }
{
    put_header(out, criteria, effect)?;
    put_levels(out, criteria)?;
    Ok(())
}
