//! The lists of a statement.
ghost use Rattle.std.specs.Prelude.{◌≡◌, ◌++◌, map, OnOk, IfOk};
ghost use Rattle.std.specs.Option.{option_to_list};
ghost use Rattle.pf_expand.specs.Expansion as says;
ghost use Rattle.pf_combine.specs.declared.member.Member.TheVariants as members;

use crate::readings::Readings;
use pf_base::{Family, List, NoMemory};
use pf_combine::Member;
use pf_form::RuleForm;
use pf_ops::{IcmpType, Op16, Op32};
use pf_parts::IfTest;
use pf_rule::{AddrTest, Target};
use std::alloc::Global;

fn ifaces(alloc: Global, values: &[IfTest]) -> Result<List<Member>, NoMemory>
    ensures { IfOk result (λ list. list ≡ map members.Iface values.now) }
{
    let mut list = List::new(alloc);
    for value in values {
        list.push_copy(&Member::Iface(*value))?;
    }
    Ok(list)
}

fn protos(alloc: Global, values: &[u8]) -> Result<List<Member>, NoMemory>
    ensures { IfOk result (λ list. list ≡ map members.Proto values.now) }
{
    let mut list = List::new(alloc);
    for value in values {
        list.push_copy(&Member::Proto(*value))?;
    }
    Ok(list)
}

fn icmp(alloc: Global, values: &[IcmpType]) -> Result<List<Member>, NoMemory>
    ensures { IfOk result (λ list. list ≡ map members.Icmp values.now) }
{
    let mut list = List::new(alloc);
    for value in values {
        list.push_copy(&Member::Icmp(*value))?;
    }
    Ok(list)
}

fn sources(alloc: Global, values: &[AddrTest]) -> Result<List<Member>, NoMemory>
    ensures { IfOk result (λ list. list ≡ map members.Source values.now) }
{
    let mut list = List::new(alloc);
    for value in values {
        list.push_copy(&Member::Source(*value))?;
    }
    Ok(list)
}

fn source_ports(alloc: Global, values: &[Op16]) -> Result<List<Member>, NoMemory>
    ensures { IfOk result (λ list. list ≡ map members.SourcePort values.now) }
{
    let mut list = List::new(alloc);
    for value in values {
        list.push_copy(&Member::SourcePort(*value))?;
    }
    Ok(list)
}

fn targets(alloc: Global, values: &[AddrTest]) -> Result<List<Member>, NoMemory>
    ensures { IfOk result (λ list. list ≡ map members.Target values.now) }
{
    let mut list = List::new(alloc);
    for value in values {
        list.push_copy(&Member::Target(*value))?;
    }
    Ok(list)
}

fn target_ports(alloc: Global, values: &[Op16]) -> Result<List<Member>, NoMemory>
    ensures { IfOk result (λ list. list ≡ map members.TargetPort values.now) }
{
    let mut list = List::new(alloc);
    for value in values {
        list.push_copy(&Member::TargetPort(*value))?;
    }
    Ok(list)
}

fn users(alloc: Global, values: &[Op32]) -> Result<List<Member>, NoMemory>
    ensures { IfOk result (λ list. list ≡ map members.User values.now) }
{
    let mut list = List::new(alloc);
    for value in values {
        list.push_copy(&Member::User(*value))?;
    }
    Ok(list)
}

fn groups(alloc: Global, values: &[Op32]) -> Result<List<Member>, NoMemory>
    ensures { IfOk result (λ list. list ≡ map members.Group values.now) }
{
    let mut list = List::new(alloc);
    for value in values {
        list.push_copy(&Member::Group(*value))?;
    }
    Ok(list)
}

// Adds a list, where it is written with these items.
fn add_if<I>(
    lists: &mut List<List<Member>>,
    items: &[I],
    list: List<Member>,
) -> Result<(), NoMemory>
    ensures { OnOk result (lists.new ≡ lists.old ++ says.list_if items.now list) }
{
    if items.is_empty() {
        Ok(())
    } else {
        lists.push(list)
    }
}

/// The lists of a statement, in the order of their nesting.
pub(crate) fn lists_of(
    alloc: Global,
    form: &RuleForm,
    read: &Readings,
) -> Result<List<List<Member>>, NoMemory>
    ensures { IfOk result (λ lists. lists ≡ says.lists_of form.now read.now) }
{
    let mut lists = List::new(alloc);
    add_if(
        &mut lists,
        form.ifaces.items(),
        ifaces(alloc, form.ifaces.items())?,
    )?;
    add_if(
        &mut lists,
        form.protos.items(),
        protos(alloc, read.protos.values.items())?,
    )?;
    add_if(
        &mut lists,
        form.icmp.items(),
        icmp(alloc, read.icmp.values.items())?,
    )?;
    add_if(
        &mut lists,
        form.sources.items(),
        sources(alloc, read.sources.values.items())?,
    )?;
    add_if(
        &mut lists,
        form.source_ports.items(),
        source_ports(alloc, read.source_ports.values.items())?,
    )?;
    add_if(
        &mut lists,
        form.targets.items(),
        targets(alloc, read.targets.values.items())?,
    )?;
    add_if(
        &mut lists,
        form.target_ports.items(),
        target_ports(alloc, read.target_ports.values.items())?,
    )?;
    add_if(
        &mut lists,
        form.users.items(),
        users(alloc, read.users.values.items())?,
    )?;
    add_if(
        &mut lists,
        form.groups.items(),
        groups(alloc, read.groups.values.items())?,
    )?;
    Ok(lists)
}

// The families of targets, behind others.
fn add_families(families: &mut List<Family>, targets: &[Target]) -> Result<(), NoMemory>
    ensures { OnOk result (families.new ≡ families.old ++ map says.target_family targets.now) }
{
    for target in targets {
        families.push(target.addr.family())?;
    }
    Ok(())
}

// The family, where there is one.
fn one_if(alloc: Global, family: Option<Family>) -> Result<List<Family>, NoMemory>
    ensures { IfOk result (λ families. families ≡ option_to_list family) }
{
    match family {
        None => Ok(List::new(alloc)),
        Some(family) => List::one_copy(alloc, &family),
    }
}

/// The families that a statement names as a whole.
pub(crate) fn written_families(
    alloc: Global,
    form: &RuleForm,
    read: &Readings,
) -> Result<List<Family>, NoMemory>
    ensures { IfOk result (λ families. families ≡ says.written_families form.now read.now) }
{
    let mut families = one_if(alloc, form.family)?;
    add_families(&mut families, read.nat.values.items())?;
    add_families(&mut families, read.rdr.values.items())?;
    Ok(families)
}
