//! What the words of a statement mean.
ghost use Rattle.std.specs.Prelude.{◌≡◌, ◌++◌, true, OnOk, IfOk, Some, None};
ghost use Rattle.std.specs.List.{filter_map};
ghost use Rattle.pf_word.specs.Hosts.{HostsMean};
ghost use Rattle.pf_word.specs.Kinds.{icmps, protos};
ghost use Rattle.pf_word.specs.Numbers.{id_tests, port_tests};
ghost use Rattle.pf_word.specs.declared.number.IdKind.TheVariants as ids;
ghost use Rattle.pf_expand.specs.Expansion.{HasWords, translation_has_words};
ghost use Rattle.pf_expand.specs.Readings as says;
ghost use Rattle.pf_expand.specs.Readings.{AreReadings, TranslationMeans, iface_faults, in_order, unknown_name, word_faults};

use crate::order::Order;
use pf_base::{FaultKind, List, NoMemory};
use pf_form::{Head, RuleForm};
use pf_host::Facts;
use pf_ops::{IcmpType, Op16, Op32};
use pf_parts::IfTest;
use pf_rule::{AddrTest, Target};
use pf_syntax::TargetWords;
use pf_word::{
    IdKind, Words, read_hosts, read_icmp, read_ids, read_ports, read_protos, read_target,
};
use std::alloc::Global;

/// What the words of each list of a statement mean, and of its translations.
#[derive(Debug, Drop)]
pub struct Readings {
    pub protos: Words<u8>,
    pub icmp: Words<IcmpType>,
    pub sources: Words<AddrTest>,
    pub source_ports: Words<Op16>,
    pub targets: Words<AddrTest>,
    pub target_ports: Words<Op16>,
    pub users: Words<Op32>,
    pub groups: Words<Op32>,
    pub nat: Words<Target>,
    pub rdr: Words<Target>,
}

// What a translation means, where one is written.
fn read_translation(
    alloc: Global,
    target: &Option<TargetWords>,
    facts: &Facts,
) -> Result<Words<Target>, NoMemory>
    requires { translation_has_words target.now ≡ true }
    ensures { IfOk result (TranslationMeans facts.now target.now) }
{
    match target {
        None => Ok(Words::new(alloc)),
        Some(target) => read_target(alloc, target, facts),
    }
}

// What the words of protocols, ICMP types, users and groups mean.
#[derive(Drop)]
struct Kinds {
    protos: Words<u8>,
    icmp: Words<IcmpType>,
    users: Words<Op32>,
    groups: Words<Op32>,
}

// What the words of `from` and `to` mean.
#[derive(Drop)]
struct Ends {
    sources: Words<AddrTest>,
    source_ports: Words<Op16>,
    targets: Words<AddrTest>,
    target_ports: Words<Op16>,
}

// What the words of the translations mean.
#[derive(Drop)]
struct Translations {
    nat: Words<Target>,
    rdr: Words<Target>,
}

fn read_kinds(alloc: Global, form: &RuleForm, facts: &Facts) -> Result<Kinds, NoMemory>
    requires { HasWords form.now }
    ensures { IfOk result (λ kinds. (kinds.protos ≡ protos form.now.protos) × ((kinds.icmp ≡ icmps form.now.icmp)
        × ((kinds.users ≡ id_tests facts.now ids.User form.now.users) × (kinds.groups ≡ id_tests facts.now ids.Group form.now.groups)))) }
{
    let protos = read_protos(alloc, form.protos.items())?;
    let icmp = read_icmp(alloc, form.icmp.items())?;
    let users = read_ids(alloc, form.users.items(), IdKind::User, facts)?;
    let groups = read_ids(alloc, form.groups.items(), IdKind::Group, facts)?;
    Ok(Kinds {
        protos,
        icmp,
        users,
        groups,
    })
}

fn read_ends(alloc: Global, form: &RuleForm, facts: &Facts) -> Result<Ends, NoMemory>
    requires { HasWords form.now }
    ensures { IfOk result (λ ends. HostsMean facts.now form.now.sources ends.sources × ((ends.source_ports ≡ port_tests facts.now form.now.source_ports)
        × (HostsMean facts.now form.now.targets ends.targets × (ends.target_ports ≡ port_tests facts.now form.now.target_ports)))) }
{
    let sources = read_hosts(alloc, form.sources.items(), facts)?;
    let source_ports = read_ports(alloc, form.source_ports.items(), facts)?;
    let targets = read_hosts(alloc, form.targets.items(), facts)?;
    let target_ports = read_ports(alloc, form.target_ports.items(), facts)?;
    Ok(Ends {
        sources,
        source_ports,
        targets,
        target_ports,
    })
}

fn read_translations(
    alloc: Global,
    form: &RuleForm,
    facts: &Facts,
) -> Result<Translations, NoMemory>
    requires { HasWords form.now }
    ensures { IfOk result (λ words. TranslationMeans facts.now form.now.nat words.nat × TranslationMeans facts.now form.now.rdr words.rdr) }
{
    let nat = read_translation(alloc, &form.nat, facts)?;
    let rdr = read_translation(alloc, &form.rdr, facts)?;
    Ok(Translations { nat, rdr })
}

// What all words of a form mean.
pub(crate) fn read_words(
    alloc: Global,
    form: &RuleForm,
    facts: &Facts,
) -> Result<Readings, NoMemory>
    requires { HasWords form.now }
    ensures { IfOk result (AreReadings facts.now form.now) }
{
    let translations = read_translations(alloc, form, facts)?;
    let kinds = read_kinds(alloc, form, facts)?;
    let ends = read_ends(alloc, form, facts)?;
    Ok(Readings {
        protos: kinds.protos,
        icmp: kinds.icmp,
        sources: ends.sources,
        source_ports: ends.source_ports,
        targets: ends.targets,
        target_ports: ends.target_ports,
        users: kinds.users,
        groups: kinds.groups,
        nat: translations.nat,
        rdr: translations.rdr,
    })
}

// The fault of a name of `antispoof for`.
fn unknown_name(facts: &Facts, test: &IfTest) -> Option<FaultKind>
    ensures { result ≡ says.unknown_name facts.now test.now }
{
    match test {
        IfTest::Any => None,
        IfTest::On { name, negated: _ } => {
            if facts.knows(name) {
                None
            } else {
                Some(FaultKind::UnknownInterface(*name))
            }
        }
    }
}

// Adds the faults of the names of `antispoof for`.
fn add_unknown_names(
    faults: &mut List<FaultKind>,
    facts: &Facts,
    tests: &[IfTest],
) -> Result<(), NoMemory>
    ensures { OnOk result (faults.new ≡ faults.old ++ filter_map (unknown_name facts.now) tests.now) }
{
    for test in tests {
        let Some(fault) = unknown_name(facts, test) else {
            continue;
        };
        faults.push_copy(&fault)?;
    }
    Ok(())
}

// Adds the faults of the interfaces.
fn add_iface_faults(
    faults: &mut List<FaultKind>,
    facts: &Facts,
    form: &RuleForm,
) -> Result<(), NoMemory>
    ensures { OnOk result (faults.new ≡ faults.old ++ iface_faults facts.now form.now.head form.now.ifaces) }
{
    match &form.head {
        Head::Antispoof => add_unknown_names(faults, facts, form.ifaces.items()),
        Head::Pass | Head::Block(_) | Head::Match => Ok(()),
        Head::Anchor { .. } | Head::LoadAnchor { .. } => Ok(()),
    }
}

// Adds the faults of two options, in the order in which they stand.
fn add_in_order(
    faults: &mut List<FaultKind>,
    second_first: bool,
    first: &[FaultKind],
    second: &[FaultKind],
) -> Result<(), NoMemory>
    ensures { OnOk result (faults.new ≡ faults.old ++ in_order second_first first.now second.now) }
{
    if second_first {
        faults.append_copy(second)?;
        faults.append_copy(first)
    } else {
        faults.append_copy(first)?;
        faults.append_copy(second)
    }
}

// The faults of all words, in the order of the words.
pub(crate) fn faults_of_words(
    alloc: Global,
    form: &RuleForm,
    order: Order,
    facts: &Facts,
    read: &Readings,
) -> Result<List<FaultKind>, NoMemory>
    ensures { IfOk result (λ faults. faults ≡ word_faults facts.now order form.now read.now) }
{
    let mut faults = List::new(alloc);
    add_iface_faults(&mut faults, facts, form)?;
    faults.append_copy(read.protos.faults.items())?;
    faults.append_copy(read.sources.faults.items())?;
    faults.append_copy(read.source_ports.faults.items())?;
    faults.append_copy(read.targets.faults.items())?;
    faults.append_copy(read.target_ports.faults.items())?;
    faults.append_copy(read.icmp.faults.items())?;
    add_in_order(
        &mut faults,
        order.group_first,
        read.users.faults.items(),
        read.groups.faults.items(),
    )?;
    add_in_order(
        &mut faults,
        order.rdr_first,
        read.nat.faults.items(),
        read.rdr.faults.items(),
    )?;
    Ok(faults)
}
