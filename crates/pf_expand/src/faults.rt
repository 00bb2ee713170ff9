//! The faults of a statement, each kind by itself.
ghost use Rattle.std.specs.Prelude.{◌≡◌, ◌&&◌, ◌==◌, not};
ghost use Rattle.std.specs.List.{list_all, list_any};
ghost use Rattle.pf_rule.specs.Criteria.{is_tcp_or_udp};
ghost use Rattle.pf_expand.specs.Faults as says;
ghost use Rattle.pf_expand.specs.Faults.{faults_of, first_some, protocol_faults, name_faults};

use pf_base::{Family, FaultKind};
use pf_form::{FlagsForm, Head, RuleForm};
use pf_parts::{BlockKind, Overload};
use pf_rule::{ICMP, ICMP6, TCP, UDP};
use pf_syntax::{HostForm, HostItem, IcmpItem, TargetWords};
use pf_word::is_table_name;

/// The kinds of faults of words.
#[derive(Clone, Copy, Debug, PartialEq, Eq)]
pub enum WordFault {
    NotAnAddress,
    MaskTooLong,
    FamilyMismatch,
    UnknownInterface,
    UnknownService,
    UnknownProto,
    BadPort,
    BadIcmpType,
    UnknownUser,
}

// Whether the fault is of this kind.
fn is_of(kind: WordFault, fault: &FaultKind) -> bool
    ensures { result ≡ says.is_of kind fault.now }
{
    match kind {
        WordFault::NotAnAddress => matches!(fault, FaultKind::NotAnAddress(_)),
        WordFault::MaskTooLong => matches!(fault, FaultKind::MaskTooLong(_)),
        WordFault::FamilyMismatch => matches!(fault, FaultKind::FamilyMismatch),
        WordFault::UnknownInterface => matches!(fault, FaultKind::UnknownInterface(_)),
        WordFault::UnknownService => matches!(fault, FaultKind::UnknownService(_)),
        WordFault::UnknownProto => matches!(fault, FaultKind::UnknownProto(_)),
        WordFault::BadPort => matches!(fault, FaultKind::BadPort),
        WordFault::BadIcmpType => matches!(fault, FaultKind::BadIcmpType),
        WordFault::UnknownUser => matches!(fault, FaultKind::UnknownUser(_)),
    }
}

// The first word with a fault of this kind.
fn of_word(kind: WordFault, faults: &[FaultKind]) -> Option<FaultKind>
    ensures { result ≡ says.of_word kind faults.now }
{
    for fault in faults {
        if is_of(kind, fault) {
            return Some(*fault);
        }
    }
    None
}

fn not_an_address(faults: &[FaultKind]) -> Option<FaultKind>
    ensures { result ≡ says.not_an_address faults.now }
{
    of_word(WordFault::NotAnAddress, faults)
}

fn mask_too_long(faults: &[FaultKind]) -> Option<FaultKind>
    ensures { result ≡ says.mask_too_long faults.now }
{
    of_word(WordFault::MaskTooLong, faults)
}

fn family_mismatch(faults: &[FaultKind]) -> Option<FaultKind>
    ensures { result ≡ says.family_mismatch faults.now }
{
    of_word(WordFault::FamilyMismatch, faults)
}

fn unknown_interface(faults: &[FaultKind]) -> Option<FaultKind>
    ensures { result ≡ says.unknown_interface faults.now }
{
    of_word(WordFault::UnknownInterface, faults)
}

fn unknown_service(faults: &[FaultKind]) -> Option<FaultKind>
    ensures { result ≡ says.unknown_service faults.now }
{
    of_word(WordFault::UnknownService, faults)
}

fn unknown_proto(faults: &[FaultKind]) -> Option<FaultKind>
    ensures { result ≡ says.unknown_proto faults.now }
{
    of_word(WordFault::UnknownProto, faults)
}

fn bad_port(faults: &[FaultKind]) -> Option<FaultKind>
    ensures { result ≡ says.bad_port faults.now }
{
    of_word(WordFault::BadPort, faults)
}

fn bad_icmp_type(faults: &[FaultKind]) -> Option<FaultKind>
    ensures { result ≡ says.bad_icmp_type faults.now }
{
    of_word(WordFault::BadIcmpType, faults)
}

fn unknown_user(faults: &[FaultKind]) -> Option<FaultKind>
    ensures { result ≡ says.unknown_user faults.now }
{
    of_word(WordFault::UnknownUser, faults)
}

// No combination is left, though every word has a meaning.
fn no_combination(faults: &[FaultKind], is_none: bool) -> Option<FaultKind>
    ensures { result ≡ says.no_combination faults.now is_none }
{
    if faults.is_empty() && is_none {
        Some(FaultKind::NoCombination)
    } else {
        None
    }
}

fn are_tcp_or_udp(protos: &[u8]) -> bool
    ensures { result ≡ list_all is_tcp_or_udp protos.now }
{
    protos.iter().all(|proto| *proto == TCP || *proto == UDP)
}

fn are(protos: &[u8], number: u8) -> bool
    ensures { result ≡ list_all (λ proto. proto == number) protos.now }
{
    protos.iter().all(|proto| *proto == number)
}

fn target_has_port(target: &Option<TargetWords>) -> bool
    ensures { result ≡ says.target_has_port target.now }
{
    match target {
        None => false,
        Some(target) => target.port.is_some(),
    }
}

// Whether a port is tested, or given for a translation.
fn has_ports(form: &RuleForm) -> bool
    ensures { result ≡ says.has_ports form.now }
{
    !form.source_ports.items().is_empty()
        || !form.target_ports.items().is_empty()
        || target_has_port(&form.nat)
        || target_has_port(&form.rdr)
}

// A port without TCP or UDP.
fn port_needs(form: &RuleForm, protos: &[u8]) -> Option<FaultKind>
    ensures { result ≡ says.port_needs form.now protos.now }
{
    if has_ports(form) && !(!protos.is_empty() && are_tcp_or_udp(protos)) {
        Some(FaultKind::PortNeedsTcpUdp)
    } else {
        None
    }
}

fn icmp_proto(family: Family) -> u8
    ensures { result ≡ says.icmp_proto family }
{
    match family {
        Family::Inet => ICMP,
        Family::Inet6 => ICMP6,
    }
}

// Whether the protocol of a family's types isn't the rule's alone.
fn lacks_proto(family: Family, protos: &[u8]) -> bool
    ensures { result ≡ not (says.only_for (λ proto. proto == says.icmp_proto family) protos.now) }
{
    !(!protos.is_empty() && are(protos, icmp_proto(family)))
}

fn by_family(family: Family, inet: bool, inet6: bool) -> bool
    ensures { result ≡ says.by_family family inet inet6 }
{
    match family {
        Family::Inet => inet,
        Family::Inet6 => inet6,
    }
}

// Whether some type is of a family whose types lack their protocol.
fn some_lack(items: &[IcmpItem], inet: bool, inet6: bool) -> bool
    ensures { result ≡ list_any (λ item. says.by_family item.family inet inet6) items.now }
{
    items.iter().any(|item| by_family(item.family, inet, inet6))
}

// Whether some type's protocol isn't the rule's alone.
fn some_lack_proto(items: &[IcmpItem], protos: &[u8]) -> bool
    ensures { result ≡ list_any (λ item. not (says.only_for (λ proto. proto == says.icmp_proto item.family) protos.now)) items.now }
{
    let inet = lacks_proto(Family::Inet, protos);
    let inet6 = lacks_proto(Family::Inet6, protos);
    some_lack(items, inet, inet6)
}

// An ICMP type without ICMP.
fn icmp_needs(items: &[IcmpItem], protos: &[u8]) -> Option<FaultKind>
    ensures { result ≡ says.icmp_needs items.now protos.now }
{
    if some_lack_proto(items, protos) {
        Some(FaultKind::IcmpNeedsProto)
    } else {
        None
    }
}

fn tests_flags(flags: &Option<FlagsForm>) -> bool
    ensures { result ≡ says.tests_flags flags.now }
{
    match flags {
        None => false,
        Some(FlagsForm::Any) => false,
        Some(FlagsForm::Test(_)) => true,
    }
}

// Flags with another protocol than TCP.
fn flags_need(flags: &Option<FlagsForm>, protos: &[u8]) -> Option<FaultKind>
    ensures { result ≡ says.flags_need flags.now protos.now }
{
    if tests_flags(flags) && !are(protos, TCP) {
        Some(FaultKind::FlagsNeedTcp)
    } else {
        None
    }
}

fn is_reset(kind: &Option<BlockKind>) -> bool
    ensures { result ≡ says.is_reset kind.now }
{
    matches!(kind, Some(BlockKind::Rst { .. }))
}

fn resets(head: &Head) -> bool
    ensures { result ≡ says.resets head.now }
{
    match head {
        Head::Block(kind) => is_reset(kind),
        Head::Pass | Head::Match | Head::Antispoof => false,
        Head::Anchor { .. } | Head::LoadAnchor { .. } => false,
    }
}

// `return-rst` without TCP.
fn reset_needs(head: &Head, protos: &[u8]) -> Option<FaultKind>
    ensures { result ≡ says.reset_needs head.now protos.now }
{
    if resets(head) && !(!protos.is_empty() && are(protos, TCP)) {
        Some(FaultKind::RstNeedsTcp)
    } else {
        None
    }
}

fn is_bad_table(host: &HostForm) -> bool
    ensures { result ≡ says.is_bad_table host.now }
{
    match host {
        HostForm::Table(name) => !is_table_name(name),
        HostForm::Any | HostForm::Word { .. } => false,
        HostForm::Range { .. } | HostForm::Dynamic(_) => false,
    }
}

fn have_bad_table(items: &[HostItem]) -> bool
    ensures { result ≡ says.have_bad_table items.now }
{
    items.iter().any(|item| is_bad_table(&item.what))
}

fn is_bad_overload(overload: &Option<Overload>) -> bool
    ensures { result ≡ says.is_bad_overload overload.now }
{
    match overload {
        None => false,
        Some(overload) => !is_table_name(&overload.table),
    }
}

// A name that no table may have.
fn table_name(form: &RuleForm) -> Option<FaultKind>
    ensures { result ≡ says.table_name form.now }
{
    if have_bad_table(form.sources.items())
        || have_bad_table(form.targets.items())
        || is_bad_overload(&form.options.overload)
    {
        Some(FaultKind::TableName)
    } else {
        None
    }
}

// The first fault of the kinds from ICMP on.
fn protocol_fault(form: &RuleForm, protos: &[u8], faults: &[FaultKind]) -> Option<FaultKind>
    ensures { result ≡ first_some (protocol_faults form.now protos.now faults.now) }
{
    icmp_needs(form.icmp.items(), protos)
        .or(bad_icmp_type(faults))
        .or(flags_need(&form.flags, protos))
        .or(unknown_user(faults))
        .or(reset_needs(&form.head, protos))
        .or(table_name(form))
}

// The first fault of the kinds from interfaces on.
fn name_fault(form: &RuleForm, protos: &[u8], faults: &[FaultKind]) -> Option<FaultKind>
    ensures { result ≡ first_some (name_faults form.now protos.now faults.now) }
{
    unknown_interface(faults)
        .or(unknown_service(faults))
        .or(unknown_proto(faults))
        .or(port_needs(form, protos))
        .or(bad_port(faults))
        .or(protocol_fault(form, protos, faults))
}

// The first fault of a statement, of these protocols and these faults of words, of which no combination is left or some.
pub(crate) fn first_fault(
    form: &RuleForm,
    protos: &[u8],
    faults: &[FaultKind],
    is_none: bool,
) -> Option<FaultKind>
    ensures { result ≡ first_some (faults_of form.now protos.now faults.now is_none) }
{
    not_an_address(faults)
        .or(mask_too_long(faults))
        .or(family_mismatch(faults))
        .or(no_combination(faults, is_none))
        .or(name_fault(form, protos, faults))
}
