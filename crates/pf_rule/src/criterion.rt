//! The tests of single criteria.
ghost use Rattle.std.specs.Prelude.{◌≡◌};
ghost use Rattle.pf_rule.specs.Around.{around_by};
ghost use Rattle.pf_rule.specs.Criteria.{address_holds, direction_holds, family_holds, flags_hold, icmp_holds, in_set, is_tag, is_tcp_or_udp, number_holds, on_interface, same_code, same_number, same_type, tag_passes};

use crate::criteria::{AddrSet, AddrTest, Criteria};
use crate::members::Members;
use crate::packet::Packet;
use crate::protocol::{ICMP, ICMP6, TCP, UDP};
use pf_addr::{Addr, Ifaces};
use pf_base::Name;
use pf_ops::{IcmpType, Op16, Op32};
use pf_parts::{IfTest, TagTest};

pub(crate) fn interface_holds<I: Ifaces>(test: &IfTest, iface: &Name, ifaces: &I) -> bool
    ensures { result ≡ on_interface (I.in_group ifaces.now) test.now iface.now }
{
    match test {
        IfTest::Any => true,
        IfTest::On { name, negated } => ifaces.in_group(name, iface) != *negated,
    }
}

pub(crate) fn direction_holds(criteria: &Criteria, packet: &Packet) -> bool
    ensures { result ≡ direction_holds criteria.now packet.now }
{
    match criteria.direction {
        None => true,
        Some(direction) => direction == packet.direction,
    }
}

pub(crate) fn family_holds(criteria: &Criteria, packet: &Packet) -> bool
    ensures { result ≡ family_holds criteria.now packet.now }
{
    match criteria.family {
        None => true,
        Some(family) => packet.source.is_of(family),
    }
}

// The number is the given one, or none is given.
pub(crate) fn same_number(given: Option<u8>, number: u8) -> bool
    ensures { result ≡ same_number given number }
{
    match given {
        None => true,
        Some(value) => value == number,
    }
}

pub(crate) fn address_holds<M: Members, I: Ifaces>(
    test: &AddrTest,
    addr: &Addr,
    members: &M,
    ifaces: &I,
) -> bool
    ensures { result ≡ address_holds (around_by (M.member members.now) (I.in_group ifaces.now) (I.dynamic ifaces.now)) test.now addr.now }
{
    match test {
        AddrTest::Any => true,
        AddrTest::Test { negated, what } => in_set(what, addr, members, ifaces) != *negated,
    }
}

fn in_set<M: Members, I: Ifaces>(what: &AddrSet, addr: &Addr, members: &M, ifaces: &I) -> bool
    ensures { result ≡ in_set (around_by (M.member members.now) (I.in_group ifaces.now) (I.dynamic ifaces.now)) what.now addr.now }
{
    match what {
        AddrSet::Prefix(prefix) => prefix.contains(addr),
        AddrSet::Range(range) => range.contains(addr),
        AddrSet::Dynamic(dynamic) => ifaces.dynamic(dynamic, addr),
        AddrSet::Table(_) | AddrSet::Auto(_) => members.member(what, addr),
    }
}

pub(crate) fn has_ports(packet: &Packet) -> bool
    ensures { result ≡ is_tcp_or_udp packet.now.proto }
{
    packet.proto == TCP || packet.proto == UDP
}

pub(crate) fn port_holds(test: &Option<Op16>, packet: &Packet, port: Option<u16>) -> bool
    ensures { result ≡ number_holds test.now packet.now port }
{
    match (test, port) {
        (None, _) => true,
        (Some(_), None) => false,
        (Some(set), Some(port)) => has_ports(packet) && set.holds(port),
    }
}

pub(crate) fn owner_holds(test: &Option<Op32>, packet: &Packet, owner: Option<u32>) -> bool
    ensures { result ≡ number_holds test.now packet.now owner }
{
    match (test, owner) {
        (None, _) => true,
        (Some(_), None) => false,
        (Some(set), Some(owner)) => has_ports(packet) && set.holds(owner),
    }
}

pub(crate) fn flags_hold(criteria: &Criteria, packet: &Packet) -> bool
    ensures { result ≡ flags_hold criteria.now packet.now }
{
    match criteria.flags {
        None => true,
        Some(flags) => packet.proto != TCP || packet.flags & flags.mask == flags.set,
    }
}

pub(crate) fn icmp_holds(criteria: &Criteria, packet: &Packet) -> bool
    ensures { result ≡ icmp_holds criteria.now packet.now }
{
    match &criteria.icmp {
        None => true,
        Some(test) => { (packet.proto == ICMP || packet.proto == ICMP6) && same_type(test, packet) }
    }
}

fn same_type(test: &IcmpType, packet: &Packet) -> bool
    ensures { result ≡ same_type test.now packet.now }
{
    match packet.icmp_type {
        None => false,
        Some(kind) => kind == test.kind && same_code(test.code, packet.icmp_code),
    }
}

fn same_code(given: Option<u8>, code: Option<u8>) -> bool
    ensures { result ≡ same_code given code }
{
    match (given, code) {
        (None, _) => true,
        (Some(_), None) => false,
        (Some(given), Some(code)) => given == code,
    }
}

pub(crate) fn tag_passes(test: &TagTest, tag: &Option<Name>) -> bool
    ensures { result ≡ tag_passes test.now tag.now }
{
    match test {
        TagTest::Any => true,
        TagTest::Is { name, negated } => is_tag(tag, name) != *negated,
    }
}

fn is_tag(tag: &Option<Name>, name: &Name) -> bool
    ensures { result ≡ is_tag tag.now name.now }
{
    match tag {
        None => false,
        Some(known) => known == name,
    }
}
