//! The test of one rule.
ghost use Rattle.std.specs.Prelude.{◌≡◌, ◌+◌};
ghost use Rattle.pf_rule.specs.Around.{around_by};
ghost use Rattle.pf_rule.specs.Hit.{Finds, all_hold, failing_field, other_tests};

use crate::criteria::Criteria;
use crate::criterion::{
    address_holds, direction_holds, family_holds, flags_hold, icmp_holds, interface_holds,
    owner_holds, port_holds, same_number, tag_passes,
};
use crate::members::Members;
use crate::packet::Packet;
use crate::rule::Rule;
use crate::walk::Walk;
use pf_addr::Ifaces;
use pf_base::{Ledger, Steps};

/// What the test of a rule finds.
#[derive(Clone, Copy, Debug, PartialEq, Eq)]
pub enum Tested {
    /// All criteria hold.
    Hit,
    /// The number of the first of the eight skip fields whose test fails: 0 interface, 1 direction,
    /// 2 family, 3 protocol, 4 source address, 5 source port, 6 target address, 7 target port.
    Field(u8),
    /// The tests of the skip fields hold, and another criterion fails.
    Other,
}

// The numbers of the skip fields.
const INTERFACE: u8 = 0;

const DIRECTION: u8 = 1;

const FAMILY: u8 = 2;

const PROTOCOL: u8 = 3;

const SOURCE: u8 = 4;

const SOURCE_PORT: u8 = 5;

const TARGET: u8 = 6;

const TARGET_PORT: u8 = 7;

/// Tests a rule at a walk, which is counted (pf.conf(5), PARAMETERS).
#[tactic(auto, using(crate::proofs::Founds::finds_field, crate::proofs::Founds::finds_hit, crate::proofs::Founds::finds_other))]
pub fn hit<M: Members, I: Ifaces, L: Ledger>(
    rule: &Rule,
    walk: &Walk,
    members: &M,
    ifaces: &I,
    steps: &mut Steps<L>,
) -> Tested
    ensures found { let around = around_by (M.member members.now) (I.in_group ifaces.now) (I.dynamic ifaces.now) in
        Finds around rule.now walk.now result }
    ensures counted { steps.new ≡ steps.old + 1 }
{
    steps.tick();
    match failing_field(&rule.criteria, &walk.packet, members, ifaces) {
        Some(field) => Tested::Field(field),
        None if others_hold(&rule.criteria, walk) => Tested::Hit,
        None => Tested::Other,
    }
}

// The number of the first skip field whose test fails.
#[tactic(auto, using(crate::proofs::Founds::passed, crate::proofs::Founds::failed), unfolding(crate::specs::Hit::failing_field))]
fn failing_field<M: Members, I: Ifaces>(
    criteria: &Criteria,
    packet: &Packet,
    members: &M,
    ifaces: &I,
) -> Option<u8>
    ensures { let around = around_by (M.member members.now) (I.in_group ifaces.now) (I.dynamic ifaces.now) in
        result ≡ failing_field around criteria.now packet.now }
{
    if !interface_holds(&criteria.iface, &packet.iface, ifaces) {
        return Some(INTERFACE);
    }
    if !direction_holds(criteria, packet) {
        return Some(DIRECTION);
    }
    if !family_holds(criteria, packet) {
        return Some(FAMILY);
    }
    if !same_number(criteria.proto, packet.proto) {
        return Some(PROTOCOL);
    }
    if !address_holds(&criteria.source, &packet.source, members, ifaces) {
        return Some(SOURCE);
    }
    if !port_holds(&criteria.source_port, packet, packet.source_port) {
        return Some(SOURCE_PORT);
    }
    if !address_holds(&criteria.target, &packet.target, members, ifaces) {
        return Some(TARGET);
    }
    if !port_holds(&criteria.target_port, packet, packet.target_port) {
        return Some(TARGET_PORT);
    }
    None
}

// The tests hold that aren't of skip fields.
fn others_hold(criteria: &Criteria, walk: &Walk) -> bool
    ensures { result ≡ all_hold (other_tests criteria.now walk.now.packet walk.now.tag) }
{
    let packet = &walk.packet;
    owner_holds(&criteria.user, packet, packet.user)
        && owner_holds(&criteria.group, packet, packet.group)
        && flags_hold(criteria, packet)
        && icmp_holds(criteria, packet)
        && same_number(criteria.tos, packet.tos)
        && same_number(criteria.prio, packet.prio)
        && tag_passes(&criteria.tagged, &walk.tag)
}
