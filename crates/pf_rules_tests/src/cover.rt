use crate::plain::BLOCK_ALL;
use pf_addr::parse_prefix;
use pf_base::Family;
use pf_cover::{covers, keep, keep_weighed};
use pf_ops::{Op16, OpKind};
use pf_rule::{AddrSet, AddrTest, Rule};
use std::test::Fail;

// `block inet from PREFIX`, or with `!` before the prefix, or `block all` where that is no prefix.
fn block_from(negated: bool, text: &str) -> Rule {
    let mut rule = BLOCK_ALL;
    if let Ok(prefix) = parse_prefix(text.as_bytes()) {
        let what = AddrSet::Prefix(prefix);
        rule.criteria.family = Some(Family::Inet);
        rule.criteria.source = AddrTest::Test { negated, what };
    }
    rule
}

// `block proto udp to port LOW:HIGH`
fn block_ports(low: u16, high: u16) -> Rule {
    let mut rule = BLOCK_ALL;
    rule.criteria.proto = Some(17);
    rule.criteria.target_port = Some(Op16::make(OpKind::Within, low, high));
    rule
}

// Whether a rule covers another, and the other way round.
fn cover(one: &Rule, other: &Rule) -> (bool, bool) {
    (covers(one, other), covers(other, one))
}

#[test]
fn rules_cover_their_subsets(rt: HostRuntime) {
    let wide = block_from(false, "10/8");
    let narrow = block_from(false, "10.1.2/24");
    let without = block_from(true, "10/8");
    let without_few = block_from(true, "10.1.2/24");
    assert_eq!(rt; cover(&wide, &narrow), (true, false));
    assert_eq!(rt; cover(&wide, &wide), (true, true));
    assert_eq!(rt; cover(&without, &without_few), (false, false));
    assert_eq!(rt; cover(&without, &without), (true, true));
    assert_eq!(rt; cover(&wide, &without), (false, false));
    assert_eq!(rt; cover(&BLOCK_ALL, &wide), (true, false));
}

#[test]
fn ports_cover_their_subsets(rt: HostRuntime) {
    assert!(rt; covers(&block_ports(1, 100), &block_ports(2, 50)));
    assert!(rt; !covers(&block_ports(1, 49), &block_ports(2, 50)));
    assert!(rt; covers(&BLOCK_ALL, &block_ports(0, 65535)));
    assert!(rt; !covers(&block_ports(0, 65535), &BLOCK_ALL));
}

#[test]
fn covered_rules_go(rt: HostRuntime) -> Result<(), Fail> {
    let places = keep(
        rt.alloc(),
        &[block_from(false, "10.1.2/24"), block_from(false, "10/8")],
    )?;
    assert_eq!(rt; places.items(), [1u32].as_slice());
    let places = keep(
        rt.alloc(),
        &[block_from(false, "10/8"), block_from(false, "10/8")],
    )?;
    assert_eq!(rt; places.items(), [0u32].as_slice());
    Ok(())
}

#[test]
fn weights_go_to_the_first(rt: HostRuntime) -> Result<(), Fail> {
    let rules = &[
        block_from(false, "10.1.2/24"),
        block_from(false, "10/8"),
        BLOCK_ALL,
    ];
    let kept = keep_weighed(rt.alloc(), rules, &[2, 3, 4])?;
    assert_eq!(rt; kept.rules.items().len(), 1);
    assert_eq!(rt; kept.weights.items(), [9u64].as_slice());
    Ok(())
}
