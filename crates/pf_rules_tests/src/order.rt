use crate::plain::BLOCK_ALL;
use pf_addr::parse_prefix;
use pf_base::{Family, List, Name, Same};
use pf_order::{Span, blocks, gain, order_gain, order_profile};
use pf_rule::{Action, AddrSet, AddrTest, IfTest, Rule};
use std::test::Fail;

fn block_on(iface: &str, source: &str) -> Result<Rule, Fail> {
    let mut rule = BLOCK_ALL;
    rule.criteria.iface = IfTest::On {
        name: Name::new(iface.as_bytes()).ok_or("no name")?,
        negated: false,
    };
    rule.criteria.family = Some(Family::Inet);
    rule.criteria.source = AddrTest::Test {
        negated: false,
        what: AddrSet::Prefix(parse_prefix(source.as_bytes())?),
    };
    Ok(rule)
}

fn pass_proto(proto: u8) -> Rule {
    let mut rule = BLOCK_ALL;
    rule.effect.action = Action::Pass;
    rule.criteria.proto = Some(proto);
    rule
}

#[test]
fn neighbours_of_one_effect_are_a_block(rt: HostRuntime) -> Result<(), Fail> {
    let block = block_on("em0", "10/8")?;
    let mut labelled = block_on("em0", "10/8")?;
    labelled.effect.label = Name::new(b"web");
    let mut rules = List::new(rt.alloc());
    rules.push_copy(&block)?;
    rules.push_copy(&block)?;
    rules.push_copy(&labelled)?;
    rules.push_copy(&pass_proto(6))?;
    let spans = blocks(rt.alloc(), rules.items())?;
    let found = [
        Span { start: 0, end: 2 },
        Span { start: 2, end: 3 },
        Span { start: 3, end: 4 },
    ];
    assert_eq!(rt; spans.items(), found.as_slice());
    Ok(())
}

#[test]
fn neighbours_that_agree_stand_together(rt: HostRuntime) -> Result<(), Fail> {
    let mut rules = List::new(rt.alloc());
    rules.push_copy(&block_on("em0", "10.0.0.1")?)?;
    rules.push_copy(&block_on("em1", "10.0.0.2")?)?;
    rules.push_copy(&block_on("em0", "10.0.0.2")?)?;
    rules.push_copy(&block_on("em1", "10.0.0.1")?)?;
    let mut better = List::new(rt.alloc());
    better.push_copy(&block_on("em0", "10.0.0.1")?)?;
    better.push_copy(&block_on("em0", "10.0.0.2")?)?;
    better.push_copy(&block_on("em1", "10.0.0.1")?)?;
    better.push_copy(&block_on("em1", "10.0.0.2")?)?;
    assert_eq!(rt; gain(rules.items()), 19);
    assert_eq!(rt; gain(better.items()), 20);
    let ordered = order_gain(rt.alloc(), rules.items())?;
    assert!(rt; ordered.same(&better));
    Ok(())
}

#[test]
fn the_most_used_rules_stand_first(rt: HostRuntime) -> Result<(), Fail> {
    let mut rules = List::new(rt.alloc());
    rules.push_copy(&pass_proto(6))?;
    rules.push_copy(&pass_proto(17))?;
    rules.push_copy(&pass_proto(1))?;
    let mut expected = List::new(rt.alloc());
    expected.push_copy(&pass_proto(17))?;
    expected.push_copy(&pass_proto(1))?;
    expected.push_copy(&pass_proto(6))?;
    let ordered = order_profile(rt.alloc(), rules.items(), &[5, 9, 9])?;
    assert!(rt; ordered.same(&expected));
    Ok(())
}
