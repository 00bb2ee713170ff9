use pf_addr::{Addr, Prefix};
use pf_auto::merge;
use pf_base::Family;
use pf_parts::{IfTest, StateKind, StateOptions, TagTest};
use pf_rule::{Action, AddrSet, AddrTest, Criteria, Effect, Params, Rule};
use std::test::Fail;

const PASS_ALL: Rule = Rule {
    criteria: Criteria {
        iface: IfTest::Any,
        direction: None,
        family: None,
        proto: None,
        source: AddrTest::Any,
        source_port: None,
        target: AddrTest::Any,
        target_port: None,
        user: None,
        group: None,
        flags: None,
        icmp: None,
        tos: None,
        prio: None,
        tagged: TagTest::Any,
    },
    effect: Effect {
        action: Action::Pass,
        quick: true,
        tag: None,
        state: StateKind::None,
        options: StateOptions::NONE,
        params: Params::NONE,
        label: None,
    },
};

fn test_of(negated: bool, last: u8) -> AddrTest {
    let what = AddrSet::Prefix(Prefix::of(&Addr::V4(0x0a00_0000 + u32::from(last))));
    AddrTest::Test { negated, what }
}

// `pass quick inet from 10.0.0.N`, or from `! 10.0.0.N`.
fn pass_from(negated: bool, last: u8) -> Rule {
    let mut rule = PASS_ALL;
    rule.criteria.family = Some(Family::Inet);
    rule.criteria.source = test_of(negated, last);
    rule
}

// `pass quick inet to 10.0.0.N`
fn pass_to(last: u8) -> Rule {
    let mut rule = PASS_ALL;
    rule.criteria.family = Some(Family::Inet);
    rule.criteria.target = test_of(false, last);
    rule
}

#[test]
fn six_become_one(rt: HostRuntime) -> Result<(), Fail> {
    let rules = &[
        pass_from(false, 4),
        pass_from(false, 2),
        pass_to(9),
        pass_from(false, 6),
        pass_from(false, 1),
        pass_from(false, 3),
        pass_from(false, 2),
    ];
    let merged = merge(rt.alloc(), rules, &[1, 2, 50, 3, 4, 5, 6], 7)?;
    assert_eq!(rt; merged.rules.items().len(), 2);
    assert_eq!(rt; merged.weights.items(), [21u64, 50].as_slice());
    let Some(table) = merged.tables.items().first() else {
        return Err("no table")?;
    };
    assert_eq!(rt; table.number, 7);
    assert_eq!(rt; table.entries.items().len(), 5);
    Ok(())
}

#[test]
fn five_stay(rt: HostRuntime) -> Result<(), Fail> {
    let rules = &[
        pass_from(false, 1),
        pass_from(false, 2),
        pass_from(false, 3),
        pass_from(false, 4),
        pass_from(false, 5),
        pass_from(true, 6),
    ];
    let merged = merge(rt.alloc(), rules, &[0, 0, 0, 0, 0, 0], 0)?;
    assert_eq!(rt; merged.rules.items().len(), 6);
    assert_eq!(rt; merged.tables.items().len(), 0);
    Ok(())
}

#[test]
fn targets_become_one(rt: HostRuntime) -> Result<(), Fail> {
    let rules = &[
        pass_to(1),
        pass_to(2),
        pass_to(3),
        pass_to(4),
        pass_to(5),
        pass_to(6),
    ];
    let merged = merge(rt.alloc(), rules, &[1, 1, 1, 1, 1, 1], 0)?;
    assert_eq!(rt; merged.weights.items(), [6u64].as_slice());
    assert_eq!(rt; merged.tables.items().len(), 1);
    Ok(())
}
