//! The rule of which the tests make others.
use pf_parts::{BlockKind, IfTest, StateKind, StateOptions, TagTest};
use pf_rule::{Action, AddrTest, Criteria, Effect, Params, Rule};

/// `block drop all`
pub const BLOCK_ALL: Rule = Rule {
    criteria: Criteria {
        iface: IfTest::Any,
        direction: None,
        family: None,
        proto: None,
        source: AddrTest::Any,
        source_port: None,
        target: AddrTest::Any,
        target_port: None,
        user: None,
        group: None,
        flags: None,
        icmp: None,
        tos: None,
        prio: None,
        tagged: TagTest::Any,
    },
    effect: Effect {
        action: Action::Block(BlockKind::Drop),
        quick: false,
        tag: None,
        state: StateKind::None,
        options: StateOptions::NONE,
        params: Params::NONE,
        label: None,
    },
};
