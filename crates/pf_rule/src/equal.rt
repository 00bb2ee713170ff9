//! Whether two rules, or two of their parts, are one.
ghost use Rattle.pf_rule.specs.Equal.{actions, address_sets, address_tests, criteria_of_rules, effects, params_of_rules, rules, skip_values, targets};

use crate::criteria::{AddrSet, AddrTest, Criteria};
use crate::effect::{Action, Effect};
use crate::field::FieldValue;
use crate::params::Params;
use crate::rule::Rule;
use crate::translation::Target;
use pf_base::Same;

impl Same for AddrSet {
    ghost equality = { address_sets };

    fn same(&self, other: &AddrSet) -> bool {
        match self {
            AddrSet::Prefix(one) => match other {
                AddrSet::Prefix(second) => one.same(second),
                AddrSet::Range(_) | AddrSet::Table(_) | AddrSet::Dynamic(_) | AddrSet::Auto(_) => {
                    false
                }
            },
            AddrSet::Range(one) => match other {
                AddrSet::Range(second) => one.same(second),
                AddrSet::Prefix(_) | AddrSet::Table(_) | AddrSet::Dynamic(_) | AddrSet::Auto(_) => {
                    false
                }
            },
            AddrSet::Table(one) => match other {
                AddrSet::Table(second) => one.same(second),
                AddrSet::Prefix(_) | AddrSet::Range(_) | AddrSet::Dynamic(_) | AddrSet::Auto(_) => {
                    false
                }
            },
            AddrSet::Dynamic(one) => match other {
                AddrSet::Dynamic(second) => one.same(second),
                AddrSet::Prefix(_) | AddrSet::Range(_) | AddrSet::Table(_) | AddrSet::Auto(_) => {
                    false
                }
            },
            AddrSet::Auto(one) => match other {
                AddrSet::Auto(second) => one.same(second),
                AddrSet::Prefix(_) | AddrSet::Range(_) | AddrSet::Table(_) | AddrSet::Dynamic(_) =>
                    { false }
            },
        }
    }
}

impl Same for AddrTest {
    ghost equality = { address_tests };

    fn same(&self, other: &AddrTest) -> bool {
        match (self, other) {
            (AddrTest::Any, AddrTest::Any) => true,
            (
                AddrTest::Test { negated, what },
                AddrTest::Test {
                    negated: turned,
                    what: second,
                },
            ) => negated.same(turned) && what.same(second),
            (AddrTest::Any, AddrTest::Test { .. }) | (AddrTest::Test { .. }, AddrTest::Any) =>
                false,
        }
    }
}

impl Same for Criteria {
    ghost equality = { criteria_of_rules };

    #[tactic(auto, unfolding(crate::specs::Equal::criteria_of_rules))]
    fn same(&self, other: &Criteria) -> bool {
        self.iface.same(&other.iface)
            && self.direction.same(&other.direction)
            && self.family.same(&other.family)
            && self.proto.same(&other.proto)
            && self.source.same(&other.source)
            && self.source_port.same(&other.source_port)
            && self.target.same(&other.target)
            && self.target_port.same(&other.target_port)
            && self.user.same(&other.user)
            && self.group.same(&other.group)
            && self.flags.same(&other.flags)
            && self.icmp.same(&other.icmp)
            && self.tos.same(&other.tos)
            && self.prio.same(&other.prio)
            && self.tagged.same(&other.tagged)
    }
}

impl Same for Target {
    ghost equality = { targets };

    fn same(&self, other: &Target) -> bool {
        self.addr.same(&other.addr) && self.port.same(&other.port)
    }
}

impl Same for Params {
    ghost equality = { params_of_rules };

    #[tactic(auto, unfolding(crate::specs::Equal::params_of_rules))]
    fn same(&self, other: &Params) -> bool {
        self.queue.same(&other.queue)
            && self.prio.same(&other.prio)
            && self.tos.same(&other.tos)
            && self.scrub.same(&other.scrub)
            && self.log.same(&other.log)
            && self.allow_opts.same(&other.allow_opts)
            && self.nat.same(&other.nat)
            && self.rdr.same(&other.rdr)
    }
}

impl Same for Action {
    ghost equality = { actions };

    fn same(&self, other: &Action) -> bool {
        match self {
            Action::Pass => matches!(other, Action::Pass),
            Action::Match => matches!(other, Action::Match),
            Action::Block(kind) => match other {
                Action::Block(second) => kind.same(second),
                Action::Pass | Action::Match | Action::Anchor(_) => false,
            },
            Action::Anchor(call) => match other {
                Action::Anchor(second) => call.same(second),
                Action::Pass | Action::Match | Action::Block(_) => false,
            },
        }
    }
}

impl Same for Effect {
    ghost equality = { effects };

    #[tactic(auto, unfolding(crate::specs::Equal::effects))]
    fn same(&self, other: &Effect) -> bool {
        self.action.same(&other.action)
            && self.quick.same(&other.quick)
            && self.tag.same(&other.tag)
            && self.state.same(&other.state)
            && self.options.same(&other.options)
            && self.params.same(&other.params)
            && self.label.same(&other.label)
    }
}

impl Same for Rule {
    ghost equality = { rules };

    #[tactic(auto, unfolding(crate::specs::Equal::rules))]
    fn same(&self, other: &Rule) -> bool {
        self.criteria.same(&other.criteria) && self.effect.same(&other.effect)
    }
}

impl Same for FieldValue {
    ghost equality = { skip_values };

    fn same(&self, other: &FieldValue) -> bool {
        match self {
            FieldValue::Interface(one) => match other {
                FieldValue::Interface(second) => one.same(second),
                FieldValue::Direction(_)
                | FieldValue::Family(_)
                | FieldValue::Protocol(_)
                | FieldValue::Address(_)
                | FieldValue::Port(_) => false,
            },
            FieldValue::Direction(one) => match other {
                FieldValue::Direction(second) => one.same(second),
                FieldValue::Interface(_)
                | FieldValue::Family(_)
                | FieldValue::Protocol(_)
                | FieldValue::Address(_)
                | FieldValue::Port(_) => false,
            },
            FieldValue::Family(one) => match other {
                FieldValue::Family(second) => one.same(second),
                FieldValue::Interface(_)
                | FieldValue::Direction(_)
                | FieldValue::Protocol(_)
                | FieldValue::Address(_)
                | FieldValue::Port(_) => false,
            },
            FieldValue::Protocol(one) => match other {
                FieldValue::Protocol(second) => one.same(second),
                FieldValue::Interface(_)
                | FieldValue::Direction(_)
                | FieldValue::Family(_)
                | FieldValue::Address(_)
                | FieldValue::Port(_) => false,
            },
            FieldValue::Address(one) => match other {
                FieldValue::Address(second) => one.same(second),
                FieldValue::Interface(_)
                | FieldValue::Direction(_)
                | FieldValue::Family(_)
                | FieldValue::Protocol(_)
                | FieldValue::Port(_) => false,
            },
            FieldValue::Port(one) => match other {
                FieldValue::Port(second) => one.same(second),
                FieldValue::Interface(_)
                | FieldValue::Direction(_)
                | FieldValue::Family(_)
                | FieldValue::Protocol(_)
                | FieldValue::Address(_) => false,
            },
        }
    }
}
