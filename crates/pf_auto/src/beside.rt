//! What a rule is beside the test at one end, as the key of a map.
ghost use Rattle.std.specs.Prelude.{◌≡◌, fold};
ghost use Rattle.std.specs.Cmp.{partial_equiv_from_equiv};
ghost use Rattle.pf_rule.specs.FieldHash.{equality_laws};
ghost use Rattle.pf_auto.specs.Beside.{beside_input, besides, inputs_alike, owners_input, tag_input};
ghost use Rattle.pf_auto.specs.Ends.{beside};

use crate::place::{End, with_test};
use pf_base::Same;
use pf_ops::{Numbers, Op32};
use pf_parts::TagTest;
use pf_rule::{AddrTest, FieldValue, Rule};
use std::hash::{Hash, Hasher};

/// A rule whose test at one end was taken out.
#[derive(Clone, Copy, Debug)]
pub(crate) struct Beside {
    pub(crate) rule: Rule,
}

impl Beside {
    pub(crate) fn of(end: End, rule: &Rule) -> Beside
        ensures { result.rule ≡ beside end rule.now }
    {
        Beside {
            rule: with_test(end, AddrTest::Any, rule),
        }
    }
}

impl Same for Beside {
    ghost equality = { besides };

    fn same(&self, other: &Beside) -> bool {
        self.rule.same(&other.rule)
    }
}

impl PartialEq for Beside {
    ghost eq = { besides.same };

    ghost laws = { partial_equiv_from_equiv (equality_laws besides) };

    fn eq(&self, other: &Beside) -> bool {
        self.same(other)
    }
}

impl Eq for Beside {
    ghost laws = { equality_laws besides };
}

fn hash_owners<H: Hasher>(owners: &Option<Op32>, state: &mut H)
    ensures { state.new ≡ fold H.write state.old (owners_input owners.now) }
{
    match owners {
        None => state.write_u8(0),
        Some(owners) => match owners.numbers() {
            Numbers::Empty => state.write_u8(1),
            Numbers::One(all) => {
                state.write_u8(2);
                all.low.hash(state);
                all.high.hash(state);
            }
            Numbers::Two(first, last) => {
                state.write_u8(3);
                first.high.hash(state);
                last.low.hash(state);
            }
        },
    }
}

fn hash_tag<H: Hasher>(tag: &TagTest, state: &mut H)
    ensures { state.new ≡ fold H.write state.old (tag_input tag.now) }
{
    match tag {
        TagTest::Any => state.write_u8(0),
        TagTest::Is { name, negated } => {
            state.write_u8(1);
            name.hash(state);
            negated.hash(state);
        }
    }
}

impl Hash for Beside {
    ghost hash_input = { beside_input };

    ghost respects_eq = { inputs_alike };

    #[tactic(auto, unfolding(crate::specs::Beside::criteria_input))]
    fn hash<H: Hasher>(&self, state: &mut H) {
        let criteria = &self.rule.criteria;
        FieldValue::Interface(criteria.iface).hash(state);
        FieldValue::Direction(criteria.direction).hash(state);
        FieldValue::Family(criteria.family).hash(state);
        FieldValue::Protocol(criteria.proto).hash(state);
        FieldValue::Address(criteria.source).hash(state);
        FieldValue::Port(criteria.source_port).hash(state);
        FieldValue::Address(criteria.target).hash(state);
        FieldValue::Port(criteria.target_port).hash(state);
        hash_owners(&criteria.user, state);
        hash_owners(&criteria.group, state);
        hash_tag(&criteria.tagged, state);
    }
}
