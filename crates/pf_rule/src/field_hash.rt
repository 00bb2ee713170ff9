//! Equality and hashes of the values of skip fields, by which a map finds the distinct ones.
ghost use Rattle.std.specs.Prelude.{◌≡◌, fold};
ghost use Rattle.std.specs.Cmp.{partial_equiv_from_equiv};
ghost use Rattle.pf_rule.specs.Equal.{skip_values};
ghost use Rattle.pf_rule.specs.FieldHash.{equality_laws, field_alike, field_input, numbers_input, set_input};

use crate::criteria::{AddrSet, AddrTest};
use crate::field::FieldValue;
use pf_base::{Family, Same};
use pf_ops::Numbers;
use pf_parts::{Direction, IfTest};
use std::hash::{Hash, Hasher};

impl PartialEq for FieldValue {
    ghost eq = { skip_values.same };

    ghost laws = { partial_equiv_from_equiv (equality_laws skip_values) };

    fn eq(&self, other: &FieldValue) -> bool {
        self.same(other)
    }
}

impl Eq for FieldValue {
    ghost laws = { equality_laws skip_values };
}

fn hash_set<H: Hasher>(what: &AddrSet, state: &mut H)
    ensures { state.new ≡ fold H.write state.old (set_input what.now) }
{
    match what {
        AddrSet::Prefix(prefix) => {
            state.write_u8(0);
            prefix.hash(state);
        }
        AddrSet::Range(range) => {
            state.write_u8(1);
            range.hash(state);
        }
        AddrSet::Table(name) => {
            state.write_u8(2);
            name.hash(state);
        }
        AddrSet::Dynamic(what) => {
            state.write_u8(3);
            what.name.hash(state);
            what.network.hash(state);
            what.first.hash(state);
        }
        AddrSet::Auto(number) => {
            state.write_u8(4);
            number.hash(state);
        }
    }
}

fn hash_numbers<H: Hasher>(numbers: &Numbers, state: &mut H)
    ensures { state.new ≡ fold H.write state.old (numbers_input numbers.now) }
{
    match numbers {
        Numbers::Empty => state.write_u8(0),
        Numbers::One(all) => {
            state.write_u8(1);
            all.low.hash(state);
            all.high.hash(state);
        }
        Numbers::Two(first, last) => {
            state.write_u8(2);
            first.high.hash(state);
            last.low.hash(state);
        }
    }
}

impl Hash for FieldValue {
    ghost hash_input = { field_input };

    ghost respects_eq = { field_alike };

    fn hash<H: Hasher>(&self, state: &mut H) {
        match self {
            FieldValue::Interface(IfTest::Any) => state.write_u8(0),
            FieldValue::Interface(IfTest::On { name, negated }) => {
                state.write_u8(1);
                name.hash(state);
                negated.hash(state);
            }
            FieldValue::Direction(None) => state.write_u8(2),
            FieldValue::Direction(Some(Direction::In)) => state.write_u8(3),
            FieldValue::Direction(Some(Direction::Out)) => state.write_u8(4),
            FieldValue::Family(None) => state.write_u8(5),
            FieldValue::Family(Some(Family::Inet)) => state.write_u8(6),
            FieldValue::Family(Some(Family::Inet6)) => state.write_u8(7),
            FieldValue::Protocol(None) => state.write_u8(8),
            FieldValue::Protocol(Some(proto)) => {
                state.write_u8(9);
                proto.hash(state);
            }
            FieldValue::Address(AddrTest::Any) => state.write_u8(10),
            FieldValue::Address(AddrTest::Test { negated, what }) => {
                state.write_u8(11);
                negated.hash(state);
                hash_set(what, state);
            }
            FieldValue::Port(None) => state.write_u8(12),
            FieldValue::Port(Some(set)) => {
                state.write_u8(13);
                hash_numbers(&set.numbers(), state);
            }
        }
    }
}
