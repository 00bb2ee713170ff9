//! The eight skip fields of a rule, by which a rule that fails lets others be passed over: 0 interface,
//! 1 direction, 2 family, 3 protocol, 4 source address, 5 source port, 6 target address, 7 target port.
ghost use Rattle.std.specs.Prelude.{◌≡◌, ◌<◌, ℕ, Some, false, slice_get};
ghost use Rattle.pf_rule.specs.Around.{Around as Outside};
ghost use Rattle.pf_rule.specs.Fields.{AgreeIn, field_values};
ghost use Rattle.pf_rule.specs.Hit.{fails_at, hits_at, skip_tests};
ghost use Rattle.pf_rule.specs.declared.criteria.Criteria.{Criteria as RuleCriteria};
ghost use Rattle.pf_rule.specs.declared.packet.Packet.{Packet as AnyPacket};
ghost use Rattle.pf_rule.specs.declared.rule.Rule.{Rule as FilterRule};
ghost use Rattle.pf_rule.specs.declared.walk.Walk.{Walk as PacketWalk};

use crate::criteria::{AddrTest, Criteria};
use pf_base::Family;
use pf_ops::Op16;
use pf_parts::{Direction, IfTest};

/// The value of a skip field.
#[derive(Clone, Copy, Debug)]
pub enum FieldValue {
    Interface(IfTest),
    Direction(Option<Direction>),
    Family(Option<Family>),
    Protocol(Option<u8>),
    /// Of the source or the target.
    Address(AddrTest),
    /// Of the source or the target.
    Port(Option<Op16>),
}

impl Criteria {
    /// The value of the skip field with this number.
    pub fn field_value(&self, field: u8) -> FieldValue
        requires { field < 8 }
        ensures { slice_get (field_values self.now) field ≡ Some result }
    {
        match field {
            0 => FieldValue::Interface(self.iface),
            1 => FieldValue::Direction(self.direction),
            2 => FieldValue::Family(self.family),
            3 => FieldValue::Protocol(self.proto),
            4 => FieldValue::Address(self.source),
            5 => FieldValue::Port(self.source_port),
            6 => FieldValue::Address(self.target),
            7 => FieldValue::Port(self.target_port),
            _ => unreachable!(),
        }
    }
}

/// A law: rules that are equal in a skip field hold or fail it alike, at one packet and one state of the
/// tables and interfaces.
pub fn equal_fields_test_alike()
    ensures alike { (around : Outside) (one other : RuleCriteria) (packet : AnyPacket) (field : ℕ) →
        AgreeIn field one other →
        slice_get (skip_tests around one packet) field ≡ slice_get (skip_tests around other packet) field }
    // So where a rule fails a field, no rule that is equal in that field hits.
    ensures missed { (around : Outside) (one other : FilterRule) (walk : PacketWalk) (field : ℕ) →
        fails_at around one walk ≡ Some field → AgreeIn field one.criteria other.criteria →
        hits_at around other walk ≡ false }
{}
