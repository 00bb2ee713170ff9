//! What the keys of a record say.
ghost use Rattle.std.specs.Prelude.{◌≡◌, ◌≤◌, true, None, Some, IfOk, IfErr, IfSome};
ghost use Rattle.std.specs.Option.{option_copied, option_or};
ghost use Rattle.pf_base.specs.Decimal.{decimal_of};
ghost use Rattle.pf_base.specs.Name.{plain_name as name_of};
ghost use Rattle.pf_record.specs.Reading.{IsPacketOf, end_fault, value_read, values_fault, values_of};
ghost use Rattle.pf_record.specs.Record.{perhaps};
ghost use Rattle.pf_ops.specs.Words as says;
ghost use Rattle.pf_record.specs.declared.field.Field.TheVariants as field_name;

use crate::field::{Field, PacketFault};
use crate::head::Start;
use crate::values::KeyValues;
use crate::words::{has_ports, has_types, is_tcp};
use pf_base::text::decimal;
use pf_base::{Name, plain_name};
use pf_ops::flags_of;
use pf_rule::Packet;

// The greatest port.
const MOST_PORT: u32 = 65_535;

// The greatest number of a byte.
const MOST_BYTE: u32 = 255;

// The greatest priority.
const MOST_PRIO: u32 = 7;

// The type of service and the priority of a packet whose record gives none.
const PLAIN_TOS: u8 = 0;

const PLAIN_PRIO: u8 = 3;

// A number to `most` of a key that the protocol has, or nothing where the key isn't given.
fn number(
    value: Option<&[u8]>,
    has: bool,
    most: u32,
    field: Field,
) -> Result<Option<u32>, PacketFault>
    ensures said { result ≡ value_read has (perhaps (decimal_of most)) None field (option_copied value.entry) }
    ensures bound { IfOk result (λ said. IfSome said (λ n. n ≤ most)) }
{
    let Some(value) = value else {
        return Ok(None);
    };
    if !has {
        return Err(PacketFault(field));
    }
    match decimal(value, most) {
        Some(number) => Ok(Some(number)),
        None => Err(PacketFault(field)),
    }
}

fn port(value: Option<&[u8]>, has: bool, field: Field) -> Result<Option<u16>, PacketFault>
    ensures { result ≡ value_read has (perhaps (decimal_of MOST_PORT)) None field (option_copied value.entry) }
{
    match number(value, has, MOST_PORT, field)? {
        Some(port) => Ok(Some(port as u16)),
        None => Ok(None),
    }
}

fn byte(value: Option<&[u8]>, has: bool, field: Field) -> Result<Option<u8>, PacketFault>
    ensures { result ≡ value_read has (perhaps (decimal_of MOST_BYTE)) None field (option_copied value.entry) }
{
    match number(value, has, MOST_BYTE, field)? {
        Some(byte) => Ok(Some(byte as u8)),
        None => Ok(None),
    }
}

// A number to `most` of a key that each protocol has, or `without` where the key isn't given.
fn byte_or(value: Option<&[u8]>, most: u32, without: u8, field: Field) -> Result<u8, PacketFault>
    requires { most ≤ MOST_BYTE }
    ensures { result ≡ value_read true (decimal_of most) without field (option_copied value.entry) }
{
    match number(value, true, most, field)? {
        Some(byte) => Ok(byte as u8),
        None => Ok(without),
    }
}

fn flags(value: Option<&[u8]>, has: bool) -> Result<u8, PacketFault>
    ensures { result ≡ value_read has says.flags_of 0 field_name.Flags (option_copied value.entry) }
{
    let Some(letters) = value else {
        return Ok(0);
    };
    if !has {
        return Err(PacketFault(Field::Flags));
    }
    flags_of(letters).ok_or(PacketFault(Field::Flags))
}

fn tag(value: Option<&[u8]>) -> Result<Option<Name>, PacketFault>
    ensures { result ≡ value_read true (perhaps name_of) None field_name.Tag (option_copied value.entry) }
{
    let Some(name) = value else {
        return Ok(None);
    };
    match plain_name(name) {
        Some(name) => Ok(Some(name)),
        None => Err(PacketFault(Field::Tag)),
    }
}

/// The packet that begins so and whose keys have these values. The fault is the first in the order of the
/// keys, then a word too many, then the first key that is missing.
#[tactic(auto, unfolding(crate::specs::Reading::values_fault))]
pub(crate) fn packet_of(start: &Start, values: &KeyValues) -> Result<Packet, PacketFault>
    ensures packet { IfOk result (IsPacketOf start.now (values_of values.now) values.now.extra) }
    ensures fault { IfErr result (λ fault. option_or (values_fault start.now.proto (values_of values.now))
        (end_fault start.now.proto (values_of values.now) values.now.extra) ≡ Some fault.0) }
{
    let ports = has_ports(start.proto);
    let types = has_types(start.proto);
    let source_port = port(values.sport, ports, Field::Sport)?;
    let target_port = port(values.dport, ports, Field::Dport)?;
    let flags = flags(values.flags, is_tcp(start.proto))?;
    let icmp_type = byte(values.icmptype, types, Field::Icmptype)?;
    let icmp_code = byte(values.code, types, Field::Code)?;
    let tos = byte_or(values.tos, MOST_BYTE, PLAIN_TOS, Field::Tos)?;
    let prio = byte_or(values.prio, MOST_PRIO, PLAIN_PRIO, Field::Prio)?;
    let user = number(values.user, ports, u32::MAX, Field::User)?;
    let group = number(values.group, ports, u32::MAX, Field::Group)?;
    let tag = tag(values.tag)?;
    values.end(start.proto)?;
    Ok(Packet {
        direction: start.direction,
        iface: start.iface,
        proto: start.proto,
        source: start.source,
        target: start.target,
        source_port,
        target_port,
        flags,
        icmp_type,
        icmp_code,
        tos,
        prio,
        user,
        group,
        tag,
    })
}
