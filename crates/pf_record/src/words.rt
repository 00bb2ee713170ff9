//! What single words of a record say.
ghost use Rattle.std.specs.Prelude.{◌≡◌};
ghost use Rattle.pf_record.specs.Words as says;

use pf_parts::Direction;
use pf_rule::{ICMP, ICMP6, TCP, UDP};

pub(crate) fn direction_of(word: &[u8]) -> Option<Direction>
    ensures { result ≡ says.direction_of word.now }
{
    match word {
        b"in" => Some(Direction::In),
        b"out" => Some(Direction::Out),
        _ => None,
    }
}

pub(crate) fn is_tcp(proto: u8) -> bool
    ensures { result ≡ says.is_tcp proto }
{
    proto == TCP
}

// TCP and UDP have ports, and sockets with owners.
pub(crate) fn has_ports(proto: u8) -> bool
    ensures { result ≡ says.has_ports proto }
{
    proto == TCP || proto == UDP
}

// ICMP and ICMPv6 have types and codes.
pub(crate) fn has_types(proto: u8) -> bool
    ensures { result ≡ says.has_types proto }
{
    proto == ICMP || proto == ICMP6
}
