//! What a record says of a packet.
use pf_addr::Addr;
use pf_base::Name;
use pf_parts::Direction;

/// A packet. Its family is that of its source.
#[derive(Clone, Copy, Debug, PartialEq, Eq)]
pub struct Packet {
    pub direction: Direction,
    /// The interface that it comes in by or goes out by.
    pub iface: Name,
    /// The number of its protocol, as 6 for TCP and 17 for UDP.
    pub proto: u8,
    pub source: Addr,
    pub target: Addr,
    pub source_port: Option<u16>,
    pub target_port: Option<u16>,
    /// The bits of its TCP flags, 0 where none is set.
    pub flags: u8,
    pub icmp_type: Option<u8>,
    pub icmp_code: Option<u8>,
    /// Its type of service.
    pub tos: u8,
    /// Its priority, 0 to 7.
    pub prio: u8,
    /// The user who owns its socket, where that is known.
    pub user: Option<u32>,
    /// The group who owns its socket, where that is known.
    pub group: Option<u32>,
    /// The tag that it has before the first rule.
    pub tag: Option<Name>,
}
