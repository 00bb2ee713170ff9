//! Which packets a rule matches (pf.conf(5), PARAMETERS).
use pf_addr::{DynIf, Prefix, Range};
use pf_base::{Family, Name};
use pf_ops::{IcmpType, Op16, Op32, TcpFlags};
use pf_parts::{Direction, IfTest, TagTest};

/// The parameters of a rule: it matches the packets that meet each of them that is given.
#[derive(Clone, Copy, Debug, PartialEq, Eq)]
pub struct Criteria {
    /// `on`
    pub iface: IfTest,
    /// `in` or `out`
    pub direction: Option<Direction>,
    /// `inet` or `inet6`
    pub family: Option<Family>,
    /// `proto`
    pub proto: Option<u8>,
    /// `from`
    pub source: AddrTest,
    pub source_port: Option<Op16>,
    /// `to`
    pub target: AddrTest,
    pub target_port: Option<Op16>,
    pub user: Option<Op32>,
    pub group: Option<Op32>,
    pub flags: Option<TcpFlags>,
    /// `icmp-type` or `icmp6-type`
    pub icmp: Option<IcmpType>,
    pub tos: Option<u8>,
    /// `prio`, 0 to 7
    pub prio: Option<u8>,
    pub tagged: TagTest,
}

/// A test of a packet's source or target.
#[derive(Clone, Copy, Debug, PartialEq, Eq)]
pub enum AddrTest {
    Any,
    /// The address is one of these; negated, it isn't.
    Test { negated: bool, what: AddrSet },
}

/// A set of addresses.
#[derive(Clone, Copy, Debug, PartialEq, Eq)]
pub enum AddrSet {
    Prefix(Prefix),
    Range(Range),
    /// Those of a table.
    Table(Name),
    /// Those that an interface has at the moment.
    Dynamic(DynIf),
    /// Those of the table that the optimiser made with this number.
    Auto(u32),
}
