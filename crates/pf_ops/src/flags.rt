//! Values that rules test of TCP and ICMP packets.
ghost use Rattle.pf_ops.specs.Equal.{icmp_types, tcp_flags};

use pf_base::{Family, Same};

/// `flags set/mask` of pf.conf(5), Parameters: of the flags in `mask` exactly those in `set` are set.
#[derive(Clone, Copy, Debug, PartialEq, Eq, PartialOrd, Ord)]
pub struct TcpFlags {
    pub set: u8,
    pub mask: u8,
}

/// `icmp-type` and `icmp6-type` of pf.conf(5), Parameters: a type, and a code where one is given.
#[derive(Clone, Copy, Debug, PartialEq, Eq, PartialOrd, Ord)]
pub struct IcmpType {
    pub family: Family,
    pub kind: u8,
    pub code: Option<u8>,
}

impl Same for TcpFlags {
    ghost equality = { tcp_flags };

    fn same(&self, other: &TcpFlags) -> bool {
        self.set == other.set && self.mask == other.mask
    }
}

impl Same for IcmpType {
    ghost equality = { icmp_types };

    fn same(&self, other: &IcmpType) -> bool {
        self.family.same(&other.family) && self.kind == other.kind && self.code.same(&other.code)
    }
}
