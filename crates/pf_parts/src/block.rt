//! The kinds of blocks (pf.conf(5), "block").

/// What a blocked packet's sender is told.
#[derive(Clone, Copy, Debug, PartialEq, Eq)]
pub enum BlockKind {
    /// Nothing.
    Drop,
    /// What fits the packet's protocol.
    Return,
    /// A TCP reset; a ttl of 0 means that none was written.
    Rst { ttl: u8 },
    /// An ICMP error with these codes for IPv4 and for IPv6.
    Icmp { code: u8, code6: u8 },
}
