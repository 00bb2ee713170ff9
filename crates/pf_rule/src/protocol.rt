//! The numbers of the protocols that have ports, flags or ICMP types of their own.

/// TCP.
pub const TCP: u8 = 6;

/// UDP.
pub const UDP: u8 = 17;

/// ICMP, that of IPv4.
pub const ICMP: u8 = 1;

/// ICMP for IPv6.
pub const ICMP6: u8 = 58;
