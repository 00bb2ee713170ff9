//! Two small enums that several crates share.

/// An address family, as `inet` and `inet6` of pf.conf(5).
#[derive(Clone, Copy, Debug, PartialEq, Eq, PartialOrd, Ord, Hash)]
pub enum Family {
    /// IPv4.
    Inet,
    /// IPv6.
    Inet6,
}

/// How far a ruleset is optimised, as `set ruleset-optimization` of pf.conf(5).
#[derive(Clone, Copy, Debug, PartialEq, Eq)]
pub enum Level {
    /// Rules stay as written.
    None,
    /// Rules that change no answer go, and alike ones are joined.
    Basic,
    /// As basic, and quick rules are ordered by how often they match.
    Profile,
}
