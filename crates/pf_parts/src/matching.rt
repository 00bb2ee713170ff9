//! Tests of interfaces and tags (pf.conf(5), PARAMETERS).
use pf_base::Name;

/// A test of a packet's interface.
#[derive(Clone, Copy, Debug, PartialEq, Eq)]
pub enum IfTest {
    Any,
    /// The interface has this name or is in this group; negated, it isn't.
    On { name: Name, negated: bool },
}

/// A test of the tag that a packet has at the moment.
#[derive(Clone, Copy, Debug, PartialEq, Eq)]
pub enum TagTest {
    Any,
    /// The tag is this name; negated, it isn't.
    Is { name: Name, negated: bool },
}
