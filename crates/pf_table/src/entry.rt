//! An entry of a table.
use pf_addr::Prefix;

/// A prefix of a table with its sign (pf.conf(5), TABLES). A negated one has a `!` before it.
#[derive(Clone, Copy, Debug, PartialEq, Eq)]
pub struct Entry {
    pub prefix: Prefix,
    pub negated: bool,
}
