//! What statements say before their words are given a meaning, pf.conf(5), GRAMMAR.
use pf_base::{Family, Name, Text};
use pf_ops::OpKind;

/// A host of `from` or `to`.
#[derive(Debug, Drop)]
pub struct HostItem {
    /// A `!` stands before it.
    pub negated: bool,
    pub what: HostForm,
}

/// Which addresses a host stands for.
#[derive(Debug, Drop)]
pub enum HostForm {
    /// `any`
    Any,
    /// An address, an interface or a host's name, and the mask behind a `/`.
    Word { word: Text, mask: Option<Text> },
    /// `low - high`
    Range { low: Text, high: Text },
    /// `(name)`
    Dynamic(Text),
    /// `<name>`; a longer name is cut to 63 bytes.
    Table(Name),
}

/// A test of a port, a user or a group. An operator on one number has an empty `high`.
#[derive(Debug, Drop)]
pub struct OpItem {
    pub kind: OpKind,
    pub low: Text,
    pub high: Text,
}

/// An ICMP type of one family, and a code where one is given.
#[derive(Debug, Drop)]
pub struct IcmpItem {
    pub family: Family,
    pub word: Text,
    pub code: Option<Text>,
}

/// The address behind `nat-to` or `rdr-to`, and a port where one is given.
#[derive(Debug, Drop)]
pub struct TargetWords {
    pub addr: Text,
    pub port: Option<Text>,
}
