//! The keywords that tell productions apart (pf.conf(5), GRAMMAR).

/// The first word of a statement.
#[derive(Clone, Copy, Debug, PartialEq, Eq)]
pub enum HeadWord {
    Pass,
    Match,
    Block,
    Anchor,
    Antispoof,
    Load,
}

/// The kinds of `block`.
#[derive(Clone, Copy, Debug, PartialEq, Eq)]
pub enum KindWord {
    Drop,
    Return,
    Reset,
    Icmp,
    Icmp6,
}

/// The first word of an option of a rule.
#[derive(Clone, Copy, Debug, PartialEq, Eq)]
pub enum OptionWord {
    User,
    Group,
    Flags,
    IcmpType,
    Icmp6Type,
    Tos,
    Prio,
    Tagged,
    Tag,
    No,
    Keep,
    Modulate,
    Synproxy,
    Set,
    Scrub,
    AllowOpts,
    Label,
    NatTo,
    RdrTo,
}
