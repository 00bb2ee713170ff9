//! Where a file has a fault, and what it is.
use crate::name::Name;

/// A line of a file of a load.
#[derive(Clone, Copy, Debug, PartialEq, Eq)]
pub struct Place {
    /// Which file: the load's files are numbered from 0 as it first meets them.
    pub file: u64,
    /// Which line: 1 is the first, and 0 stands for the file as a whole.
    pub line: u32,
}

/// What is wrong with a file of rules, pf.conf(5). Of several faults of one statement the first of
/// these decides. A payload is the first 63 bytes of the word at fault.
#[derive(Clone, Copy, Debug, PartialEq, Eq)]
pub enum FaultKind {
    /// A byte that may stand in comments alone.
    BadByte,
    /// A quoted string that the end of the file cuts off.
    Unterminated,
    /// A macro that has no definition before its use.
    MacroUndefined(Name),
    /// A definition of a name that no macro may have, or a `$` that no name follows.
    MacroName,
    /// An `include` inside 16 included files.
    IncludeDepth,
    /// A file, all files of the load, a macro's value or a statement is larger than it may be.
    TooLarge,
    /// A statement is outside the grammar.
    Syntax,
    /// A statement is outside the grammar and has this word of a part of pf.conf(5) that isn't supported.
    Unsupported(Name),
    /// A `}` where no body of an anchor is open.
    StrayClose,
    /// A body of an anchor that isn't closed.
    UnclosedBody,
    /// A statement that may not stand in the ruleset of an anchor.
    NotInAnchor,
    /// A word that means no address.
    NotAnAddress(Name),
    /// A mask of this many bits is longer than an address.
    MaskTooLong(u32),
    /// A range from one address family to the other.
    FamilyMismatch,
    /// No combination of a statement's lists is left.
    NoCombination,
    /// An interface or group that the facts of the host don't know.
    UnknownInterface(Name),
    /// A word that is no port and no service.
    UnknownService(Name),
    /// A word that is no protocol.
    UnknownProto(Name),
    /// A port test without TCP or UDP.
    PortNeedsTcpUdp,
    /// A port above 65535, or a range of ports that falls.
    BadPort,
    /// A test of an ICMP type without ICMP.
    IcmpNeedsProto,
    /// A word that is no ICMP type or code.
    BadIcmpType,
    /// A letter that is no TCP flag.
    BadFlags,
    /// A test of TCP flags without TCP.
    FlagsNeedTcp,
    /// A word that is no user or group.
    UnknownUser(Name),
    /// `return-rst` without TCP.
    RstNeedsTcp,
    /// Options of a state that exclude each other, or a state where none is made.
    StateOptions,
    /// A part that an anchor rule can't have.
    AnchorEffect,
    /// A name that no anchor may have here, or a ruleset that is filled twice.
    AnchorName,
    /// A table that is declared twice.
    TableTwice,
    /// A name that no table may have.
    TableName,
    /// One prefix of a table with both signs.
    TableConflict,
    /// A queue that is declared twice.
    QueueTwice,
    /// A queue without an interface or a parent that stands before it.
    QueueParent,
    /// A rule names a queue that isn't declared.
    QueueUnknown(Name),
    /// A ruleset of more rules than it may have; the number is the first that is too many.
    TooManyRules(u32),
}
