//! The keywords that tell productions apart (pf.conf(5), GRAMMAR).

/// The options of `log`.
#[derive(Clone, Copy, Debug, PartialEq, Eq)]
pub enum LogWord {
    All,
    Matches,
    User,
    To,
}

/// The first word of an option of a state.
#[derive(Clone, Copy, Debug, PartialEq, Eq)]
pub enum StateWord {
    Max,
    SourceTrack,
    MaxSrcNodes,
    MaxSrcStates,
    MaxSrcConn,
    MaxSrcConnRate,
    Overload,
    Sloppy,
    NoSync,
    Pflow,
    IfBound,
    Floating,
}

/// The parts of `set` in a rule.
#[derive(Clone, Copy, Debug, PartialEq, Eq)]
pub enum SetWord {
    Queue,
    Prio,
    Tos,
}

/// The parts of `scrub`.
#[derive(Clone, Copy, Debug, PartialEq, Eq)]
pub enum ScrubWord {
    NoDf,
    RandomId,
    Reassemble,
    MinTtl,
    MaxMss,
}
