//! The keywords that tell productions apart (pf.conf(5), GRAMMAR).

/// The first word of a declaration.
#[derive(Clone, Copy)]
pub enum DeclWord {
    Set,
    Table,
    Queue,
}

/// The first word of a setting.
#[derive(Clone, Copy)]
pub enum SetWord {
    Skip,
    BlockPolicy,
    StatePolicy,
    RulesetOptimization,
    Timeout,
    Limit,
    Optimization,
    Debug,
    Reassemble,
    LogInterface,
    Fingerprints,
}

/// The first word of a part of a table.
#[derive(Clone, Copy)]
pub enum TableWord {
    Persist,
    Const,
    Counters,
    File,
}

/// The first word of a part of a queue.
#[derive(Clone, Copy)]
pub enum QueueWord {
    On,
    Parent,
    Bandwidth,
    Min,
    Max,
    Default,
    Qlimit,
}
