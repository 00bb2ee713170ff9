//! What settings, tables and queues declare, pf.conf(5), GRAMMAR.
use pf_base::{Level, List, Name, Place, Text};
use pf_parts::BlockKind;

/// A declaration: a statement that is no rule.
#[derive(Debug, Drop)]
pub enum Decl {
    /// `set`: a line for each member of its list, in order.
    Set(List<OptionLine>),
    /// `table`
    Table(TableForm),
    /// `queue`
    Queue(Queue),
}

/// A setting with one member, and its line as it is shown.
#[derive(Debug, Drop)]
pub struct OptionLine {
    pub setting: Setting,
    pub text: Text,
}

/// What a load must know of a setting.
#[derive(Clone, Copy, Debug, PartialEq, Eq)]
pub enum Setting {
    /// `skip on`: packets on this interface or group pass.
    Skip(Name),
    /// `block-policy`: the kind of a plain block.
    Block(BlockKind),
    /// `state-policy`: whether states are bound to an interface.
    Bound(bool),
    /// `ruleset-optimization`
    Level(Level),
    /// All others, which change no answer.
    Other,
}

/// A setting with one member, as it is written (pf.conf(5), OPTIONS).
#[derive(Clone, Copy)]
pub enum SetForm {
    /// `skip on`
    Skip(Name),
    /// `block-policy`: `drop` or `return`.
    BlockPolicy(BlockKind),
    /// `state-policy`: true for `if-bound`, false for `floating`.
    StatePolicy(bool),
    /// `ruleset-optimization`
    RulesetOptimization(Level),
    /// `timeout`: which one, and seconds or, for `adaptive`, states.
    Timeout { name: Name, value: u32 },
    /// `limit`: of what, and how many.
    Limit { name: Name, most: u32 },
    /// `optimization`
    Optimization(Name),
    /// `debug`
    Debug(Name),
    /// `reassemble`
    Reassemble { fragments: bool, no_df: bool },
    /// `loginterface`
    LogInterface(Name),
    /// `fingerprints`
    Fingerprints(Name),
}

/// What a `table` statement declares.
#[derive(Debug, Drop)]
pub struct TableForm {
    /// A longer name is cut to 63 bytes.
    pub name: Name,
    pub persist: bool,
    pub constant: bool,
    pub counters: bool,
    /// The entries of all braces, in order. None where no braces stand.
    pub items: Option<List<TableItem>>,
    /// The names of the files, in order.
    pub files: List<Text>,
}

/// An entry in the braces of a table.
#[derive(Debug, Drop)]
pub struct TableItem {
    /// A `!` stands before it.
    pub negated: bool,
    pub word: Text,
    pub mask: Option<Text>,
}

/// What a `queue` statement declares (pf.conf(5), QUEUEING).
#[derive(Debug, Drop)]
pub struct Queue {
    pub name: Name,
    pub iface: Option<Name>,
    pub parent: Option<Name>,
    pub bandwidth: Option<Bandwidth>,
    pub min: Option<Bandwidth>,
    pub max: Option<Bandwidth>,
    pub default_queue: bool,
    /// Packets, 1 to 65535.
    pub qlimit: Option<u32>,
    /// Where the statement begins.
    pub place: Place,
}

/// How much a queue may send.
#[derive(Clone, Copy, Debug)]
pub struct Bandwidth {
    /// Bits per second.
    pub rate: u64,
    pub burst: Option<Burst>,
}

/// How much a queue may send at first.
#[derive(Clone, Copy, Debug)]
pub struct Burst {
    /// Bits per second.
    pub rate: u64,
    /// For how many milliseconds.
    pub ms: u32,
}
