//! The state that a packet which passes would make (pf.conf(5), STATEFUL FILTERING).
use pf_base::Name;

/// Which state is made.
#[derive(Clone, Copy, Debug, PartialEq, Eq)]
pub enum StateKind {
    /// `no state`
    None,
    /// `keep state`
    Keep,
    /// `modulate state`
    Modulate,
    /// `synproxy state`
    Synproxy,
}

/// The options of a state. A number is from 1 to 4294967295.
#[derive(Clone, Copy, Debug, PartialEq, Eq)]
pub struct StateOptions {
    pub max: Option<u32>,
    pub source_track: Option<Track>,
    pub max_src_nodes: Option<u32>,
    pub max_src_states: Option<u32>,
    pub max_src_conn: Option<u32>,
    pub max_src_conn_rate: Option<Rate>,
    pub overload: Option<Overload>,
    pub sloppy: bool,
    pub no_sync: bool,
    pub pflow: bool,
    pub if_bound: bool,
    /// It only undoes the state policy: a rule in force never has it.
    pub floating: bool,
}

impl StateOptions {
    /// No option is given.
    pub const NONE: StateOptions = StateOptions {
        max: None,
        source_track: None,
        max_src_nodes: None,
        max_src_states: None,
        max_src_conn: None,
        max_src_conn_rate: None,
        overload: None,
        sloppy: false,
        no_sync: false,
        pflow: false,
        if_bound: false,
        floating: false,
    };
}

/// How sources are tracked.
#[derive(Clone, Copy, Debug, PartialEq, Eq)]
pub enum Track {
    /// The word `source-track` alone.
    Plain,
    Rule,
    Global,
}

/// So many connections within so many seconds.
#[derive(Clone, Copy, Debug, PartialEq, Eq)]
pub struct Rate {
    pub count: u32,
    pub seconds: u32,
}

/// The table that takes the sources that pass a limit.
#[derive(Clone, Copy, Debug, PartialEq, Eq)]
pub struct Overload {
    pub table: Name,
    pub flush: Flush,
}

/// Which states of such a source are flushed.
#[derive(Clone, Copy, Debug, PartialEq, Eq)]
pub enum Flush {
    No,
    Flush,
    Global,
}
