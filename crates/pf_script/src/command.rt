//! The commands of a script.
use crate::words::{Record, Words};
use pf_base::{Level, List, Name, Path, Text};
use pf_token::Define;

/// How a file is loaded (pfctl(8), Loads and sessions; -o, -a, -P, -D, -f).
#[derive(Drop)]
pub struct LoadLine {
    /// How far rulesets are optimised, whatever the file sets.
    pub level: Option<Level>,
    /// The ruleset that the file fills.
    pub path: Path,
    /// The file with the counts by which rules are ordered.
    pub profile: Option<Text>,
    /// Up to 32 macros of different names.
    pub defines: List<Define>,
    /// The file.
    pub file: Text,
}

/// What is done with a table (pfctl(8), Tables). Where there are words there is at least one, and they are as written.
#[derive(Drop)]
pub enum TableAction<'a> {
    /// Adds these entries.
    Add(Words<'a>),
    /// Deletes these entries.
    Delete(Words<'a>),
    /// The table has these entries alone.
    Replace(Words<'a>),
    /// Deletes all entries.
    Flush,
    /// Shows all entries.
    Show,
    /// Tells how many of these addresses match.
    Test(Words<'a>),
}

/// What is shown (pfctl(8), Shows). A name of these paths may begin with `_`.
#[derive(Drop)]
pub enum Show {
    /// The rules of a ruleset as they are evaluated.
    Rules(Path),
    /// The rules of a ruleset as they were written.
    Written(Path),
    /// The tables of a ruleset.
    Tables(Path),
    /// The names of the rulesets right below one.
    Anchors(Path),
    /// The skip steps of a ruleset.
    Skips(Path),
    /// The queues.
    Queues,
    /// The options that are set.
    Options,
}

/// What a line of a script says.
#[derive(Drop)]
pub enum Command<'a> {
    /// Loads a file.
    Load(LoadLine),
    /// Tells what a load would do.
    Check(LoadLine),
    /// Opens a session of this name with what a file loads.
    Open(Name, LoadLine),
    /// Commits a session.
    Commit(Name),
    /// Gives a session up.
    Rollback(Name),
    /// Removes the rules of a ruleset.
    Flush(Path),
    /// Works on the table of this name, on the shelf of this ruleset.
    Table(Path, Name, TableAction<'a>),
    /// Shows what stands.
    Show(Show),
    /// Reads the host facts from a file.
    Hosts(Text),
    /// Answers a packet.
    Test(Record<'a>),
}
