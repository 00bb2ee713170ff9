//! Declared tables.
use pf_base::{List, Name};
use pf_table::{Entry, Table};

/// The flags of a declared table (pf.conf(5), TABLES).
#[derive(Clone, Copy, Debug, PartialEq, Eq)]
pub struct TableFlags {
    /// It stays where a load doesn't declare it.
    pub persist: bool,
    /// Its entries can't be changed by a command.
    pub constant: bool,
    pub counters: bool,
}

/// A declared table: its flags and its entries.
#[derive(Debug, Drop)]
pub struct Shelved {
    pub flags: TableFlags,
    pub table: Table,
}

/// The declaration of a table (pf.conf(5), TABLES).
#[derive(Debug, Drop)]
pub struct TableDecl {
    pub name: Name,
    pub persist: bool,
    pub constant: bool,
    pub counters: bool,
    /// Whether it has braces or a file, also where these have no entry.
    pub filled: bool,
    pub entries: List<Entry>,
}
