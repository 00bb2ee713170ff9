//! A group of rules that differ at one end alone.
ghost use Rattle.std.specs.Prelude.{◌≡◌, ◌+◌, ◌<◌, ◌^◌, [], IfOk};
ghost use Rattle.pf_table.specs.Table.{entries_of, table_of};
ghost use Rattle.pf_auto.specs.Groups.{grown};

use pf_addr::Prefix;
use pf_base::{List, NoMemory};
use pf_table::{Entry, Table};
use std::alloc::Global;

/// The rules of a list that are equal beside the prefix at one end.
#[derive(Debug, Drop)]
pub(crate) struct Group {
    /// The place of the first, from 0.
    pub(crate) first: usize,
    /// Their weights together.
    pub(crate) weight: u64,
    /// The prefix of each of them, in order.
    pub(crate) entries: List<Entry>,
}

impl Group {
    pub(crate) fn new(alloc: Global, first: usize) -> Group
        ensures { result ≡ record { first = first; weight = 0; entries = [] } }
    {
        Group {
            first,
            weight: 0,
            entries: List::new(alloc),
        }
    }

    /// The group with one rule more.
    pub(crate) fn with(self, prefix: Prefix, weight: u64) -> Result<Group, NoMemory>
        requires { self.weight + weight < 2 ^ 64 }
        ensures { IfOk result (λ group. group ≡ grown prefix weight self) }
    {
        let mut entries = self.entries;
        entries.push(Entry {
            prefix,
            negated: false,
        })?;
        Ok(Group {
            first: self.first,
            weight: self.weight + weight,
            entries,
        })
    }

    /// Its prefixes, each once, in the order of a table.
    pub(crate) fn table(&self, alloc: Global) -> Result<List<Entry>, NoMemory>
        ensures { IfOk result (λ entries. entries ≡ entries_of (table_of self.now.entries)) }
    {
        let table = Table::of(alloc, self.entries.items())?;
        let entries = table.entries()?;
        Ok(List::of(entries))
    }
}
