//! A table.
ghost use Rattle.std.specs.Prelude.{◌≡◌, ◌↔◌, IsTrue, IfOk, OnOk, OnErr, Some};
ghost use Rattle.std.specs.Prelude.{List, None, Contains};
ghost use Rattle.std.specs.FinMap as map;
ghost use Rattle.pf_addr.specs.declared.addr.Addr.{Addr as Address};
ghost use Rattle.pf_addr.specs.Prefix.{contains};
ghost use Rattle.pf_table.specs.declared.entry.Entry.{Entry as OneEntry};
ghost use Rattle.std.specs.Prelude.{map as list_map};
ghost use Rattle.std.specs.BTreeMap.{IsOrdered};
ghost use Rattle.pf_addr.specs.PrefixOrder.{prefix_cmp};
ghost use Rattle.pf_table.specs.Table.{table_of, with_entry, without_entry, entry, entries_of, narrowest, member, IsNarrowest};

use crate::entry::Entry;
use crate::node::Node;
use crate::trie::{find, narrowest, node, planted, set_sign, signs};
use pf_addr::{Addr, Prefix};
use pf_base::NoMemory;
use std::alloc::Global;
use std::collections::BTreeMap;
use std::marker::Model;

/// A table of addresses and prefixes (pf.conf(5), TABLES). Clauses see the finite map from its prefixes to
/// their signs, true for a negated one.
#[derive(Debug, Drop)]
pub struct Table {
    // Nodes stay where an entry goes, and serve its prefix again: two at most for each prefix ever added. `thin`
    // drops those of prefixes that are gone.
    nodes: Vec<Node>,
    len: u64,
}

impl Model for Table {
    ghost use Rattle.pf_table.specs.Table.{Signs, signs_code};

    ghost Value = { Signs };

    ghost coded = { signs_code };

    ghost use Rattle.pf_table.specs.Kept.{signs_in, IsKept};

    ghost view = { λ a. signs_in a.nodes.items };

    ghost invariant = { λ a. IsKept a.nodes.items a.len };
}

impl Table {
    /// The table without entries.
    pub fn new(alloc: Global) -> Table
        ensures { result ≡ map.empty }
    {
        Table {
            nodes: Vec::new(alloc),
            len: 0,
        }
    }

    /// The table of these entries: each prefix with the sign with which it first stands.
    pub fn of(alloc: Global, entries: &[Entry]) -> Result<Table, NoMemory>
        ensures { IfOk result (λ table. table ≡ table_of entries.now) }
    {
        let mut table = Table::new(alloc);
        for entry in entries {
            table.add(*entry)?;
        }
        Ok(table)
    }

    /// Another table of the same entries.
    pub fn copy(&self) -> Result<Table, NoMemory>
        ensures { IfOk result (λ table. table ≡ self.now) }
    {
        let nodes = Vec::from_slice(*self.nodes.allocator(), &self.nodes)?;
        Ok(Table {
            nodes,
            len: self.len,
        })
    }

    // The same table, without the nodes of prefixes that are gone.
    fn anew(&self) -> Result<Table, NoMemory>
        ensures { IfOk result (λ table. table ≡ self.now) }
    {
        let list = self.entries()?;
        Table::of(*self.nodes.allocator(), &list)
    }

    /// Gives room back, where it has more than four nodes for each entry and 64 besides, and where memory is found.
    /// Its entries stay.
    pub fn thin(&mut self)
        ensures { self.new ≡ self.old }
    {
        if (self.nodes.len() as u64).saturating_sub(64) / 4 <= self.len {
            return;
        }
        if let Ok(table) = self.anew() {
            *self = table;
        }
    }

    /// Adds an entry. False where its prefix is there with either sign, and then nothing changes; nor does
    /// anything change on `NoMemory`.
    pub fn add(&mut self, entry: Entry) -> Result<bool, NoMemory>
        ensures added { IfOk result (λ added. IsTrue added ↔ (map.get self.old entry.prefix ≡ None)) }
        ensures ok { OnOk result (self.new ≡ with_entry self.old entry) }
        ensures err { OnErr result (self.new ≡ self.old) }
    {
        let at = planted(&mut self.nodes, &entry.prefix)?;
        if node(&self.nodes, at).negated.is_some() {
            return Ok(false);
        }
        let Some(len) = self.len.checked_add(1) else {
            return Err(NoMemory);
        };
        set_sign(&mut self.nodes, at, Some(entry.negated));
        self.len = len;
        Ok(true)
    }

    /// Removes the entry of this prefix with this sign, and says whether it was there.
    pub fn remove(&mut self, entry: &Entry) -> bool
        ensures removed { IsTrue result ↔ (map.get self.old entry.now.prefix ≡ Some entry.now.negated) }
        ensures left { self.new ≡ without_entry self.old entry.now }
    {
        let Some(at) = find(&self.nodes, &entry.prefix) else {
            return false;
        };
        if !node(&self.nodes, at).has_sign(entry.negated) {
            return false;
        }
        set_sign(&mut self.nodes, at, None);
        self.len -= 1;
        true
    }

    /// The sign of the entry of this prefix, true for a negated one; None where the table has none. It takes no memory.
    pub fn sign_of(&self, prefix: &Prefix) -> Option<bool>
        ensures { result ≡ map.get self.now prefix.now }
    {
        match find(&self.nodes, prefix) {
            None => None,
            Some(at) => node(&self.nodes, at).negated,
        }
    }

    /// Whether the address is in the table: the longest of the entries that contain it decides by its sign.
    pub fn lookup(&self, addr: &Addr) -> bool
        ensures { result ≡ member (entries_of self.now) addr.now }
    {
        match narrowest(&self.nodes, &Prefix::of(addr)) {
            Some(negated) => !negated,
            None => false,
        }
    }

    /// Its entries: inet first, then by address, then by length.
    pub fn entries(&self) -> Result<Vec<Entry>, NoMemory>
        ensures { IfOk result (λ list. list.items ≡ entries_of self.now) }
    {
        let alloc = *self.nodes.allocator();
        let signs = signs(alloc, &self.nodes)?;
        let list = in_order(alloc, &signs)?;
        Ok(list)
    }

    /// The number of its entries.
    pub fn len(&self) -> u64
        ensures { result ≡ map.len self.now }
    {
        self.len
    }
}

// The entries of a map from prefixes to signs.
fn in_order(alloc: Global, signs: &BTreeMap<Prefix, bool>) -> Result<Vec<Entry>, NoMemory>
    ensures list { IfOk result (λ list. list.items ≡ list_map entry signs.now.entries) }
    ensures ordered { IsOrdered prefix_cmp signs.now }
{
    let list = signs
        .iter()
        .map(|(prefix, negated)| Entry {
            prefix: *prefix,
            negated: *negated,
        })
        .collect(alloc)?;
    Ok(list)
}

/// A law: what is found as the longest of the entries that contain an address is that, and nothing is found
/// only where none contains it.
pub fn the_longest_decides()
    ensures found { (entries : List OneEntry) (a : Address) (e : OneEntry) → narrowest entries a ≡ Some e → IsNarrowest entries a e }
    ensures none { (entries : List OneEntry) (a : Address) (e : OneEntry) → narrowest entries a ≡ None → Contains entries e → IsTrue (contains e.prefix a) → ⊥ }
{}
