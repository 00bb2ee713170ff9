//! A shelf of tables.
ghost use Rattle.std.specs.Prelude.{◌≡◌, ◌==◌, ◌↔◌, ◌≢◌, ◌++◌, IfOk, OnOk, OnErr, Err, None, true};
ghost use Rattle.std.specs.Option.{option_copied, option_map};
ghost use Rattle.std.specs.List.{filter};
ghost use Rattle.std.specs.FinMap as map;
ghost use Rattle.pf_base.specs.OrderedMap.{map_of};
ghost use Rattle.pf_shelf.specs.Shelf.{name_cmp, total};
ghost use Rattle.pf_shelf.specs.Change.{answer, is_const, changed_at};
ghost use Rattle.pf_shelf.specs.Renewed.{declared, persists, put_kept, put_where_new, renewed};
ghost use Rattle.pf_shelf.specs.declared.change.TableFault.TheVariants.{Missing, Const, NoMemory as none_found};

use crate::alter::alter;
use crate::change::{ChangeKind, Counts, TableFault};
use crate::decl::{Shelved, TableDecl, TableFlags};
use pf_base::{Name, NoMemory, name_map_laws};
use pf_table::{Entry, Table};
use std::alloc::Global;
use std::collections::BTreeMap;
use std::marker::Model;

/// The declared tables of a ruleset (pf.conf(5), TABLES). Clauses see the finite map from their names to their flags
/// and entries.
#[derive(Debug, Drop)]
pub struct Shelf {
    tables: BTreeMap<Name, Shelved>,
    total: u64,
}

impl Model for Shelf {
    ghost use Rattle.pf_shelf.specs.Shelf.{Tables, tables_code};

    ghost Value = { Tables };

    ghost coded = { tables_code };

    ghost use Rattle.std.specs.Prelude.{◌≡◌};
    ghost use Rattle.pf_base.specs.OrderedMap.{map_of};
    ghost use Rattle.pf_shelf.specs.Shelf.{name_cmp, total as total_of};

    ghost view = { λ a. map_of name_cmp a.tables };

    ghost invariant = { λ a. a.total ≡ total_of (map_of name_cmp a.tables) };
}

// Changes one of the tables, and keeps the number of their entries.
fn change_in(
    alloc: Global,
    tables: &mut BTreeMap<Name, Shelved>,
    sum: &mut u64,
    name: &Name,
    kind: ChangeKind,
    entries: &[Entry],
    room: u64,
) -> Result<Counts, TableFault>
    requires { sum.old ≡ total (map_of name_cmp tables.old) }
    ensures missing { (result ≡ Err Missing) ↔ (map.get (map_of name_cmp tables.old) name.now ≡ None) }
    ensures constant { (result ≡ Err Const) ↔ (is_const (map.get (map_of name_cmp tables.old) name.now) ≡ true) }
    ensures answer { result ≢ Err none_found → result ≡ answer (map.get (map_of name_cmp tables.old) name.now) kind entries.now room }
    ensures ok { OnOk result (map_of name_cmp tables.new ≡ changed_at (map_of name_cmp tables.old) name.now kind entries.now) }
    ensures err { OnErr result (map_of name_cmp tables.new ≡ map_of name_cmp tables.old) }
    ensures sum { sum.new ≡ total (map_of name_cmp tables.new) }
{
    name_map_laws::<Shelved>();
    let Some(found) = tables.get_mut(name) else {
        return Err(TableFault::Missing);
    };
    if found.flags.constant {
        return Err(TableFault::Const);
    }
    let others = *sum - found.table.len();
    let counts = alter(
        alloc,
        &mut found.table,
        kind,
        entries,
        room,
        u64::MAX - others,
    )?;
    *sum = others + found.table.len();
    Ok(counts)
}

impl Shelf {
    /// The shelf without tables. It takes no memory.
    pub fn new(alloc: Global) -> Shelf
        ensures { result ≡ map.empty }
    {
        Shelf {
            tables: BTreeMap::new(alloc),
            total: 0,
        }
    }

    /// Changes the table of this name by entries, taken from the left; it may have `room` entries then (pfctl(8), Tables).
    /// `Missing` comes exactly where there is no such table, `Const` exactly where it is constant, and `Full` with the
    /// number that it would have where that is over the room. After a fault nothing has changed.
    pub fn change(
        &mut self,
        alloc: Global,
        name: &Name,
        kind: ChangeKind,
        entries: &[Entry],
        room: u64,
    ) -> Result<Counts, TableFault>
        ensures missing { (result ≡ Err Missing) ↔ (map.get self.old name.now ≡ None) }
        ensures constant { (result ≡ Err Const) ↔ (is_const (map.get self.old name.now) ≡ true) }
        ensures answer { result ≢ Err none_found → result ≡ answer (map.get self.old name.now) kind entries.now room }
        ensures ok { OnOk result (self.new ≡ changed_at self.old name.now kind entries.now) }
        ensures err { OnErr result (self.new ≡ self.old) }
    {
        change_in(
            alloc,
            &mut self.tables,
            &mut self.total,
            name,
            kind,
            entries,
            room,
        )
    }

    /// The table of this name. It takes no memory.
    pub fn find(&self, name: &Name) -> Option<&Table>
        ensures { option_copied result ≡ option_map (λ found. found.table) (map.get self.now name.now) }
    {
        name_map_laws::<Shelved>();
        match self.tables.get(name) {
            None => None,
            Some(found) => Some(&found.table),
        }
    }

    /// The flags of the table of this name. It takes no memory.
    pub fn flags(&self, name: &Name) -> Option<TableFlags>
        ensures { result ≡ option_map (λ found. found.flags) (map.get self.now name.now) }
    {
        name_map_laws::<Shelved>();
        match self.tables.get(name) {
            None => None,
            Some(found) => Some(found.flags),
        }
    }

    /// The names of its tables, in byte order.
    pub fn names(&self, alloc: Global) -> Result<Vec<Name>, NoMemory>
        ensures { IfOk result (λ names. names.items ≡ map.keys self.now) }
    {
        name_map_laws::<Shelved>();
        // The map's length is a number of the machine, which the proof of the list must know.
        let _count = self.tables.len();
        let names = self.tables.keys().copied().collect(alloc)?;
        Ok(names)
    }

    /// Whether it has no table. It takes no memory.
    pub fn is_empty(&self) -> bool
        ensures { result ≡ (map.len self.now == 0) }
    {
        name_map_laws::<Shelved>();
        self.tables.len() == 0
    }

    /// The number of entries of all its tables. It takes no memory.
    pub fn total(&self) -> u64
        ensures { result ≡ total self.now }
    {
        self.total
    }

    // Puts a table under a name that has none.
    fn put(&mut self, name: Name, shelved: Shelved) -> Result<(), NoMemory>
        ensures { OnOk result (self.new ≡ put_where_new self.old name shelved) }
    {
        name_map_laws::<Shelved>();
        if self.tables.contains_key(&name) {
            return Ok(());
        }
        let Some(sum) = self.total.checked_add(shelved.table.len()) else {
            return Err(NoMemory);
        };
        self.tables.insert(name, shelved)?;
        self.total = sum;
        Ok(())
    }

    // Keeps a table that has the persist flag under a name that has none.
    fn keep(&mut self, name: &Name, shelved: &Shelved) -> Result<(), NoMemory>
        ensures { OnOk result (self.new ≡ put_kept self.old name.now shelved.now) }
    {
        name_map_laws::<Shelved>();
        if !shelved.flags.persist || self.tables.contains_key(name) {
            return Ok(());
        }
        let table = shelved.table.copy()?;
        let flags = shelved.flags;
        self.put(*name, Shelved { flags, table })
    }

    // A declared table after a load.
    fn declared(&self, alloc: Global, decl: &TableDecl) -> Result<Shelved, NoMemory>
        ensures { IfOk result (λ shelved. shelved ≡ (declared self.now decl.now).1) }
    {
        let flags = TableFlags {
            persist: decl.persist,
            constant: decl.constant,
            counters: decl.counters,
        };
        if decl.filled {
            let table = Table::of(alloc, decl.entries.items())?;
            return Ok(Shelved { flags, table });
        }
        let table = match self.find(&decl.name) {
            None => Table::new(alloc),
            Some(table) => table.copy()?,
        };
        Ok(Shelved { flags, table })
    }

    // Puts the tables with the persist flag under names that have none.
    fn keep_on(&self, shelf: &mut Shelf) -> Result<(), NoMemory>
        ensures { OnOk result (shelf.new ≡ map.from_entries (map.entries shelf.old ++ filter persists (map.entries self.now))) }
    {
        name_map_laws::<Shelved>();
        // The map's length is a number of the machine, which the proof of the loop must know.
        let _count = self.tables.len();
        for (name, shelved) in &self.tables {
            shelf.keep(name, shelved)?;
        }
        Ok(())
    }

    /// The shelf after a load with these declarations: a table with braces or a file has the entries of these alone,
    /// one without keeps those that stand here, and one that isn't declared stays where it has the persist flag.
    /// Of two declarations of one name the first counts (pf.conf(5), TABLES).
    pub fn renew(&self, alloc: Global, decls: &[TableDecl]) -> Result<Shelf, NoMemory>
        ensures { IfOk result (λ shelf. shelf ≡ renewed self.now decls.now) }
    {
        let mut shelf = Shelf::new(alloc);
        for decl in decls {
            let shelved = self.declared(alloc, decl)?;
            shelf.put(decl.name, shelved)?;
        }
        self.keep_on(&mut shelf)?;
        Ok(shelf)
    }
}
