//! Words against a table, and a table changed by each of them.
ghost use Rattle.std.specs.Prelude.{◌≡◌, ◌++◌, IfOk, OnOk, length};
ghost use Rattle.std.specs.List.{filter};
ghost use Rattle.pf_table.specs.Table.{table_of, entries_of};
ghost use Rattle.pf_shelf.specs.Change.{has_entry, changed, is_fresh, having, HasFront};
ghost use Rattle.pf_shelf.specs.declared.change.ChangeKind.TheVariants.{Delete};

use pf_base::NoMemory;
use pf_table::{Entry, Table};
use std::alloc::Global;

// Whether the table has the entry with its sign.
pub(crate) fn has(table: &Table, entry: &Entry) -> bool
    ensures { result ≡ has_entry table.now entry.now }
{
    match table.sign_of(&entry.prefix) {
        None => false,
        Some(negated) => negated == entry.negated,
    }
}

// The words whose prefix the table lacks.
pub(crate) fn fresh(alloc: Global, table: &Table, words: &[Entry]) -> Result<Table, NoMemory>
    ensures { IfOk result (λ fresh. fresh ≡ table_of (filter (is_fresh table.now) words.now)) }
{
    let mut fresh = Table::new(alloc);
    for word in words {
        if table.sign_of(&word.prefix).is_none() {
            fresh.add(*word)?;
        }
    }
    Ok(fresh)
}

// The words that the table has.
pub(crate) fn held(alloc: Global, table: &Table, words: &[Entry]) -> Result<Table, NoMemory>
    ensures { IfOk result (λ held. held ≡ table_of (filter (has_entry table.now) words.now)) }
{
    let mut held = Table::new(alloc);
    for word in words {
        if has(table, word) {
            held.add(*word)?;
        }
    }
    Ok(held)
}

// How many entries of the first table the second has.
pub(crate) fn common(first: &Table, second: &Table) -> Result<u64, NoMemory>
    ensures { IfOk result (λ common. common ≡ length (having first.now second.now)) }
{
    let list = first.entries()?;
    let mut common = 0;
    for entry in &list {
        if has(second, entry) {
            common += 1;
        }
    }
    Ok(common)
}

// Adds each of the words whose prefix the table lacks.
pub(crate) fn add_each(table: &mut Table, words: &[Entry]) -> Result<(), NoMemory>
    ensures ok { OnOk result (table.new ≡ table_of (entries_of table.old ++ words.now)) }
    ensures front { HasFront table.old words.now table.new }
{
    for word in words {
        table.add(*word)?;
    }
    Ok(())
}

// Removes each of the words that the table has.
pub(crate) fn remove_each(table: &mut Table, words: &[Entry])
    ensures { table.new ≡ changed Delete words.now table.old }
{
    for word in words {
        table.remove(word);
    }
}
