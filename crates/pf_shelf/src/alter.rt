//! One table changed by a command.
ghost use Rattle.std.specs.Prelude.{◌≡◌, ◌++◌, ◌≤◌, OnOk, OnErr, IfErr};
ghost use Rattle.pf_table.specs.Table.{table_of, entries_of};
ghost use Rattle.std.specs.FinMap as map;
ghost use Rattle.pf_shelf.specs.Change.{changed, counts};
ghost use Rattle.pf_shelf.specs.Altered.{IsApart, IsUnfit, Altered};
ghost use Rattle.pf_shelf.specs.declared.change.ChangeKind.TheVariants.{Add, Delete, Replace, Flush};

use crate::change::{ChangeKind, Counts, TableFault};
use crate::words::{add_each, common, fresh, held, remove_each};
use pf_base::NoMemory;
use pf_table::{Entry, Table};
use std::alloc::Global;

// Whether a table of so many entries fits the room, and the number that all tables together can have.
fn fit(count: u64, room: u64, most: u64) -> Result<(), TableFault>
    ensures room { OnOk result (count ≤ room) }
    ensures most { OnOk result (count ≤ most) }
    ensures err { IfErr result (IsUnfit count room) }
{
    if count > room {
        return Err(TableFault::Full(count));
    }
    if count > most {
        return Err(TableFault::NoMemory);
    }
    Ok(())
}

// Adds the entries of a table that has no prefix in common with the first.
fn add_all(table: &mut Table, fresh: &Table) -> Result<(), NoMemory>
    requires { IsApart table.old fresh.now }
    ensures ok { OnOk result (table.new ≡ table_of (entries_of table.old ++ entries_of fresh.now)) }
    ensures err { OnErr result (table.new ≡ table.old) }
{
    let list = fresh.entries()?;
    if add_each(table, &list).is_err() {
        remove_each(table, &list);
        return Err(NoMemory);
    }
    Ok(())
}

fn add_words(
    alloc: Global,
    table: &mut Table,
    words: &[Entry],
    room: u64,
    most: u64,
) -> Result<Counts, TableFault>
    ensures { Altered table.old (changed Add words.now table.old) room most table.new result }
{
    let fresh = fresh(alloc, table, words)?;
    let added = fresh.len();
    let Some(count) = table.len().checked_add(added) else {
        return Err(TableFault::NoMemory);
    };
    fit(count, room, most)?;
    add_all(table, &fresh)?;
    Ok(Counts { added, deleted: 0 })
}

fn delete_words(
    alloc: Global,
    table: &mut Table,
    words: &[Entry],
    room: u64,
    most: u64,
) -> Result<Counts, TableFault>
    ensures { Altered table.old (changed Delete words.now table.old) room most table.new result }
{
    let held = held(alloc, table, words)?;
    let deleted = held.len();
    fit(table.len() - deleted, room, most)?;
    remove_each(table, words);
    table.thin();
    Ok(Counts { added: 0, deleted })
}

fn replace_by(
    alloc: Global,
    table: &mut Table,
    words: &[Entry],
    room: u64,
    most: u64,
) -> Result<Counts, TableFault>
    ensures { Altered table.old (changed Replace words.now table.old) room most table.new result }
{
    let next = Table::of(alloc, words)?;
    fit(next.len(), room, most)?;
    let common = common(&next, table)?;
    let counts = Counts {
        added: next.len() - common,
        deleted: table.len() - common,
    };
    *table = next;
    Ok(counts)
}

fn flush(alloc: Global, table: &mut Table) -> Counts
    ensures after { table.new ≡ map.empty }
    ensures counts { result ≡ counts table.old map.empty }
{
    let deleted = table.len();
    *table = Table::new(alloc);
    Counts { added: 0, deleted }
}

// Changes a table, which is to have at most `most` entries for all tables together to be counted.
pub(crate) fn alter(
    alloc: Global,
    table: &mut Table,
    kind: ChangeKind,
    words: &[Entry],
    room: u64,
    most: u64,
) -> Result<Counts, TableFault>
    ensures { Altered table.old (changed kind words.now table.old) room most table.new result }
{
    match kind {
        ChangeKind::Add => add_words(alloc, table, words, room, most),
        ChangeKind::Delete => delete_words(alloc, table, words, room, most),
        ChangeKind::Replace => replace_by(alloc, table, words, room, most),
        ChangeKind::Flush => Ok(flush(alloc, table)),
    }
}
