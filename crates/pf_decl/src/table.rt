//! `table` (pf.conf(5), GRAMMAR, `table-rule`, and TABLES).
ghost use Rattle.std.specs.Prelude.{◌≡◌, IfOk};
ghost use Rattle.pf_syntax.specs.Lists.{list_of};
ghost use Rattle.pf_syntax.specs.Taking.{Takes};
ghost use Rattle.pf_decl.specs.Tables as says;

use crate::form::{TableForm, TableItem};
use crate::keyword::TableWord;
use pf_base::{List, Name, NoMemory, Text};
use pf_syntax::host::take_table_name;
use pf_syntax::keyword::{Key, take_key};
use pf_syntax::list::{Lay, Take, take_list};
use pf_syntax::row::take_to_end;
use pf_syntax::{Cursor, Stop};
use std::alloc::Global;

const TABLE_WORDS: [Key<TableWord>; 4] = [
    Key(b"persist", TableWord::Persist),
    Key(b"const", TableWord::Const),
    Key(b"counters", TableWord::Counters),
    Key(b"file", TableWord::File),
];

// A table of which only the name is known.
fn blank_table(alloc: Global, name: Name) -> TableForm
    ensures { result ≡ says.blank_table name }
{
    TableForm {
        name,
        persist: false,
        constant: false,
        counters: false,
        items: None,
        files: List::new(alloc),
    }
}

// Takes a mask, where one stands.
#[tactic(auto, unfolding(crate::specs::Tables::mask))]
fn take_mask(cursor: &mut Cursor) -> Result<Option<Text>, Stop>
    ensures { Takes says.mask cursor.old result cursor.new }
{
    if cursor.passes_sign(b"/") {
        let bits = cursor.take_word()?;
        return Ok(Some(bits));
    }
    Ok(None)
}

// Takes an entry.
#[tactic(auto, unfolding(crate::specs::Tables::entry))]
fn take_entry(cursor: &mut Cursor) -> Result<TableItem, Stop>
    ensures { Takes says.entry cursor.old result cursor.new }
{
    let negated = cursor.passes_sign(b"!");
    let word = cursor.take_word()?;
    let mask = take_mask(cursor)?;
    Ok(TableItem {
        negated,
        word,
        mask,
    })
}

// The entries in braces.
#[derive(Clone, Copy)]
struct Entries;

impl Take<TableItem> for Entries {
    ghost grammar = { λ _. says.entry };

    fn take(&self, cursor: &mut Cursor) -> Result<TableItem, Stop> {
        take_entry(cursor)
    }
}

// Takes one entry, or one or more in braces.
fn take_some_entries(cursor: &mut Cursor) -> Result<List<TableItem>, Stop>
    ensures { Takes (list_of says.entry) cursor.old result cursor.new }
{
    take_list(&Entries, cursor)
}

// Takes entries in braces, or braces without an entry.
#[tactic(auto, unfolding(crate::specs::Tables::entries))]
fn take_entries(cursor: &mut Cursor) -> Result<List<TableItem>, Stop>
    ensures { Takes says.entries cursor.old result cursor.new }
{
    if cursor.is_at_signs(b"{", b"}") {
        cursor.take_sign(b"{")?;
        cursor.take_sign(b"}")?;
        return Ok(List::new(cursor.alloc()));
    }
    take_some_entries(cursor)
}

// The entries of braces behind those of the braces before.
fn joined(
    before: Option<List<TableItem>>,
    more: List<TableItem>,
) -> Result<List<TableItem>, NoMemory>
    ensures { IfOk result (λ items. items ≡ says.joined before more) }
{
    match before {
        None => Ok(more),
        Some(before) => {
            let mut items = before.into_items();
            let mut more = more.into_items();
            items.append(&mut more)?;
            Ok(List::of(items))
        }
    }
}

// Takes braces, and lays their entries on a table.
fn take_braces(cursor: &mut Cursor, before: TableForm) -> Result<TableForm, Stop>
    ensures { Takes (says.braces before) cursor.old result cursor.new }
{
    let more = take_entries(cursor)?;
    let mut table = before;
    let items = joined(table.items, more)?;
    table.items = Some(items);
    Ok(table)
}

// Takes the name of a file.
fn take_file(cursor: &mut Cursor) -> Result<Text, Stop>
    ensures { Takes says.file cursor.old result cursor.new }
{
    let name = cursor.take_name()?;
    let file = List::copy_of(cursor.alloc(), name.bytes())?;
    Ok(file)
}

// Takes what stands behind a keyword of a table.
#[tactic(auto, unfolding(crate::specs::Tables::table_behind))]
fn take_table_behind(
    cursor: &mut Cursor,
    word: TableWord,
    before: TableForm,
) -> Result<TableForm, Stop>
    ensures { Takes (says.table_behind word before) cursor.old result cursor.new }
{
    let mut table = before;
    match word {
        TableWord::Persist => {
            if table.persist {
                return Err(Stop::Outside);
            }
            table.persist = true;
        }
        TableWord::Const => {
            if table.constant {
                return Err(Stop::Outside);
            }
            table.constant = true;
        }
        TableWord::Counters => {
            if table.counters {
                return Err(Stop::Outside);
            }
            table.counters = true;
        }
        TableWord::File => {
            let file = take_file(cursor)?;
            table.files.push(file)?;
        }
    }
    Ok(table)
}

// Takes a keyword of a table and what stands behind it.
#[tactic(auto, unfolding(crate::specs::Tables::table_words))]
fn take_table_option(cursor: &mut Cursor, before: TableForm) -> Result<TableForm, Stop>
    ensures { Takes (says.table_option before) cursor.old result cursor.new }
{
    let word = take_key(&TABLE_WORDS, cursor)?;
    take_table_behind(cursor, word, before)
}

// Takes a part of a table.
#[tactic(auto, unfolding(crate::specs::Tables::table_part))]
fn take_table_part(cursor: &mut Cursor, before: TableForm) -> Result<TableForm, Stop>
    ensures { Takes (says.table_part before) cursor.old result cursor.new }
{
    if cursor.is_at_sign(b"{") {
        take_braces(cursor, before)
    } else {
        take_table_option(cursor, before)
    }
}

// The parts of a table.
#[derive(Clone, Copy)]
struct TableParts;

impl Lay<TableForm> for TableParts {
    ghost part = { λ _. says.table_part };

    fn lay(&self, cursor: &mut Cursor, value: TableForm) -> Result<TableForm, Stop> {
        take_table_part(cursor, value)
    }
}

/// Takes a table behind `table`.
#[tactic(auto, unfolding(crate::specs::Tables::table))]
pub fn take_table(cursor: &mut Cursor) -> Result<TableForm, Stop>
    ensures { Takes says.table cursor.old result cursor.new }
{
    cursor.take_sign(b"<")?;
    let name = take_table_name(cursor)?;
    let blank = blank_table(cursor.alloc(), name);
    take_to_end(&TableParts, cursor, blank)
}
