//! Declarations of tables (pf.conf(5), TABLES).
ghost use Rattle.std.specs.Prelude.{◌≡◌, ℕ, ◌<◌, ◌≤◌, ◌∷◌, [], All, true, length, IfOk, OnOk, Contains, IfErr, List as Items};
ghost use Rattle.std.specs.List.{flat_map, list_all};
ghost use Rattle.std.specs.Option.{option_copied};
ghost use Rattle.pf_source.specs.Told.{Told, file_of};
ghost use Rattle.pf_lexer.specs.Calls.{AsksAndReads};
ghost use Rattle.pf_host.specs.Facts.{HostFacts};
ghost use Rattle.pf_fault.specs.Stops.{StopWithin};
ghost use Rattle.pf_fault.specs.Stops.{UnlessShort, unread_in};
ghost use Rattle.pf_entries.specs.Tables as says;
ghost use Rattle.pf_entries.specs.Tables.{Gathers, IsJudged, file_in, item_at, item_has_word, nothing_gathered, written_in};

use crate::file_words::add_file;
use crate::gathered::{Gathered, add_entries, add_fault};
use crate::settle::settle;
use crate::table_files::read_files;
use pf_base::{FaultKind, List, Name, NoMemory, Place};
use pf_decl::{TableForm, TableItem};
use pf_fault::{Fault, Stop, first_of};
use pf_host::Facts;
use pf_lexer::{ReadFile, Reads};
use pf_shelf::TableDecl;
use pf_source::Files;
use pf_table::Entry;
use pf_word::{ExpandFault, host_prefixes, is_table_name};
use std::alloc::Global;

// The items in braces, where there are any.
fn items_of(form: &TableForm) -> &[TableItem]
    ensures { result.now ≡ says.items_of form.now }
{
    match &form.items {
        None => &[],
        Some(items) => items.items(),
    }
}

/// Whether each word in braces has at least one byte. Takes no memory.
pub fn has_words(form: &TableForm) -> bool
    ensures { result ≡ says.has_words form.now }
{
    items_of(form)
        .iter()
        .all(|item| 1 <= item.word.items().len())
}

// The mask of an item, where one is written.
fn mask_of(item: &TableItem) -> Option<&[u8]>
    ensures { option_copied result ≡ item.now.mask }
{
    match &item.mask {
        None => None,
        Some(text) => Some(text.items()),
    }
}

// Adds what an item in braces means.
fn add_item(
    gathered: &mut Gathered,
    alloc: Global,
    item: &TableItem,
    place: Place,
    facts: &Facts,
) -> Result<(), NoMemory>
    requires { item_has_word item.now ≡ true }
    ensures { OnOk result (Gathers facts.now (item_at place item.now ∷ []) gathered.old gathered.new) }
{
    match host_prefixes(alloc, item.word.items(), mask_of(item), facts) {
        Ok(prefixes) => add_entries(gathered, prefixes.items(), item.negated, place),
        Err(ExpandFault::Kind(kind)) => {
            add_fault(gathered, kind, place);
            Ok(())
        }
        Err(ExpandFault::NoMemory) => Err(NoMemory),
    }
}

// Adds what the items in braces mean.
fn add_items(
    gathered: &mut Gathered,
    alloc: Global,
    items: &[TableItem],
    place: Place,
    facts: &Facts,
) -> Result<(), NoMemory>
    requires { list_all item_has_word items.now ≡ true }
    ensures { OnOk result (Gathers facts.now (says.items_at place items.now) gathered.old gathered.new) }
{
    for item in items {
        add_item(gathered, alloc, item, place, facts)?;
    }
    Ok(())
}

// Adds what the files mean.
fn add_files(gathered: &mut Gathered, files: &[ReadFile]) -> Result<(), NoMemory>
    requires { All (λ file. length file.text ≤ 4194304) files.now }
    ensures { OnOk result ((facts : HostFacts) → Gathers facts (flat_map file_in files.now) gathered.old gathered.new) }
{
    for file in files {
        add_file(gathered, file)?;
    }
    Ok(())
}

// All that a declaration and its files say.
fn gather(
    alloc: Global,
    form: &TableForm,
    place: Place,
    facts: &Facts,
    files: &[ReadFile],
) -> Result<Gathered, NoMemory>
    requires words { says.has_words form.now ≡ true }
    requires short { All (λ file. length file.text ≤ 4194304) files.now }
    ensures { IfOk result (λ all. Gathers facts.now (written_in form.now place files.now) nothing_gathered all) }
{
    let mut gathered = Gathered::new(alloc);
    add_items(&mut gathered, alloc, items_of(form), place, facts)?;
    add_files(&mut gathered, files)?;
    Ok(gathered)
}

fn is_declared(tables: &[TableDecl], name: &Name) -> bool
    ensures { result ≡ says.is_declared tables.now name.now }
{
    tables
        .iter()
        .any(|table| table.name.bytes() == name.bytes())
}

// A fault of this kind, where it is so.
fn where_so(is: bool, kind: FaultKind, place: Place) -> Option<Fault>
    ensures { result ≡ says.where_so is kind place }
{
    if is {
        Some(Fault { kind, place })
    } else {
        None
    }
}

// The fault of the declaration beside its words and its conflict.
fn name_fault(tables: &[TableDecl], form: &TableForm, place: Place) -> Option<Fault>
    ensures { result ≡ says.name_fault tables.now form.now place }
{
    let twice = where_so(
        is_declared(tables, &form.name),
        FaultKind::TableTwice,
        place,
    );
    let named = where_so(!is_table_name(&form.name), FaultKind::TableName, place);
    first_of(twice, named)
}

// The declaration with these entries.
fn declared_with(form: TableForm, entries: List<Entry>) -> TableDecl
    ensures { result ≡ says.declared_with form entries }
{
    let filled = form.items.is_some() || 1 <= form.files.items().len();
    TableDecl {
        name: form.name,
        persist: form.persist,
        constant: form.constant,
        counters: form.counters,
        filled,
        entries,
    }
}

// What a declaration whose files were read comes to.
fn settled(
    alloc: Global,
    form: TableForm,
    place: Place,
    facts: &Facts,
    tables: &[TableDecl],
    files: &[ReadFile],
) -> Result<TableDecl, Stop>
    requires words { says.has_words form ≡ true }
    requires short { All (λ file. length file.text ≤ 4194304) files.now }
    ensures means { UnlessShort (IsJudged facts.now tables.now form place files.now) result }
    ensures reads { unread_in result ≡ [] }
{
    let all = gather(alloc, &form, place, facts, files)?;
    let before = first_of(all.fault, name_fault(tables, &form, place));
    match settle(alloc, all.placed.items())? {
        Err(at) => {
            let conflict = Some(Fault {
                kind: FaultKind::TableConflict,
                place: at,
            });
            fault_or(first_of(before, conflict), form, List::new(alloc))
        }
        Ok(entries) => fault_or(before, form, entries),
    }
}

// The fault, or the declaration.
fn fault_or(fault: Option<Fault>, form: TableForm, entries: List<Entry>) -> Result<TableDecl, Stop>
    ensures { result ≡ says.answer_with fault (says.declared_with form entries) }
{
    match fault {
        Some(fault) => Err(Stop::Fault(fault)),
        None => Ok(declared_with(form, entries)),
    }
}

// The same: its fault stands at the statement or in one of the files.
fn judge(
    alloc: Global,
    form: TableForm,
    place: Place,
    facts: &Facts,
    tables: &[TableDecl],
    files: &[ReadFile],
) -> Result<TableDecl, Stop>
    requires words { says.has_words form ≡ true }
    requires short { All (λ file. length file.text ≤ 4194304) files.now }
    ensures means { UnlessShort (IsJudged facts.now tables.now form place files.now) result }
    ensures within { (count : ℕ) → place.file < count → All (λ file. file.number < count) files.now → StopWithin count result }
    ensures reads { unread_in result ≡ [] }
{
    settled(alloc, form, place, facts, tables, files)
}

/// The table that a declaration at this place makes, behind the tables that its unit has declared (pf.conf(5), TABLES). Its files
/// are read first, in order: the first that can't be is `Unread`, or `TooLarge` at its line 0. Then words and files are judged
/// together; `TableConflict` comes at the first entry whose prefix an earlier one has with the other sign, braces before files.
pub fn read_table<F: Files>(
    alloc: Global,
    files: &mut F,
    reads: &mut Reads,
    facts: &Facts,
    tables: &[TableDecl],
    form: TableForm,
    place: Place,
) -> Result<TableDecl, Stop>
    requires words { says.has_words form ≡ true }
    requires place { place.file < length reads.old.names }
    ensures means { Told (F.tells files.old).held (λ held. says.MayCome (file_of held) facts.now tables.now form place reads.old result reads.new) }
    ensures asks { AsksAndReads (unread_in result) (F.tells files.old) (F.tells files.new) reads.old reads.new }
    ensures asked { IfErr result (λ stop. (other : Items ℕ) → stop ≡ Stop.Unread other → Contains form.files other) }
    ensures within { StopWithin (length reads.new.names) result }
{
    let read = read_files(alloc, files, reads, form.files.items())?;
    judge(alloc, form, place, facts, tables, read.items())
}
