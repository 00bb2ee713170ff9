//! `table` lines (pfctl(8), -T): the words are read first, then the table is looked for.
ghost use Rattle.std.specs.Prelude.{◌≡◌, ◌+◌, ◌≤◌, ◌++◌, [], ◌∷◌, IfOk, OnErr, count_by, vec_capacity, vec_len};
ghost use Rattle.std.specs.Option.{option_copied, option_map};
ghost use Rattle.pf_addr.specs.Grammar.{IsAddrText};
ghost use Rattle.pf_reply.specs.Replies as replies;
ghost use Rattle.pf_runs.specs.Runs.{reply_text};
ghost use Rattle.pf_engine.specs.Answering.{Adds, DoesSo, is_refused};
ghost use Rattle.pf_engine.specs.Kept.{IsKept};
ghost use Rattle.pf_engine.specs.TableLines.{ChangeDoes, TableDoes, TableTestDoes, changed_by, if_there, matched, shown_table, told};
ghost use Rattle.pf_engine.specs.WordsRead.{read_of};
ghost use Rattle.pf_state.specs.Tables.{table_at};
ghost use Rattle.pf_state.specs.Words.{IsEntryWord, ReadsAll};
ghost use Rattle.pf_table.specs.Table.{entries_of as entries_in, member};

use crate::engine::Engine;
use crate::outcome::Outcome;
use crate::shows::list_of;
use crate::telling::{refuse, reply_line, tell};
use crate::within::{put_emptied_within, put_of_within, put_replaced_within};
use pf_addr::Addr;
use pf_base::{List, Name, NoMemory, Path, Text};
use pf_eval::fewer_calls_stay_shallow;
use pf_optim::Node;
use pf_reply::{Listing, Refusal, Reply};
use pf_script::{TableAction, Words};
use pf_shelf::{ChangeKind, Counts};
use pf_state::{AtPaths, Changed, Machine, addr_of, entry_of};
use pf_table::{Entry, Table};
use std::alloc::Global;

/// The most bytes that are told of a change.
const MOST_TOLD: usize = 80;

/// What came of reading words.
#[derive(Drop)]
pub(crate) enum Items<T> {
    /// Each word is one of these.
    All(List<T>),
    /// The first word that is none.
    Not(Text),
}

// The entries that words are.
fn entries_of(alloc: Global, words: Words) -> Result<Items<Entry>, NoMemory>
    ensures { IfOk result (λ items. ReadsAll IsEntryWord words.entry (read_of items)) }
{
    let mut left = words;
    let mut entries = List::new(alloc);
    while let Some(word) = left.next_word() {
        match entry_of(word) {
            Some(entry) => entries.push(entry)?,
            None => return Ok(Items::Not(List::of(Vec::from_slice(alloc, word)?))),
        }
    }
    Ok(Items::All(entries))
}

// The addresses that words are.
fn addrs_of(alloc: Global, words: Words) -> Result<Items<Addr>, NoMemory>
    ensures { IfOk result (λ items. ReadsAll IsAddrText words.entry (read_of items)) }
{
    let mut left = words;
    let mut addrs = List::new(alloc);
    while let Some(word) = left.next_word() {
        match addr_of(word) {
            Some(addr) => addrs.push(addr)?,
            None => return Ok(Items::Not(List::of(Vec::from_slice(alloc, word)?))),
        }
    }
    Ok(Items::All(addrs))
}

// Tells what a change did, where there is room for it.
fn tell_change(out: &mut Vec<u8>, kind: ChangeKind, counts: Counts, words: u64)
    requires { vec_len out.old + 80 ≤ vec_capacity out.old }
    ensures { out.new.items ≡ out.old.items ++ reply_text (replies.reply_text (told kind counts words) ∷ []) }
{
    match kind {
        ChangeKind::Add => put_of_within(out, counts.added, words, b"added"),
        ChangeKind::Delete => put_of_within(out, counts.deleted, words, b"deleted"),
        ChangeKind::Replace => put_replaced_within(out, counts.added, counts.deleted),
        ChangeKind::Flush => put_emptied_within(out, counts.deleted),
    }
}

// Changes a table by entries. Room for the reply is made before the change, and behind it nothing can fail.
fn change(
    alloc: Global,
    machine: &mut Machine,
    path: &Path,
    name: &Name,
    kind: ChangeKind,
    entries: &[Entry],
    out: &mut Vec<u8>,
) -> Result<Outcome, NoMemory>
    requires { IsKept machine.old }
    ensures answers { IfOk result (λ outcome. Adds out.old.items out.new.items (λ bytes. DoesSo (λ does. does ≡ changed_by machine.old path.now name.now kind entries.now) machine.new bytes (is_refused outcome))) }
    ensures kept { IsKept machine.new }
    ensures err { OnErr result (machine.new ≡ machine.old) }
    ensures silent { OnErr result (out.new.items ≡ out.old.items) }
{
    fewer_calls_stay_shallow();
    out.reserve(MOST_TOLD)?;
    match machine.change_table(alloc, path, name, kind, entries)? {
        Changed::Done(counts) => {
            tell_change(out, kind, counts, entries.len() as u64);
            Ok(Outcome::Done)
        }
        Changed::Refused(refusal) => refuse(alloc, out, &refusal),
    }
}

// Changes a table by words.
fn change_by(
    alloc: Global,
    machine: &mut Machine,
    path: &Path,
    name: &Name,
    kind: ChangeKind,
    words: Words,
    out: &mut Vec<u8>,
) -> Result<Outcome, NoMemory>
    requires { IsKept machine.old }
    ensures answers { IfOk result (λ outcome. Adds out.old.items out.new.items (λ bytes. DoesSo (ChangeDoes machine.old path.now name.now kind words.entry) machine.new bytes (is_refused outcome))) }
    ensures kept { IsKept machine.new }
    ensures err { OnErr result (machine.new ≡ machine.old) }
    ensures silent { OnErr result (out.new.items ≡ out.old.items) }
{
    match entries_of(alloc, words)? {
        Items::All(entries) => change(alloc, machine, path, name, kind, entries.items(), out),
        Items::Not(word) => refuse(alloc, out, &Refusal::BadAddress(word)),
    }
}

// The table of this name of the ruleset at a path.
fn table_at<'a>(rulesets: &'a AtPaths<Node>, path: &Path, name: &Name) -> Option<&'a Table>
    ensures { option_copied result ≡ option_map (λ found. found.table) (table_at rulesets.now path.now name.now) }
{
    match rulesets.get(path) {
        Some(node) => node.shelf.find(name),
        None => None,
    }
}

// How many of the addresses are in the table.
fn count_matches(table: &Table, addrs: &[Addr]) -> u64
    ensures { result ≡ count_by (λ addr. member (entries_in table.now) addr) addrs.now }
{
    addrs.iter().filter(|addr| table.lookup(addr)).count() as u64
}

// Tells the entries of a table.
fn show_table(
    alloc: Global,
    machine: &Machine,
    path: &Path,
    name: &Name,
    out: &mut Vec<u8>,
) -> Result<Outcome, NoMemory>
    ensures answers { IfOk result (λ outcome. Adds out.old.items out.new.items (λ bytes. DoesSo (λ does. does ≡ if_there machine.now path.now name.now (shown_table machine.now path.now name.now)) machine.now bytes (is_refused outcome))) }
    ensures silent { OnErr result (out.new.items ≡ out.old.items) }
{
    let Some(table) = table_at(&machine.rulesets, path, name) else {
        return refuse(alloc, out, &Refusal::TableMissing(*name));
    };
    let entries = table.entries()?;
    tell(out, &list_of(alloc, Listing::Table, entries.as_slice())?)?;
    Ok(Outcome::Done)
}

// Tells how many of these addresses are in a table.
fn test_table(
    alloc: Global,
    machine: &Machine,
    path: &Path,
    name: &Name,
    addrs: &[Addr],
    out: &mut Vec<u8>,
) -> Result<Outcome, NoMemory>
    ensures answers { IfOk result (λ outcome. Adds out.old.items out.new.items (λ bytes. DoesSo (λ does. does ≡ if_there machine.now path.now name.now (matched machine.now path.now name.now addrs.now)) machine.now bytes (is_refused outcome))) }
    ensures silent { OnErr result (out.new.items ≡ out.old.items) }
{
    let Some(table) = table_at(&machine.rulesets, path, name) else {
        return refuse(alloc, out, &Refusal::TableMissing(*name));
    };
    let count = count_matches(table, addrs);
    let words = addrs.len() as u64;
    tell(out, &reply_line(alloc, &Reply::Matched { count, words })?)?;
    Ok(Outcome::Done)
}

// Tells how many of the addresses that words are stand in a table.
fn test_by(
    alloc: Global,
    machine: &Machine,
    path: &Path,
    name: &Name,
    words: Words,
    out: &mut Vec<u8>,
) -> Result<Outcome, NoMemory>
    ensures answers { IfOk result (λ outcome. Adds out.old.items out.new.items (λ bytes. DoesSo (TableTestDoes machine.now path.now name.now words.entry) machine.now bytes (is_refused outcome))) }
    ensures silent { OnErr result (out.new.items ≡ out.old.items) }
{
    match addrs_of(alloc, words)? {
        Items::All(addrs) => test_table(alloc, machine, path, name, addrs.items(), out),
        Items::Not(word) => refuse(alloc, out, &Refusal::BadAddress(word)),
    }
}

// Does what is to be done with a table.
fn act(
    alloc: Global,
    machine: &mut Machine,
    path: &Path,
    name: &Name,
    action: TableAction,
    out: &mut Vec<u8>,
) -> Result<Outcome, NoMemory>
    requires { IsKept machine.old }
    ensures answers { IfOk result (λ outcome. Adds out.old.items out.new.items (λ bytes. DoesSo (TableDoes machine.old path.now name.now action.entry) machine.new bytes (is_refused outcome))) }
    ensures kept { IsKept machine.new }
    ensures err { OnErr result (machine.new ≡ machine.old) }
    ensures silent { OnErr result (out.new.items ≡ out.old.items) }
{
    match action {
        TableAction::Add(words) => change_by(
            alloc,
            machine,
            path,
            name,
            ChangeKind::Add,
            words,
            out,
        ),
        TableAction::Delete(words) => {
            change_by(alloc, machine, path, name, ChangeKind::Delete, words, out)
        }
        TableAction::Replace(words) => {
            change_by(alloc, machine, path, name, ChangeKind::Replace, words, out)
        }
        TableAction::Flush => change(alloc, machine, path, name, ChangeKind::Flush, &[], out),
        TableAction::Show => show_table(alloc, machine, path, name, out),
        TableAction::Test(words) => test_by(alloc, machine, path, name, words, out),
    }
}

impl Engine {
    // Does what a `table` line says.
    pub(crate) fn table(
        &mut self,
        alloc: Global,
        path: &Path,
        name: &Name,
        action: TableAction,
        out: &mut Vec<u8>,
    ) -> Result<Outcome, NoMemory>
        ensures answers { IfOk result (λ outcome. Adds out.old.items out.new.items (λ bytes. DoesSo (TableDoes self.old path.now name.now action.entry) self.new bytes (is_refused outcome))) }
        ensures err { OnErr result (self.new ≡ self.old) }
        ensures silent { OnErr result (out.new.items ≡ out.old.items) }
    {
        act(alloc, &mut self.machine, path, name, action, out)
    }
}
