//! Changes of declared tables (pfctl(8), Tables).
ghost use Rattle.std.specs.Prelude.{◌≡◌, ◌≢◌, ◌≤◌, Err, IfOk, IsSome, OnErr, OnOk, is_some, true};
ghost use Rattle.std.specs.FinMap as finite;
ghost use Rattle.pf_shelf.specs.Change.{answer};
ghost use Rattle.pf_shelf.specs.Renewed.{standing};
ghost use Rattle.pf_shelf.specs.Shelf.{total};
ghost use Rattle.pf_shelf.specs.declared.change.TableFault.TheVariants.{NoMemory as none_found};
ghost use Rattle.pf_tree.specs.Meaning.{is_prepared};
ghost use Rattle.pf_state.specs.Rulesets.{count_entries, tables_in};
ghost use Rattle.pf_state.specs.Tables.{IsChanged, changed_rulesets, table_at};

use crate::at_paths::AtPaths;
use crate::judge::MOST_ENTRIES;
use crate::machine::Machine;
use pf_base::{Name, NoMemory, Path};
use pf_optim::Node;
use pf_reply::Refusal;
use pf_shelf::{ChangeKind, Counts, TableFault};
use pf_table::Entry;
use pf_tree::{Blank, Tree};
use std::alloc::Global;

/// What came of a change of a table.
#[derive(Drop)]
pub enum Changed {
    /// It was done: so many entries are new, and so many are gone.
    Done(Counts),
    /// It was refused, and changed nothing.
    Refused(Refusal),
}

// The number of the entries of all declared tables.
fn count_entries(alloc: Global, rulesets: &AtPaths<Node>) -> Result<u64, NoMemory>
    ensures { IfOk result (λ count. count ≡ count_entries rulesets.now) }
{
    let paths = rulesets.paths(alloc)?;
    let mut count = 0u64;
    for path in paths.items() {
        count = count
            .checked_add(entries_of(rulesets, path))
            .ok_or(NoMemory)?;
    }
    Ok(count)
}

// The number of the entries of the tables of one ruleset.
fn entries_of(rulesets: &AtPaths<Node>, path: &Path) -> u64
    ensures { result ≡ total (tables_in (finite.get rulesets.now path.now)) }
{
    match rulesets.get(path) {
        Some(node) => node.shelf.total(),
        None => 0,
    }
}

// The number of the entries of one table, 0 where there is none.
fn table_len(rulesets: &AtPaths<Node>, path: &Path, name: &Name) -> u64
    ensures { result ≡ finite.len (standing (table_at rulesets.now path.now name.now)) }
{
    match rulesets.get(path) {
        Some(node) => match node.shelf.find(name) {
            Some(table) => table.len(),
            None => 0,
        },
        None => 0,
    }
}

// Changes a table where it stands: the ruleset is taken out of the tree, changed, and put back.
fn change_in(
    alloc: Global,
    tree: &mut Tree<Node>,
    path: &Path,
    name: &Name,
    kind: ChangeKind,
    entries: &[Entry],
    room: u64,
) -> Result<Counts, TableFault>
    requires prepared { is_prepared tree.old path.now ≡ true }
    requires there { IsSome (finite.get (tables_in (finite.get tree.old.payloads path.now)) name.now) }
    ensures answer { result ≢ Err none_found → result ≡ answer (table_at tree.old.payloads path.now name.now) kind entries.now room }
    ensures ok { OnOk result (tree.new.payloads ≡ changed_rulesets tree.old.payloads path.now name.now kind entries.now) }
    ensures err { OnErr result (tree.new.payloads ≡ tree.old.payloads) }
{
    let mut node = Node::fresh(alloc);
    tree.install(path, &mut node);
    let answer = node.shelf.change(alloc, name, kind, entries, room);
    tree.install(path, &mut node);
    answer
}

impl Machine {
    /// Changes the table of this name of the ruleset at a path by entries, taken from the left. After NoMemory nothing has changed.
    pub fn change_table(
        &mut self,
        alloc: Global,
        path: &Path,
        name: &Name,
        kind: ChangeKind,
        entries: &[Entry],
    ) -> Result<Changed, NoMemory>
        requires { count_entries self.old.rulesets ≤ 262144 }
        ensures done { IfOk result (λ changed. IsChanged self.old path.now name.now kind entries.now self.new changed) }
        ensures err { OnErr result (self.new ≡ self.old) }
    {
        if !has_table(&self.rulesets, path, name) {
            return Ok(Changed::Refused(Refusal::TableMissing(*name)));
        }
        let all = count_entries(alloc, &self.rulesets)?;
        let others = all - table_len(&self.rulesets, path, name);
        let rulesets = &mut self.rulesets;
        rulesets.tree.prepare(alloc, &[*path])?;
        let room = MOST_ENTRIES - others;
        match change_in(alloc, &mut rulesets.tree, path, name, kind, entries, room) {
            Ok(counts) => Ok(Changed::Done(counts)),
            Err(TableFault::Missing) => Ok(Changed::Refused(Refusal::TableMissing(*name))),
            Err(TableFault::Const) => Ok(Changed::Refused(Refusal::TableConst(*name))),
            Err(TableFault::Full(count)) => {
                let after = others.checked_add(count).ok_or(NoMemory)?;
                Ok(Changed::Refused(Refusal::TablesFull(after)))
            }
            Err(TableFault::NoMemory) => Err(NoMemory),
        }
    }
}

// Whether the ruleset at a path has a table of this name.
fn has_table(rulesets: &AtPaths<Node>, path: &Path, name: &Name) -> bool
    ensures { result ≡ is_some (table_at rulesets.now path.now name.now) }
{
    match rulesets.get(path) {
        Some(node) => node.shelf.find(name).is_some(),
        None => false,
    }
}
