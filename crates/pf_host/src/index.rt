//! A list of rows that is asked for by name.
ghost use Rattle.std.specs.Prelude.{◌≡◌, ℕ, List, [], ◌∷◌, ◌++◌, if◌then◌else◌, OnOk, OnErr, IfOk};
ghost use Rattle.std.specs.List.{list_any, slice_get};
ghost use Rattle.std.specs.Str.{bytes_eq};
ghost use Rattle.pf_host.specs.Rows.{has_row, values_at, values_of};

use crate::row::Row;
use pf_base::{List, Name, NoMemory};
use std::alloc::Global;
use std::collections::BTreeMap;
use std::marker::Model;

/// Rows in the order in which they were added, with the values of each name beside them. Clauses see the
/// list of the rows.
#[derive(Debug, Drop)]
pub struct Index<T> {
    rows: Vec<Row<T>>,
    by_name: BTreeMap<Name, List<T>>,
}

impl<T> Model for Index<T> {
    ghost use Rattle.std.specs.Prelude.{◌≡◌, ℕ, List};
    ghost use Rattle.pf_host.specs.declared.row.Row.{Row};
    ghost use Rattle.pf_host.specs.Rows.{values_at, values_of};

    ghost Value = { List (Row T) };

    ghost view = { λ a. a.rows.items };

    ghost invariant = { λ a. (name : List ℕ) → values_at a.by_name.entries name ≡ values_of a.rows.items name };
}

// Adds a value to those of the name.
fn keep_value<T: Copy>(
    alloc: Global,
    by_name: &mut BTreeMap<Name, List<T>>,
    name: Name,
    value: T,
) -> Result<(), NoMemory>
    ensures ok { OnOk result ((other : List ℕ) → values_at by_name.new.entries other ≡ values_at by_name.old.entries other ++ (if bytes_eq name other then value ∷ [] else [])) }
    ensures err { OnErr result ((other : List ℕ) → values_at by_name.new.entries other ≡ values_at by_name.old.entries other) }
{
    if let Some(values) = by_name.get_mut(&name) {
        values.push(value)?;
        return Ok(());
    }
    let mut values = List::new(alloc);
    values.push(value)?;
    by_name.insert(name, values)?;
    Ok(())
}

impl<T: Copy> Index<T> {
    pub(crate) fn new(alloc: Global) -> Index<T>
        ensures { result ≡ [] }
    {
        Index {
            rows: Vec::new(alloc),
            by_name: BTreeMap::new(alloc),
        }
    }

    pub(crate) fn push(&mut self, alloc: Global, name: Name, value: T) -> Result<(), NoMemory>
        ensures ok { OnOk result (self.new ≡ self.old ++ (record { name = name; value = value }) ∷ []) }
        ensures err { OnErr result (self.new ≡ self.old) }
    {
        self.rows.push(Row { name, value })?;
        if keep_value(alloc, &mut self.by_name, name, value).is_err() {
            self.rows.pop();
            return Err(NoMemory);
        }
        Ok(())
    }

    // All rows, in order.
    pub(crate) fn rows(&self) -> &[Row<T>]
        ensures { result.now ≡ self.now }
    {
        self.rows.as_slice()
    }

    // What the rows of the name stand for.
    pub(crate) fn get(&self, name: &Name) -> &[T]
        ensures { result.now ≡ values_of self.now name.now }
    {
        match self.by_name.get(name) {
            Some(values) => values.items(),
            None => &[],
        }
    }

    // Whether the name has a row.
    pub(crate) fn has(&self, name: &Name) -> bool
        ensures { result ≡ has_row self.now name.now }
    {
        !self.get(name).is_empty()
    }

    // What the first row of the name stands for.
    pub(crate) fn first(&self, name: &Name) -> Option<T>
        ensures { result ≡ slice_get (values_of self.now name.now) 0 }
    {
        self.get(name).first().copied()
    }

    // What the rows of the name stand for, as a list.
    pub(crate) fn all(&self, alloc: Global, name: &Name) -> Result<List<T>, NoMemory>
        ensures { IfOk result (λ values. values ≡ values_of self.now name.now) }
    {
        List::copy_of(alloc, self.get(name))
    }
}

impl Index<Name> {
    // Whether a row of the name stands for this value.
    pub(crate) fn holds(&self, name: &Name, value: &Name) -> bool
        ensures { result ≡ list_any (λ held. bytes_eq held value.now) (values_of self.now name.now) }
    {
        self.get(name).contains(value)
    }
}
