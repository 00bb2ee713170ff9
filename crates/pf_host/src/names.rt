//! A list of different names.
ghost use Rattle.std.specs.Prelude.{◌≡◌, ℕ, List, [], ◌∷◌, ◌++◌, true, OnOk, OnErr};
ghost use Rattle.pf_host.specs.Rows.{is_listed};

use pf_base::{Name, NoMemory};
use std::alloc::Global;
use std::collections::BTreeSet;
use std::marker::Model;

/// Names in the order in which they were added, with their set beside them. Clauses see their list.
#[derive(Debug, Drop)]
pub struct Names {
    list: Vec<Name>,
    known: BTreeSet<Name>,
}

impl Model for Names {
    ghost use Rattle.std.specs.Prelude.{◌≡◌, List, ℕ};
    ghost use Rattle.pf_host.specs.Rows.{is_key, is_listed};

    ghost Value = { List (List ℕ) };

    ghost view = { λ a. a.list.items };

    ghost invariant = { λ a. (name : List ℕ) → is_key a.known.keys name ≡ is_listed a.list.items name };
}

impl Names {
    pub(crate) fn new(alloc: Global) -> Names
        ensures { result ≡ [] }
    {
        Names {
            list: Vec::new(alloc),
            known: BTreeSet::new(alloc),
        }
    }

    pub(crate) fn items(&self) -> &[Name]
        ensures { result.now ≡ self.now }
    {
        self.list.as_slice()
    }

    pub(crate) fn push(&mut self, name: Name) -> Result<(), NoMemory>
        ensures ok { OnOk result (self.new ≡ self.old ++ name ∷ []) }
        ensures err { OnErr result (self.new ≡ self.old) }
    {
        self.list.push(name)?;
        match self.known.insert(name) {
            Ok(_) => Ok(()),
            Err(_) => {
                self.list.pop();
                Err(NoMemory)
            }
        }
    }

    pub(crate) fn has(&self, name: &Name) -> bool
        ensures { result ≡ is_listed self.now name.now }
    {
        self.known.contains(name)
    }

    // Adds the name, unless it is there.
    pub(crate) fn keep(&mut self, name: Name) -> Result<(), NoMemory>
        ensures kept { OnOk result (is_listed self.new name ≡ true) }
        ensures others { (other : List ℕ) → is_listed self.old other ≡ true → is_listed self.new other ≡ true }
    {
        if self.has(&name) {
            return Ok(());
        }
        self.push(name)
    }
}
