//! Values by names.
ghost use Rattle.std.specs.Prelude.{◌≡◌, OnErr, OnOk};
ghost use Rattle.std.specs.FinMap as finite;
ghost use Rattle.std.specs.Option.{option_copied};

use pf_base::{Name, NoMemory, name_map_laws};
use std::alloc::Global;
use std::collections::BTreeMap;
use std::marker::Model;

/// Values by names. Clauses see the finite map.
#[derive(Drop)]
pub struct ByName<V> {
    pub(crate) values: BTreeMap<Name, V>,
}

impl<V> Model for ByName<V> {
    ghost use Rattle.std.specs.Coded.{coded_list, coded_ℕ};
    ghost use Rattle.std.specs.FinMap.{FinMap, code};
    ghost use Rattle.pf_base.specs.OrderedMap.{map_of};
    ghost use Rattle.pf_shelf.specs.Shelf.{name_cmp};

    ghost Value = { FinMap name_cmp V };

    ghost coded = { code (coded_list coded_ℕ) V.code };

    ghost view = { λ a. map_of name_cmp a.values };
}

impl<V: Drop> ByName<V> {
    /// No value. Takes no memory.
    pub fn new(alloc: Global) -> ByName<V>
        ensures { result ≡ finite.empty }
    {
        ByName {
            values: BTreeMap::new(alloc),
        }
    }

    /// How many there are. Takes no memory.
    pub fn count(&self) -> usize
        ensures { result ≡ finite.len self.now }
    {
        name_map_laws::<V>();
        self.values.len()
    }

    /// The value of a name, or None where there is none. Takes no memory.
    pub fn get(&self, name: &Name) -> Option<&V>
        ensures { option_copied result ≡ finite.get self.now name.now }
    {
        name_map_laws::<V>();
        self.values.get(name)
    }

    /// Puts a value under a name. After NoMemory the map is as it was, and the value is gone.
    pub fn insert(&mut self, name: Name, value: V) -> Result<(), NoMemory>
        ensures ok { OnOk result (self.new ≡ finite.insert self.old name value) }
        ensures err { OnErr result (self.new ≡ self.old) }
    {
        name_map_laws::<V>();
        self.values.insert(name, value)?;
        Ok(())
    }

    /// Takes the value of a name away. Takes no memory.
    pub fn remove(&mut self, name: &Name) -> Option<V>
        ensures value { result ≡ finite.get self.old name.now }
        ensures left { self.new ≡ finite.remove self.old name.now }
    {
        name_map_laws::<V>();
        self.values.remove(name)
    }
}
