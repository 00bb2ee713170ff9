//! Macros and their values, pf.conf(5), MACROS.
ghost use Rattle.std.specs.Prelude.{◌≡◌, IfOk, OnOk, OnErr};
ghost use Rattle.std.specs.Cmp.Lexicographic.{slice_cmp};
ghost use Rattle.std.specs.FinMap as map;
ghost use Rattle.std.specs.Ordering.{nat_cmp};
ghost use Rattle.std.specs.Option.{option_copied};
ghost use Rattle.pf_token.specs.Macros.{value_of, values_of, with_definition};

use pf_base::{List, Name, NoMemory, Text, name_map_laws};
use std::alloc::Global;
use std::collections::BTreeMap;
use std::marker::Model;

/// A macro and its value.
#[derive(Debug, Drop)]
pub struct Define {
    pub name: Name,
    pub value: Text,
}

/// Macros with their values: those given from outside, and those that the definitions of a file gave so far. Clauses
/// see the two maps.
#[derive(Drop)]
pub struct Macros {
    given: BTreeMap<Name, Text>,
    defined: BTreeMap<Name, Text>,
}

impl Model for Macros {
    ghost use Rattle.pf_token.specs.Macros.{Table, table_code};
    ghost use Rattle.std.specs.FinMap as map;

    ghost Value = { Table };

    ghost coded = { table_code };

    ghost view = { λ a. record { given = map.from_entries a.given.entries; defined = map.from_entries a.defined.entries } };
}

/// Gives a name this value.
fn keep_value(
    alloc: Global,
    values: &mut BTreeMap<Name, Text>,
    name: Name,
    value: &[u8],
) -> Result<(), NoMemory>
    ensures kept { IfOk result (λ _. map.from_entries {R = slice_cmp nat_cmp} values.new.entries ≡ map.insert (map.from_entries {R = slice_cmp nat_cmp} values.old.entries) name value.now) }
    ensures err { OnErr result (values.new.entries ≡ values.old.entries) }
{
    name_map_laws::<Text>();
    let value = Vec::from_slice(alloc, value)?;
    values.insert(name, List::of(value))?;
    Ok(())
}

/// The value of a name among some.
fn look_up<'a>(values: &'a BTreeMap<Name, Text>, name: &Name) -> Option<&'a [u8]>
    ensures { option_copied result ≡ map.get (map.from_entries {R = slice_cmp nat_cmp} values.now.entries) name.now }
{
    name_map_laws::<Text>();
    let value = values.get(name)?;
    Some(value.items())
}

impl Macros {
    /// The macros of these definitions, which no definition of a file changes. Where two have one name, the later counts.
    pub fn new(alloc: Global, defines: &[Define]) -> Result<Macros, NoMemory>
        ensures { IfOk result (λ macros. macros ≡ values_of defines.now) }
    {
        let mut given = BTreeMap::new(alloc);
        for define in defines {
            keep_value(alloc, &mut given, define.name, define.value.items())?;
        }
        let defined = BTreeMap::new(alloc);
        Ok(Macros { given, defined })
    }

    /// What a name stands for.
    pub fn find(&self, name: &[u8]) -> Option<&[u8]>
        ensures { option_copied result ≡ value_of self.now name.now }
    {
        let name = Name::new(name)?;
        match look_up(&self.given, &name) {
            Some(value) => Some(value),
            None => look_up(&self.defined, &name),
        }
    }

    /// Adds a definition of a file. It has no effect on a name that was given from outside.
    pub fn define(&mut self, alloc: Global, name: Name, value: &[u8]) -> Result<(), NoMemory>
        ensures ok { OnOk result (self.new ≡ with_definition self.old name value.now) }
        ensures err { OnErr result (self.new ≡ self.old) }
    {
        keep_value(alloc, &mut self.defined, name, value)?;
        Ok(())
    }
}
