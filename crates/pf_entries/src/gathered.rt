//! The words of a table's declaration, gathered: entries with their places, and the fault that decides.
ghost use Rattle.std.specs.Prelude.{◌≡◌, ◌++◌, ◌∷◌, [], map, OnOk, Some};
ghost use Rattle.pf_fault.specs.Order.{fault_at, first_of};
ghost use Rattle.pf_entries.specs.Tables.{entry_of, placed_at};

use pf_addr::Prefix;
use pf_base::{FaultKind, List, NoMemory, Place};
use pf_fault::{Fault, first_of};
use pf_table::Entry;
use std::alloc::Global;

/// An entry, and where it stands.
#[derive(Clone, Copy, Debug)]
pub struct Placed {
    pub entry: Entry,
    pub place: Place,
}

/// Entries in order, and the fault that decides among the words so far.
#[derive(Debug, Drop)]
pub struct Gathered {
    pub placed: List<Placed>,
    pub fault: Option<Fault>,
}

impl Gathered {
    ghost use Rattle.pf_entries.specs.Tables.{nothing_gathered};

    /// Nothing was read yet. Takes no memory.
    pub fn new(alloc: Global) -> Gathered
        ensures { result ≡ nothing_gathered }
    {
        Gathered {
            placed: List::new(alloc),
            fault: None,
        }
    }
}

/// Adds a fault behind those so far.
pub(crate) fn add_fault(gathered: &mut Gathered, kind: FaultKind, place: Place)
    ensures { gathered.new ≡ record gathered.old { fault = first_of gathered.old.fault (Some (fault_at kind place)) } }
{
    let fault = gathered.fault;
    gathered.fault = first_of(fault, Some(Fault { kind, place }));
}

/// Adds an entry.
pub(crate) fn add_entry(
    gathered: &mut Gathered,
    prefix: &Prefix,
    negated: bool,
    place: Place,
) -> Result<(), NoMemory>
    ensures { OnOk result (gathered.new ≡ record gathered.old { placed = gathered.old.placed ++ placed_at place (entry_of negated prefix.now) ∷ [] }) }
{
    let placed = Placed {
        entry: Entry {
            prefix: *prefix,
            negated,
        },
        place,
    };
    gathered.placed.push_copy(&placed)
}

/// Adds an entry of each prefix, in order.
pub(crate) fn add_entries(
    gathered: &mut Gathered,
    prefixes: &[Prefix],
    negated: bool,
    place: Place,
) -> Result<(), NoMemory>
    ensures { OnOk result (gathered.new ≡ record gathered.old { placed = gathered.old.placed ++ map (placed_at place) (map (entry_of negated) prefixes.now) }) }
{
    for prefix in prefixes {
        add_entry(gathered, prefix, negated, place)?;
    }
    Ok(())
}
