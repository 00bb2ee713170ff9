//! The addresses of interfaces, and the first of each family of each interface.
ghost use Rattle.std.specs.Prelude.{◌≡◌, ◌&&◌, [], ◌∷◌, ◌++◌, filter, length, map, true, IfOk, OnOk};
ghost use Rattle.std.specs.List.{list_all, list_any};
ghost use Rattle.pf_addr.specs.Addr.{same_family};
ghost use Rattle.pf_addr.specs.Prefix.{contains};
ghost use Rattle.pf_host.specs.Addresses.{first_of_each, is_beside, prefix_listed};
ghost use Rattle.pf_host.specs.Kept.{holds_own, is_chosen, is_first, shown};
ghost use Rattle.pf_host.specs.Rows.{is_listed, values_of};

use crate::entry::Entry;
use crate::index::Index;
use crate::names::Names;
use crate::row::Row;
use pf_addr::{Addr, DynIf, Masked, Prefix};
use pf_base::{List, Name, NoMemory};
use std::alloc::Global;
use std::marker::Model;

/// Addresses in the order in which they were added, and the interfaces that have some. Clauses see the list
/// of all addresses.
#[derive(Debug, Drop)]
pub struct Addresses {
    rows: Index<Entry>,
    ifaces: Names,
}

impl Model for Addresses {
    ghost use Rattle.std.specs.Prelude.{List, map};
    ghost use Rattle.pf_addr.specs.declared.parse.Masked.{Masked};
    ghost use Rattle.pf_host.specs.declared.row.Row.{Row};
    ghost use Rattle.pf_host.specs.Kept.{AreKept, shown};

    ghost Value = { List (Row Masked) };

    ghost view = { λ a. map shown a.rows };

    ghost invariant = { λ a. AreKept a.rows a.ifaces };
}

impl Entry {
    // The address, or its network.
    pub(crate) fn prefix(&self, network: bool) -> Prefix
        ensures { result ≡ prefix_listed network self.now.address }
    {
        if network {
            self.address.network
        } else {
            Prefix::of(&self.address.addr)
        }
    }

    // Whether it is asked for: with `first` only the first ones are.
    pub(crate) fn is_chosen(&self, first: bool) -> bool
        ensures { result ≡ is_chosen first self.now }
    {
        !first || self.first
    }
}

// Whether one of these is of the address's family.
fn has_family(own: &[Entry], addr: &Addr) -> bool
    ensures { result ≡ list_any (λ entry. same_family entry.address.addr addr.now) own.now }
{
    own.iter().any(|entry| entry.address.addr.same_family(addr))
}

// Whether one of the addresses is of the same interface and family.
fn has_beside(known: &Index<Entry>, iface: &Name, address: &Masked) -> bool
    ensures { result ≡ list_any (λ a. is_beside (shown a) (record { name = iface.now; value = address.now })) known.now }
{
    has_family(known.get(iface), &address.addr)
}

// Whether one of these is asked for and has the address.
fn any_chosen(own: &[Entry], what: &DynIf, addr: &Addr) -> bool
    ensures { result ≡ list_any (λ entry. is_chosen what.now.first entry
        && contains (prefix_listed what.now.network entry.address) addr.now) own.now }
{
    own.iter().any(|entry| {
        entry.is_chosen(what.first) && entry.prefix(what.network).contains(addr)
    })
}

// The prefixes of these addresses, or their networks.
pub(crate) fn prefixes_of(
    alloc: Global,
    own: &[Entry],
    network: bool,
) -> Result<List<Prefix>, NoMemory>
    ensures { IfOk result (λ prefixes. prefixes ≡ map (λ entry. prefix_listed network entry.address) own.now) }
{
    let mut prefixes = List::new(alloc);
    for entry in own {
        prefixes.push(entry.prefix(network))?;
    }
    Ok(prefixes)
}

impl Addresses {
    pub(crate) fn new(alloc: Global) -> Addresses
        ensures { result ≡ [] }
    {
        Addresses {
            rows: Index::new(alloc),
            ifaces: Names::new(alloc),
        }
    }

    pub(crate) fn len(&self) -> usize
        ensures { result ≡ length self.now }
    {
        self.rows.rows().len()
    }

    // All, in order; the first of each family of each interface are marked.
    pub(crate) fn rows(&self) -> &[Row<Entry>]
        ensures all { map shown result.now ≡ self.now }
        ensures firsts { map shown (filter is_first result.now) ≡ first_of_each self.now }
    {
        self.rows.rows()
    }

    // Those of one interface.
    pub(crate) fn own(&self, iface: &Name) -> &[Entry]
        ensures { map (λ entry. entry.address) result.now ≡ values_of self.now iface.now }
    {
        self.rows.get(iface)
    }

    // Whether the address is one that is asked for of this interface.
    pub(crate) fn holds(&self, iface: &Name, what: &DynIf, addr: &Addr) -> bool
        ensures { result ≡ holds_own self.now what.now addr.now iface.now }
    {
        any_chosen(self.rows.get(iface), what, addr)
    }

    // The interfaces that have some.
    pub(crate) fn ifaces(&self) -> &[Name]
        ensures { list_all (λ row. is_listed result.now row.name) self.now ≡ true }
    {
        self.ifaces.items()
    }

    pub(crate) fn push(
        &mut self,
        alloc: Global,
        iface: Name,
        address: Masked,
    ) -> Result<(), NoMemory>
        ensures ok { OnOk result (self.new ≡ self.old ++ (record { name = iface; value = address }) ∷ []) }
    {
        self.ifaces.keep(iface)?;
        let first = !has_beside(&self.rows, &iface, &address);
        self.rows.push(alloc, iface, Entry { address, first })?;
        Ok(())
    }
}
