//! The facts of a host and what they answer.
ghost use Rattle.std.specs.Prelude.{◌≡◌, ◌&&◌, [], filter, map, IfOk};
ghost use Rattle.std.specs.Char.{is_ascii_digit};
ghost use Rattle.std.specs.List.{list_all, list_any};
ghost use Rattle.pf_host.specs.Addresses.{prefix_listed};
ghost use Rattle.pf_host.specs.Facts.{no_facts};
ghost use Rattle.pf_host.specs.Kept.{holds_own, is_chosen};
ghost use Rattle.pf_host.specs.Meaning.{AreSaid};
ghost use Rattle.pf_host.specs.Queries as queries;

use crate::addresses::prefixes_of;
use crate::entry::Entry;
use crate::lists::Lists;
use crate::row::Row;
use pf_addr::{Addr, DynIf, Ifaces, Prefix};
use pf_base::{List, Name, NoMemory};
use std::alloc::Global;
use std::marker::Model;

/// What a facts file says of a host: its interfaces, their groups and addresses, and the names of hosts,
/// users, groups and services. Clauses see each as a list in the order of the lines.
#[derive(Debug, Drop)]
pub struct Facts {
    pub(crate) lists: Lists,
}

impl Model for Facts {
    ghost use Rattle.pf_host.specs.Facts.{HostFacts, facts_in};

    ghost Value = { HostFacts };

    ghost view = { λ a. facts_in a.lists };
}

fn ends_in_digit(name: &[u8]) -> bool
    ensures { result ≡ queries.ends_in_digit name.now }
{
    match name.last() {
        Some(byte) => byte.is_ascii_digit(),
        None => false,
    }
}

fn are_digits(text: &[u8]) -> bool
    ensures { result ≡ list_all is_ascii_digit text.now }
{
    text.iter().all(|byte| byte.is_ascii_digit())
}

// Is the name the interface's without the digits at its end?
fn is_stem(name: &[u8], iface: &[u8]) -> bool
    ensures { result ≡ queries.is_stem name.now iface.now }
{
    if !iface.starts_with(name) {
        return false;
    }
    are_digits(&iface[name.len()..]) && !ends_in_digit(name)
}

fn is_self(name: &Name) -> bool
    ensures { result ≡ queries.is_self name.now }
{
    name.bytes() == b"self".as_slice()
}

impl Facts {
    /// Nothing: what an empty file says.
    pub fn none(alloc: Global) -> Facts
        ensures value { result ≡ no_facts }
        ensures said { AreSaid [] result }
    {
        Facts {
            lists: Lists::new(alloc),
        }
    }

    /// Whether `on` with this name takes the interface (pf.conf(5)): it has the name, or has it once all digits
    /// at its end are cut off, or is a member of the group of this name.
    pub fn in_group(&self, name: &Name, iface: &Name) -> bool
        ensures { result ≡ queries.in_group self.now name.now iface.now }
    {
        *name == *iface
            || self.lists.members.holds(iface, name)
            || is_stem(name.bytes(), iface.bytes())
    }

    // Whether the interface is one that the name means.
    fn is_meant(&self, name: &Name, iface: &Name) -> bool
        ensures { result ≡ queries.is_meant self.now name.now iface.now }
    {
        is_self(name) || self.in_group(name, iface)
    }

    /// Whether the name is `self` or means some interface of the facts.
    pub fn knows(&self, name: &Name) -> bool
        ensures { result ≡ queries.knows self.now name.now }
    {
        is_self(name) || self.any_in_group(name, self.lists.interfaces.items())
    }

    // Whether one of the interfaces is in the group.
    fn any_in_group(&self, name: &Name, ifaces: &[Name]) -> bool
        ensures { result ≡ list_any (λ iface. queries.in_group self.now name.now iface) ifaces.now }
    {
        ifaces.iter().any(|iface| self.in_group(name, iface))
    }

    // The prefixes of the rows that are asked for.
    fn chosen_prefixes(
        &self,
        alloc: Global,
        rows: &[Row<Entry>],
        what: &DynIf,
    ) -> Result<List<Prefix>, NoMemory>
        ensures { IfOk result (λ prefixes. prefixes ≡ map (λ row. prefix_listed what.now.network row.value.address)
            (filter (λ row. is_chosen what.now.first row.value && queries.is_meant self.now what.now.name row.name) rows.now)) }
    {
        let mut prefixes = List::new(alloc);
        for row in rows {
            if row.value.is_chosen(what.first) && self.is_meant(&what.name, &row.name) {
                prefixes.push(row.value.prefix(what.network))?;
            }
        }
        Ok(prefixes)
    }

    /// What a name stands for where a host is wanted, in the order of the facts: the addresses of each interface
    /// that it means, with `self` of them all. `network` takes the networks instead; `first` leaves an interface
    /// one address of each family, its first (pf.conf(5), PARAMETERS, from).
    pub fn addresses(&self, alloc: Global, what: &DynIf) -> Result<List<Prefix>, NoMemory>
        ensures { IfOk result (λ prefixes. prefixes ≡ queries.addresses_of self.now what.now) }
    {
        let prefixes = self.chosen_prefixes(alloc, self.lists.addresses.rows(), what)?;
        Ok(prefixes)
    }

    /// The addresses of this interface alone, or with `network` their networks, in the order of the facts; an
    /// unknown interface has none. `antispoof` of pf.conf(5) asks for each interface by itself.
    pub fn own_addresses(
        &self,
        alloc: Global,
        iface: &Name,
        network: bool,
    ) -> Result<List<Prefix>, NoMemory>
        ensures { IfOk result (λ prefixes. prefixes ≡ queries.own_addresses self.now iface.now network) }
    {
        let prefixes = prefixes_of(alloc, self.lists.addresses.own(iface), network)?;
        Ok(prefixes)
    }

    // Whether the name means the interface and the address is one that is asked for of it.
    fn reaches(&self, iface: &Name, what: &DynIf, addr: &Addr) -> bool
        ensures { result ≡ (queries.is_meant self.now what.now.name iface.now
            && holds_own self.now.addresses what.now addr.now iface.now) }
    {
        self.is_meant(&what.name, iface) && self.lists.addresses.holds(iface, what, addr)
    }

    // Whether the address is one that is asked for of one of the interfaces.
    fn any_reaches(&self, ifaces: &[Name], what: &DynIf, addr: &Addr) -> bool
        ensures { result ≡ list_any (λ iface. queries.is_meant self.now what.now.name iface
            && holds_own self.now.addresses what.now addr.now iface) ifaces.now }
    {
        ifaces.iter().any(|iface| self.reaches(iface, what, addr))
    }

    // Whether the address is one that is asked for. Each interface is asked once.
    fn finds(&self, what: &DynIf, addr: &Addr) -> bool
        ensures { result ≡ queries.dynamic self.now what.now addr.now }
    {
        self.any_reaches(self.lists.addresses.ifaces(), what, addr)
    }

    /// The interfaces, in the order of the facts.
    pub fn interfaces(&self) -> &[Name]
        ensures { result.now ≡ queries.interfaces_of self.now }
    {
        self.lists.interfaces.items()
    }

    /// Whether the facts have such a host.
    pub fn has_host(&self, name: &Name) -> bool
        ensures { result ≡ queries.has_host self.now name.now }
    {
        self.lists.hosts.has(name)
    }

    /// What the facts say of a host: its addresses, in their order there. An unknown host has none.
    pub fn host(&self, alloc: Global, name: &Name) -> Result<List<Addr>, NoMemory>
        ensures { IfOk result (λ addresses. addresses ≡ queries.host_of self.now name.now) }
    {
        self.lists.hosts.all(alloc, name)
    }

    /// The user's number, or None exactly where the facts have no such user.
    pub fn user(&self, name: &Name) -> Option<u32>
        ensures { result ≡ queries.user_of self.now name.now }
    {
        self.lists.users.first(name)
    }

    /// The group's number, or None exactly where the facts have no such group of users.
    pub fn group(&self, name: &Name) -> Option<u32>
        ensures { result ≡ queries.group_of self.now name.now }
    {
        self.lists.groups.first(name)
    }

    /// The service's port, for TCP and UDP alike, or None exactly where the facts have no such service.
    pub fn service(&self, name: &Name) -> Option<u16>
        ensures { result ≡ queries.service_of self.now name.now }
    {
        self.lists.services.first(name)
    }
}

impl Ifaces for Facts {
    ghost use Rattle.pf_host.specs.Queries.{dynamic, in_group};

    ghost in_group = { in_group };

    ghost dynamic = { dynamic };

    fn in_group(&self, name: &Name, iface: &Name) -> bool {
        Facts::in_group(self, name, iface)
    }

    fn dynamic(&self, what: &DynIf, addr: &Addr) -> bool {
        self.finds(what, addr)
    }
}
