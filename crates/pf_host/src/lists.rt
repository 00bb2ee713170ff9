//! The lists of facts, and what a line adds to them.
ghost use Rattle.std.specs.Prelude.{◌≡◌, [], ◌++◌, true, OnOk};
ghost use Rattle.std.specs.List.{list_all};
ghost use Rattle.std.specs.Option.{option_copied};
ghost use Rattle.pf_base.specs.Name.{is_plain_name};
ghost use Rattle.pf_host.specs.declared.kind.Kind.TheVariants as Kind;
ghost use Rattle.pf_host.specs.Facts.{facts_in, no_facts};
ghost use Rattle.pf_host.specs.Meaning.{AreSaid, groups_of};
ghost use Rattle.pf_host.specs.Reading.{IsFit, TakesOr, TakesTextOr, fields_left, line_read, line_with};

use crate::addresses::Addresses;
use crate::fault::{FactsCause, LineFault};
use crate::index::Index;
use crate::names::Names;
use crate::statement::{Statement, passes_over, read_statement};
use pf_addr::{Addr, parse_addr, parse_masked};
use pf_base::text::{decimal, split_field};
use pf_base::{Name, NoMemory, plain_name};
use std::alloc::Global;

// How many lines about interfaces, and how many about their addresses, may stand.
const MOST: usize = 1024;

// The greatest port.
const MOST_PORT: u32 = 65_535;

/// The facts, each kind in the order of its lines, with what finds them by name.
#[derive(Debug, Drop)]
pub struct Lists {
    pub interfaces: Names,
    pub members: Index<Name>,
    pub addresses: Addresses,
    pub hosts: Index<Addr>,
    pub users: Index<u32>,
    pub groups: Index<u32>,
    pub services: Index<u16>,
}

impl Lists {
    // No facts.
    pub(crate) fn new(alloc: Global) -> Lists
        ensures value { facts_in result ≡ no_facts }
        ensures said { AreSaid [] (facts_in result) }
    {
        Lists {
            interfaces: Names::new(alloc),
            members: Index::new(alloc),
            addresses: Addresses::new(alloc),
            hosts: Index::new(alloc),
            users: Index::new(alloc),
            groups: Index::new(alloc),
            services: Index::new(alloc),
        }
    }

    fn add_interface(
        &mut self,
        alloc: Global,
        name: Name,
        rest: Option<&[u8]>,
    ) -> Result<(), LineFault>
        requires { list_all is_plain_name (fields_left (option_copied rest)) ≡ true }
        ensures { TakesOr result (record { kind = Kind.Interface; name = name; rest = fields_left (option_copied rest.entry) }) (facts_in self.old) (facts_in self.new) }
    {
        if self.interfaces.has(&name) {
            return Err(LineFault::Cause(FactsCause::Twice));
        }
        if self.interfaces.items().len() >= MOST {
            return Err(LineFault::Cause(FactsCause::Full));
        }
        self.interfaces.push(name)?;
        add_groups(alloc, &mut self.members, name, rest)?;
        Ok(())
    }

    fn add_address(&mut self, alloc: Global, iface: Name, word: &[u8]) -> Result<(), LineFault>
        ensures { TakesOr result (line_with Kind.Address iface word.now) (facts_in self.old) (facts_in self.new) }
    {
        if !self.interfaces.has(&iface) {
            return Err(LineFault::Cause(FactsCause::Unknown));
        }
        let Ok(address) = parse_masked(word) else {
            return Err(LineFault::Cause(FactsCause::BadAddress));
        };
        if self.addresses.len() >= MOST {
            return Err(LineFault::Cause(FactsCause::Full));
        }
        self.addresses.push(alloc, iface, address)?;
        Ok(())
    }

    fn add_host(&mut self, alloc: Global, name: Name, word: &[u8]) -> Result<(), LineFault>
        ensures { TakesOr result (line_with Kind.Host name word.now) (facts_in self.old) (facts_in self.new) }
    {
        let Ok(addr) = parse_addr(word) else {
            return Err(LineFault::Cause(FactsCause::BadAddress));
        };
        self.hosts.push(alloc, name, addr)?;
        Ok(())
    }

    fn add_user(&mut self, alloc: Global, name: Name, word: &[u8]) -> Result<(), LineFault>
        ensures { TakesOr result (line_with Kind.User name word.now) (facts_in self.old) (facts_in self.new) }
    {
        if self.users.has(&name) {
            return Err(LineFault::Cause(FactsCause::Twice));
        }
        let Some(number) = decimal(word, u32::MAX) else {
            return Err(LineFault::Cause(FactsCause::BadNumber));
        };
        self.users.push(alloc, name, number)?;
        Ok(())
    }

    fn add_group(&mut self, alloc: Global, name: Name, word: &[u8]) -> Result<(), LineFault>
        ensures { TakesOr result (line_with Kind.Group name word.now) (facts_in self.old) (facts_in self.new) }
    {
        if self.groups.has(&name) {
            return Err(LineFault::Cause(FactsCause::Twice));
        }
        let Some(number) = decimal(word, u32::MAX) else {
            return Err(LineFault::Cause(FactsCause::BadNumber));
        };
        self.groups.push(alloc, name, number)?;
        Ok(())
    }

    fn add_service(&mut self, alloc: Global, name: Name, word: &[u8]) -> Result<(), LineFault>
        ensures { TakesOr result (line_with Kind.Service name word.now) (facts_in self.old) (facts_in self.new) }
    {
        if self.services.has(&name) {
            return Err(LineFault::Cause(FactsCause::Twice));
        }
        let Some(number) = decimal(word, MOST_PORT) else {
            return Err(LineFault::Cause(FactsCause::BadNumber));
        };
        self.services.push(alloc, name, number as u16)?;
        Ok(())
    }

    fn add(&mut self, alloc: Global, statement: &Statement<'_>) -> Result<(), LineFault>
        requires { IsFit statement.now }
        ensures { TakesOr result (line_read statement.now) (facts_in self.old) (facts_in self.new) }
    {
        match *statement {
            Statement::Interface(name, rest) => self.add_interface(alloc, name, rest),
            Statement::Address(name, word) => self.add_address(alloc, name, word),
            Statement::Host(name, word) => self.add_host(alloc, name, word),
            Statement::User(name, word) => self.add_user(alloc, name, word),
            Statement::Group(name, word) => self.add_group(alloc, name, word),
            Statement::Service(name, word) => self.add_service(alloc, name, word),
        }
    }

    // Adds what a line of the text says.
    pub(crate) fn add_line(&mut self, alloc: Global, text: &[u8]) -> Result<(), LineFault>
        ensures { TakesTextOr result text.now (facts_in self.old) (facts_in self.new) }
    {
        if passes_over(text) {
            return Ok(());
        }
        match read_statement(text) {
            Some(statement) => self.add(alloc, &statement),
            None => Err(LineFault::Cause(FactsCause::BadLine)),
        }
    }
}

// Adds the groups of an interface.
fn add_groups(
    alloc: Global,
    members: &mut Index<Name>,
    iface: Name,
    rest: Option<&[u8]>,
) -> Result<(), NoMemory>
    requires { list_all is_plain_name (fields_left (option_copied rest)) ≡ true }
    ensures { OnOk result (members.new ≡ members.old ++ groups_of iface (fields_left (option_copied rest.entry))) }
{
    let mut next = rest;
    while let Some(text) = next {
        let (word, behind) = split_field(text);
        let Some(group) = plain_name(word) else {
            unreachable!();
        };
        members.push(alloc, iface, group)?;
        next = behind;
    }
    Ok(())
}
