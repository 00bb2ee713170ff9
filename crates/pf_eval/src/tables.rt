//! The tables that the rules of a ruleset name.
ghost use Rattle.std.specs.Prelude.{◌≡◌};
ghost use Rattle.std.specs.Option.{option_copied};
ghost use Rattle.pf_eval.specs.Rulesets.{entries_made, entries_named, tables_in};
ghost use Rattle.pf_optim.specs.Ruleset.{form_of};
ghost use Rattle.pf_table.specs.Table.{member};

use crate::longest::is_member;
use pf_addr::Addr;
use pf_base::Name;
use pf_optim::Node;
use pf_rule::{AddrSet, Members};

/// The tables around the rules of a ruleset: its own, then the main ruleset's, and those that the optimiser made.
#[derive(Clone, Copy)]
pub(crate) struct Tables<'a> {
    pub own: &'a Node,
    pub main: Option<&'a Node>,
}

// Whether the table of this name has the address.
fn has_named(own: &Node, main: Option<&Node>, name: &Name, addr: &Addr) -> bool
    ensures { result ≡ member (entries_named own.now.shelf (tables_in (option_copied main.entry)) name.now) addr.now }
{
    if let Some(table) = own.shelf.find(name) {
        return table.lookup(addr);
    }
    let Some(node) = main else {
        return false;
    };
    match node.shelf.find(name) {
        Some(table) => table.lookup(addr),
        None => false,
    }
}

// Whether the table that the optimiser made with this number has the address.
fn has_made(own: &Node, number: u32, addr: &Addr) -> bool
    ensures { result ≡ member (entries_made (form_of own.now.rules).tables number) addr.now }
{
    match own.rules.automatic().get(number as usize) {
        Some(made) => is_member(made.entries.items(), addr),
        None => false,
    }
}

impl Members for Tables<'_> {
    ghost use Rattle.std.specs.Option.{option_copied};
    ghost use Rattle.pf_eval.specs.Rulesets.{member_by, tables_in};
    ghost use Rattle.pf_optim.specs.Ruleset.{form_of};

    ghost member = { λ tables. member_by tables.own.now.shelf (tables_in (option_copied tables.main)) (form_of tables.own.now.rules).tables };

    fn member(&self, what: &AddrSet, addr: &Addr) -> bool {
        match what {
            AddrSet::Table(name) => has_named(self.own, self.main, name, addr),
            AddrSet::Auto(number) => has_made(self.own, *number, addr),
            AddrSet::Prefix(_) | AddrSet::Range(_) | AddrSet::Dynamic(_) => false,
        }
    }
}
