//! What a rule asks of the tables.
ghost use Rattle.std.specs.Prelude.{◌≡◌};

use crate::criteria::AddrSet;
use pf_addr::Addr;

/// The tables that rules name, as far as a rule asks for them.
pub trait Members {
    ghost use Rattle.std.specs.Prelude.{Bool};
    ghost use Rattle.pf_addr.specs.declared.addr.Addr.{Addr};
    ghost use Rattle.pf_rule.specs.declared.criteria.AddrSet.{AddrSet};

    ghost member: { Self → AddrSet → Addr → Bool };

    /// Whether the address is in the table, which is a [`AddrSet::Table`] or a [`AddrSet::Auto`].
    fn member(&self, what: &AddrSet, addr: &Addr) -> bool
        ensures { result ≡ member self.now what.now addr.now };
}

/// No table holds any address.
#[derive(Clone, Copy, Debug, PartialEq, Eq)]
pub struct NoTables;

impl Members for NoTables {
    ghost use Rattle.std.specs.Prelude.{false};

    ghost member = { λ tables what addr. false };

    fn member(&self, _what: &AddrSet, _addr: &Addr) -> bool {
        false
    }
}
