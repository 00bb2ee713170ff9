//! What a rule asks of the interfaces of the host.
ghost use Rattle.std.specs.Prelude.{◌≡◌};

use crate::addr::Addr;
use pf_base::{Name, Same};

/// The addresses of an interface or a group, as `(name)`, `(name:network)` and `(name:0)` of pf.conf(5).
#[derive(Clone, Copy, Debug, PartialEq, Eq)]
pub struct DynIf {
    pub name: Name,
    /// The networks in place of the addresses.
    pub network: bool,
    /// Only the first of each family of each interface.
    pub first: bool,
}

impl Same for DynIf {
    ghost use Rattle.pf_addr.specs.Dynamic.{dynamics};

    ghost equality = { dynamics };

    fn same(&self, other: &DynIf) -> bool {
        self.name.same(&other.name)
            && self.network.same(&other.network)
            && self.first.same(&other.first)
    }
}

/// The interfaces of a host, as far as a rule asks for them.
pub trait Ifaces {
    ghost use Rattle.std.specs.Prelude.{ℕ, List, Bool};
    ghost use Rattle.pf_addr.specs.declared.addr.Addr.{Addr};
    ghost use Rattle.pf_addr.specs.declared.ifaces.DynIf.{DynIf};

    ghost in_group: { Self → List ℕ → List ℕ → Bool };

    ghost dynamic: { Self → DynIf → Addr → Bool };

    /// Whether the name is the interface, or one that it goes by.
    fn in_group(&self, name: &Name, iface: &Name) -> bool
        ensures { result ≡ in_group self.now name.now iface.now };

    /// Whether the address is one of those that `what` stands for.
    fn dynamic(&self, what: &DynIf, addr: &Addr) -> bool
        ensures { result ≡ dynamic self.now what.now addr.now };
}
