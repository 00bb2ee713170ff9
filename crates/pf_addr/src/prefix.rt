//! A prefix.
ghost use Rattle.std.specs.Prelude.{◌≡◌, ◌-◌, ◌%◌, ◌^◌, ◌≤◌, ◌↔◌, IsTrue};
ghost use Rattle.pf_addr.specs.Addr.{width, number};

use crate::addr::{Addr, without_last};
use crate::stretch::Stretch;
use pf_base::{Family, Same};
use std::cmp::Ordering;
use std::hash::{Hash, Hasher};

/// The addresses of one family whose first `len` bits are those of `addr`. Its other bits are zero. Prefixes
/// stand in the order of their addresses, and at one address the shorter first.
#[derive(Clone, Copy, Debug)]
pub struct Prefix {
    pub addr: Addr,
    /// How many bits count, at most 32 of an IPv4 and 128 of an IPv6 address.
    pub len: u8,
    pub ghost fits: { len ≤ width addr },
    pub ghost no_host_bits: { number addr % 2 ^ (width addr - len) ≡ 0 },
}

impl Prefix {
    ghost use Rattle.pf_addr.specs.Prefix.{contains, covers, CoversAll, whole};
    ghost use Rattle.pf_addr.specs.Addr.{IsAddr, family_of};
    ghost use Rattle.pf_addr.specs.declared.addr.Addr.{Addr as Address};
    ghost use Rattle.pf_addr.specs.Stretch.{IsStretch, prefix_stretch};
    ghost use Rattle.pf_addr.specs.Stretch as stretches;

    /// The prefix of one address: all its bits count.
    pub fn of(addr: &Addr) -> Prefix
        ensures value { result ≡ whole addr.now }
        ensures addr { result.addr ≡ addr.now }
        ensures len { result.len ≡ width addr.now }
        ensures only { (other : Address) → IsTrue (contains result other) ↔ (other ≡ addr.now) }
    {
        Prefix {
            addr: *addr,
            len: addr.width(),
        }
    }

    /// The family of its addresses.
    pub fn family(&self) -> Family
        ensures { result ≡ family_of self.now.addr }
    {
        self.addr.family()
    }

    /// Whether the address is in the prefix. None of the other family is.
    pub fn contains(&self, addr: &Addr) -> bool
        ensures value { result ≡ contains self.now addr.now }
        ensures range { IsAddr addr.now }
    {
        let host_bits = self.addr.width() - self.len;
        let bits = addr.number();
        self.addr.width() == addr.width()
            && without_last(self.addr.number(), host_bits) == without_last(bits, host_bits)
    }

    /// Whether each address of the other prefix is in this one.
    pub fn covers(&self, other: &Prefix) -> bool
        ensures all { IsTrue result ↔ CoversAll self.now other.now }
        ensures value { result ≡ covers self.now other.now }
    {
        self.contains(&other.addr) && self.len <= other.len
    }

    /// Its addresses as a stretch of their family.
    pub fn stretch(&self) -> Stretch
        ensures value { result ≡ prefix_stretch self.now }
        ensures kept { IsStretch result }
        ensures same { (addr : Address) → stretches.contains result addr ≡ contains self.now addr }
    {
        let low = self.addr.number();
        Stretch {
            family: self.family(),
            low,
            high: low + host_mask(self.addr.width() - self.len),
        }
    }
}

// The greatest number of so many bits.
fn host_mask(bits: u8) -> u128
    requires { bits ≤ 128 }
    ensures { result ≡ 2 ^ bits - 1 }
{
    without_last(u128::MAX, 128 - bits)
}

impl PartialEq for Prefix {
    ghost use Rattle.std.specs.Cmp.{partial_equiv_from_equiv};
    ghost use Rattle.pf_addr.specs.PrefixOrder.{prefix_eq, prefix_eq-equivalence};

    ghost eq = { prefix_eq };

    ghost laws = { partial_equiv_from_equiv prefix_eq-equivalence };

    fn eq(&self, other: &Prefix) -> bool {
        self.addr == other.addr && self.len == other.len
    }
}

impl Eq for Prefix {
    ghost use Rattle.pf_addr.specs.PrefixOrder.{prefix_eq-equivalence};

    ghost laws = { prefix_eq-equivalence };
}

impl Same for Prefix {
    ghost use Rattle.pf_addr.specs.PrefixOrder.{prefixes};

    ghost equality = { prefixes };

    fn same(&self, other: &Prefix) -> bool {
        self == other
    }
}

impl Ord for Prefix {
    ghost use Rattle.std.specs.Prelude.{refl};
    ghost use Rattle.pf_addr.specs.PrefixOrder.{prefix_cmp, prefix_cmp-total, prefix_eq-prefix_cmp};

    ghost cmp = { prefix_cmp };

    ghost total = { prefix_cmp-total };

    ghost matches_partial_cmp = { λ _ _. refl };

    ghost matches_eq = { prefix_eq-prefix_cmp };

    fn cmp(&self, other: &Prefix) -> Ordering {
        self.addr.cmp(&other.addr).then(self.len.cmp(&other.len))
    }
}

impl PartialOrd for Prefix {
    ghost use Rattle.std.specs.Ordering.{as_partial_cmp};
    ghost use Rattle.pf_addr.specs.PrefixOrder.{prefix_cmp, prefix_partial_order};

    ghost partial_cmp = { as_partial_cmp prefix_cmp };

    ghost laws = { prefix_partial_order };

    fn partial_cmp(&self, other: &Prefix) -> Option<Ordering> {
        Some(self.cmp(other))
    }
}

impl Hash for Prefix {
    ghost use Rattle.pf_addr.specs.PrefixOrder.{prefix_input, prefix_eq-prefix_input};

    ghost hash_input = { prefix_input };

    ghost respects_eq = { prefix_eq-prefix_input };

    fn hash<H: Hasher>(&self, state: &mut H) {
        self.addr.hash(state);
        self.len.hash(state);
    }
}
