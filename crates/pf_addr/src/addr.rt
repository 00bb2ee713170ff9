//! An address.
ghost use Rattle.std.specs.Prelude.{◌≡◌, ◌*◌, ◌/◌, ◌^◌, ◌≤◌, ◌↔◌, IsTrue};

use pf_base::{Family, Same};
use std::cmp::Ordering;
use std::hash::{Hash, Hasher};

/// An IPv4 or an IPv6 address as a number, its first byte the highest. IPv4 addresses stand before IPv6
/// addresses, and in one family the lower number stands first.
#[derive(Clone, Copy, Debug)]
pub enum Addr {
    V4(u32),
    V6(u128),
}

impl Addr {
    ghost use Rattle.pf_addr.specs.Addr.{width, number, network, IsAddr, family_of, is_of_family, same_family};

    /// The family, as `inet` and `inet6` of pf.conf(5).
    pub fn family(&self) -> Family
        ensures { result ≡ family_of self.now }
    {
        match self {
            Addr::V4(_) => Family::Inet,
            Addr::V6(_) => Family::Inet6,
        }
    }

    /// Whether the address is of this family.
    pub fn is_of(&self, family: Family) -> bool
        ensures value { result ≡ is_of_family family self.now }
        ensures same { IsTrue result ↔ (family_of self.now ≡ family) }
    {
        match (family, self) {
            (Family::Inet, Addr::V4(_)) | (Family::Inet6, Addr::V6(_)) => true,
            (Family::Inet, Addr::V6(_)) | (Family::Inet6, Addr::V4(_)) => false,
        }
    }

    /// Whether the two are of one family.
    pub fn same_family(&self, other: &Addr) -> bool
        ensures value { result ≡ same_family self.now other.now }
        ensures same { IsTrue result ↔ (family_of self.now ≡ family_of other.now) }
    {
        other.is_of(self.family())
    }

    /// How many bits an address of its family has: 32 or 128.
    pub fn width(&self) -> u8
        ensures { result ≡ width self.now }
    {
        match self {
            Addr::V4(_) => 32,
            Addr::V6(_) => 128,
        }
    }

    /// Its bits as a number, whatever its family.
    pub fn number(&self) -> u128
        ensures value { result ≡ number self.now }
        ensures range { IsAddr self.now }
    {
        match *self {
            Addr::V4(bits) => u128::from(bits),
            Addr::V6(bits) => bits,
        }
    }

    /// The address with all bits but the first `len` as zero.
    pub fn network(&self, len: u8) -> Addr
        requires { len ≤ width self.now }
        ensures { result ≡ network self.now len }
    {
        match *self {
            Addr::V4(bits) => Addr::V4(cleared(u128::from(bits), 32 - len) as u32),
            Addr::V6(bits) => Addr::V6(cleared(bits, 128 - len)),
        }
    }
}

impl PartialEq for Addr {
    ghost use Rattle.std.specs.Cmp.{partial_equiv_from_equiv};
    ghost use Rattle.pf_addr.specs.AddrOrder.{addr_eq, addr_eq-equivalence};

    ghost eq = { addr_eq };

    ghost laws = { partial_equiv_from_equiv addr_eq-equivalence };

    fn eq(&self, other: &Addr) -> bool {
        self.same_family(other) && self.number() == other.number()
    }
}

impl Eq for Addr {
    ghost use Rattle.pf_addr.specs.AddrOrder.{addr_eq-equivalence};

    ghost laws = { addr_eq-equivalence };
}

impl Same for Addr {
    ghost use Rattle.pf_addr.specs.AddrOrder.{addrs};

    ghost equality = { addrs };

    fn same(&self, other: &Addr) -> bool {
        self == other
    }
}

impl Ord for Addr {
    ghost use Rattle.std.specs.Prelude.{refl};
    ghost use Rattle.pf_addr.specs.AddrOrder.{addr_cmp, addr_cmp-total, addr_eq-addr_cmp};

    ghost cmp = { addr_cmp };

    ghost total = { addr_cmp-total };

    ghost matches_partial_cmp = { λ _ _. refl };

    ghost matches_eq = { addr_eq-addr_cmp };

    fn cmp(&self, other: &Addr) -> Ordering {
        match (self, other) {
            (Addr::V4(_), Addr::V6(_)) => Ordering::Less,
            (Addr::V6(_), Addr::V4(_)) => Ordering::Greater,
            _ => self.number().cmp(&other.number()),
        }
    }
}

impl PartialOrd for Addr {
    ghost use Rattle.std.specs.Ordering.{as_partial_cmp};
    ghost use Rattle.pf_addr.specs.AddrOrder.{addr_cmp, addr_partial_order};

    ghost partial_cmp = { as_partial_cmp addr_cmp };

    ghost laws = { addr_partial_order };

    fn partial_cmp(&self, other: &Addr) -> Option<Ordering> {
        Some(self.cmp(other))
    }
}

impl Hash for Addr {
    ghost use Rattle.std.specs.Hash as fed;
    ghost use Rattle.pf_addr.specs.AddrOrder.{addr_input, addr_eq-addr_input};

    ghost hash_input = { addr_input };

    ghost respects_eq = { addr_eq-addr_input };

    fn hash<H: Hasher>(&self, state: &mut H) {
        self.width().hash(state);
        self.number().hash(state);
    }
}

// The number without its last `count` bits.
pub(crate) fn without_last(number: u128, count: u8) -> u128
    requires { count ≤ 128 }
    ensures { result ≡ number / 2 ^ count }
{
    number.checked_shr(u32::from(count)).unwrap_or(0)
}

// The number with its last `count` bits as zero.
fn cleared(number: u128, count: u8) -> u128
    requires { count ≤ 128 }
    ensures { result ≡ number / 2 ^ count * 2 ^ count }
{
    without_last(number, count)
        .checked_shl(u32::from(count))
        .unwrap_or(0)
}
