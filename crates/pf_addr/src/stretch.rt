//! A stretch of addresses.
ghost use Rattle.std.specs.Prelude.{◌≡◌, ◌↔◌, IsTrue};

use crate::addr::Addr;
use pf_base::Family;

/// The addresses of a family whose numbers go from `low` to `high`, both among them: what a prefix and a
/// range have in common.
#[derive(Clone, Copy, Debug, PartialEq, Eq)]
pub struct Stretch {
    pub family: Family,
    pub low: u128,
    pub high: u128,
}

impl Stretch {
    ghost use Rattle.pf_addr.specs.Stretch.{IsStretch, EnclosesAll, contains, encloses};

    /// Whether the address is in the stretch. None of the other family is.
    pub fn contains(&self, addr: &Addr) -> bool
        ensures { result ≡ contains self.now addr.now }
    {
        addr.is_of(self.family) && self.low <= addr.number() && addr.number() <= self.high
    }

    // Whether both ends of the other are between the ends of this one.
    fn spans(&self, other: &Stretch) -> bool
        ensures { result ≡ encloses self.now other.now }
    {
        self.family == other.family && self.low <= other.low && other.high <= self.high
    }

    /// Whether each address of the other stretch is in this one, where both are stretches of some addresses.
    pub fn encloses(&self, other: &Stretch) -> bool
        ensures value { result ≡ encloses self.now other.now }
        ensures all { IsStretch self.now → IsStretch other.now
            → (IsTrue result ↔ EnclosesAll self.now other.now) }
    {
        self.spans(other)
    }
}
