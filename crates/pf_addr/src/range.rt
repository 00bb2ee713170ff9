//! A range of addresses.
ghost use Rattle.std.specs.Prelude.{◌≡◌, ◌≤◌, ◌↔◌, IfOk};
ghost use Rattle.pf_addr.specs.Addr.{number, SameFamily};

use crate::addr::Addr;
use crate::stretch::Stretch;
use pf_base::{Family, Same};
use std::hash::{Hash, Hasher};

/// The addresses of one family from `low` to `high`, both among them.
#[derive(Clone, Copy, Debug)]
pub struct Range {
    pub low: Addr,
    pub high: Addr,
    pub ghost one_family: { SameFamily low high },
    pub ghost in_order: { number low ≤ number high },
}

/// Why two addresses are not the ends of a range.
#[derive(Clone, Copy, Debug, PartialEq, Eq)]
pub enum RangeFault {
    /// They are of two families.
    TwoFamilies,
    /// They are of one family, and the low end is above the high end.
    LowAboveHigh,
}

impl Range {
    ghost use Rattle.pf_addr.specs.Addr.{family_of};
    ghost use Rattle.pf_addr.specs.declared.addr.Addr.{Addr as Address};
    ghost use Rattle.pf_addr.specs.Range.{contains, HasEnds, OutOfOrder};
    ghost use Rattle.pf_addr.specs.Stretch.{IsStretch, range_stretch};
    ghost use Rattle.pf_addr.specs.Stretch as stretches;

    /// The range of these ends, which may be one address. `TwoFamilies` comes exactly where the families
    /// differ, `LowAboveHigh` exactly where they don't and the low end is above the high end.
    pub fn between(low: &Addr, high: &Addr) -> Result<Range, RangeFault>
        ensures ok { IfOk result (HasEnds low.now high.now) }
        ensures two_families { (result ≡ Err RangeFault.TwoFamilies) ↔ (SameFamily low.now high.now → ⊥) }
        ensures low_above_high { (result ≡ Err RangeFault.LowAboveHigh) ↔ OutOfOrder low.now high.now }
    {
        if !low.same_family(high) {
            return Err(RangeFault::TwoFamilies);
        }
        if low.number() > high.number() {
            return Err(RangeFault::LowAboveHigh);
        }
        Ok(Range {
            low: *low,
            high: *high,
        })
    }

    /// The family of its addresses.
    pub fn family(&self) -> Family
        ensures { result ≡ family_of self.now.low }
    {
        self.low.family()
    }

    /// Whether the address is in the range. None of the other family is.
    pub fn contains(&self, addr: &Addr) -> bool
        ensures { result ≡ contains self.now addr.now }
    {
        self.low.same_family(addr)
            && self.low.number() <= addr.number()
            && addr.number() <= self.high.number()
    }

    /// Its addresses as a stretch of their family.
    pub fn stretch(&self) -> Stretch
        ensures value { result ≡ range_stretch self.now }
        ensures kept { IsStretch result }
        ensures same { (addr : Address) → stretches.contains result addr ≡ contains self.now addr }
    {
        Stretch {
            family: self.family(),
            low: self.low.number(),
            high: self.high.number(),
        }
    }
}

impl PartialEq for Range {
    ghost use Rattle.std.specs.Cmp.{partial_equiv_from_equiv};
    ghost use Rattle.pf_addr.specs.RangeOrder.{range_eq, range_eq-equivalence};

    ghost eq = { range_eq };

    ghost laws = { partial_equiv_from_equiv range_eq-equivalence };

    fn eq(&self, other: &Range) -> bool {
        self.low == other.low && self.high == other.high
    }
}

impl Eq for Range {
    ghost use Rattle.pf_addr.specs.RangeOrder.{range_eq-equivalence};

    ghost laws = { range_eq-equivalence };
}

impl Same for Range {
    ghost use Rattle.pf_addr.specs.RangeOrder.{ranges};

    ghost equality = { ranges };

    fn same(&self, other: &Range) -> bool {
        self == other
    }
}

impl Hash for Range {
    ghost use Rattle.pf_addr.specs.RangeOrder.{range_input, range_eq-range_input};

    ghost hash_input = { range_input };

    ghost respects_eq = { range_eq-range_input };

    fn hash<H: Hasher>(&self, state: &mut H) {
        self.low.hash(state);
        self.high.hash(state);
    }
}
