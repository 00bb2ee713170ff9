//! Sets of numbers that are kept as at most two intervals.
ghost use Rattle.std.specs.Prelude.{◌≡◌, ℕ, ◌≤◌, ◌&&◌, ◌||◌, nat_le, nat_lt};
ghost use Rattle.pf_ops.specs.Numbers.{IsKept, covers, encloses, in_interval, in_numbers, lies_in};
ghost use Rattle.pf_ops.specs.Equal.{intervals, sets};
ghost use Rattle.pf_ops.specs.Operator.{IsOperator};

use crate::operator::OpKind;
use pf_base::Same;

/// The numbers from `low` to `high`, both included.
#[derive(Clone, Copy, Debug, PartialEq, Eq, PartialOrd, Ord)]
pub struct Interval {
    pub low: u32,
    pub high: u32,
}

/// A set of numbers: none, those of an interval, or those of two intervals in ascending order.
#[derive(Clone, Copy, Debug, PartialEq, Eq, PartialOrd, Ord)]
pub enum Numbers {
    Empty,
    One(Interval),
    Two(Interval, Interval),
}

impl Interval {
    /// Whether the number is in the interval.
    fn contains(&self, number: u32) -> bool
        ensures { result ≡ in_interval self.now number }
    {
        self.low <= number && number <= self.high
    }

    /// Whether both ends of the other interval lie between the ends of this one.
    fn encloses(&self, other: &Interval) -> bool
        ensures { result ≡ lies_in self.now other.now }
    {
        self.low <= other.low && other.high <= self.high
    }
}

impl Numbers {
    /// The numbers from `low` to `high`, none where `high` is lower.
    fn within(low: u32, high: u32) -> Numbers
        ensures kept { (top : ℕ) → high ≤ top → IsKept top result }
        ensures holds { (n : ℕ) → in_numbers result n ≡ (nat_le low n && nat_le n high) }
    {
        if low <= high {
            Numbers::One(Interval { low, high })
        } else {
            Numbers::Empty
        }
    }

    /// The numbers below `number`.
    fn below(number: u32) -> Numbers
        ensures kept { (top : ℕ) → number ≤ top → IsKept top result }
        ensures holds { (n : ℕ) → in_numbers result n ≡ nat_lt n number }
    {
        match number.checked_sub(1) {
            Some(high) => Numbers::within(0, high),
            None => Numbers::Empty,
        }
    }

    /// The numbers above `number`, up to `top`.
    fn above(number: u32, top: u32) -> Numbers
        ensures kept { IsKept top result }
        ensures holds { (n : ℕ) → in_numbers result n ≡ (nat_lt number n && nat_le n top) }
    {
        match number.checked_add(1) {
            Some(low) => Numbers::within(low, top),
            None => Numbers::Empty,
        }
    }

    /// The numbers strictly between the two.
    fn between(low: u32, high: u32) -> Numbers
        ensures kept { (top : ℕ) → high ≤ top → IsKept top result }
        ensures holds { (n : ℕ) → in_numbers result n ≡ (nat_lt low n && nat_lt n high) }
    {
        match (low.checked_add(1), high.checked_sub(1)) {
            (Some(first), Some(last)) => Numbers::within(first, last),
            _ => Numbers::Empty,
        }
    }

    /// The numbers up to `top` that are below `low` or above `high`.
    fn outside(low: u32, high: u32, top: u32) -> Numbers
        requires { high ≤ top }
        ensures kept { low ≤ top → IsKept top result }
        ensures holds { (n : ℕ) → n ≤ top → in_numbers result n ≡ (nat_lt n low || nat_lt high n) }
    {
        if high < low {
            Numbers::within(0, top)
        } else if low == 0 {
            Numbers::above(high, top)
        } else if high == top {
            Numbers::below(low)
        } else {
            Numbers::Two(
                Interval {
                    low: 0,
                    high: low - 1,
                },
                Interval {
                    low: high + 1,
                    high: top,
                },
            )
        }
    }

    /// The numbers up to `top` that the operator names with `low` as a and `high` as b.
    pub(crate) fn make(kind: OpKind, low: u32, high: u32, top: u32) -> Numbers
        requires low_in { low ≤ top }
        requires high_in { high ≤ top }
        ensures kept { IsKept top result }
        ensures holds { IsOperator top kind low high result }
    {
        match kind {
            OpKind::Equal => Numbers::within(low, low),
            OpKind::Other => Numbers::outside(low, low, top),
            OpKind::Below => Numbers::below(low),
            OpKind::UpTo => Numbers::within(0, low),
            OpKind::Above => Numbers::above(low, top),
            OpKind::From => Numbers::within(low, top),
            OpKind::Within => Numbers::within(low, high),
            OpKind::Between => Numbers::between(low, high),
            OpKind::Outside => Numbers::outside(low, high, top),
        }
    }

    /// Whether the number is in the set.
    pub(crate) fn holds(&self, number: u32) -> bool
        ensures { result ≡ in_numbers self.now number }
    {
        match self {
            Numbers::Empty => false,
            Numbers::One(all) => all.contains(number),
            Numbers::Two(first, last) => first.contains(number) || last.contains(number),
        }
    }

    /// Whether the interval lies in one of the set's.
    fn encloses(&self, part: &Interval) -> bool
        ensures { result ≡ encloses self.now part.now }
    {
        match self {
            Numbers::Empty => false,
            Numbers::One(all) => all.encloses(part),
            Numbers::Two(first, last) => first.encloses(part) || last.encloses(part),
        }
    }

    /// Whether each interval of the other set lies in one of this set's.
    pub(crate) fn covers(&self, other: &Numbers) -> bool
        ensures { result ≡ covers self.now other.now }
    {
        match other {
            Numbers::Empty => true,
            Numbers::One(all) => self.encloses(all),
            Numbers::Two(first, last) => self.encloses(first) && self.encloses(last),
        }
    }
}

impl Same for Interval {
    ghost equality = { intervals };

    fn same(&self, other: &Interval) -> bool {
        self.low == other.low && self.high == other.high
    }
}

impl Same for Numbers {
    ghost equality = { sets };

    fn same(&self, other: &Numbers) -> bool {
        match (self, other) {
            (Numbers::Empty, Numbers::Empty) => true,
            (Numbers::One(all), Numbers::One(second)) => all.same(second),
            (Numbers::Two(low, high), Numbers::Two(first, last)) => {
                low.same(first) && high.same(last)
            }
            _ => false,
        }
    }
}
