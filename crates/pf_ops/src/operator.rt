//! The operators on ports, users and groups.
ghost use Rattle.std.specs.Prelude.{◌≡◌, IsTrue, ◌↔◌};
ghost use Rattle.pf_ops.specs.Numbers.{IsKept, Covers, covers, in_numbers};
ghost use Rattle.pf_ops.specs.Operator.{IsOperator, set_of};

use crate::numbers::Numbers;
use pf_base::Same;
use std::marker::Model;

/// The operators of pf.conf(5), Parameters, `port`, on the numbers a and b (or on a alone).
#[derive(Clone, Copy, Debug, PartialEq, Eq, PartialOrd, Ord)]
pub enum OpKind {
    /// `= a`
    Equal,
    /// `!= a`
    Other,
    /// `< a`
    Below,
    /// `<= a`
    UpTo,
    /// `> a`
    Above,
    /// `>= a`
    From,
    /// `a:b`, both ends included
    Within,
    /// `a><b`, strictly between the two
    Between,
    /// `a<>b`, below a or above b
    Outside,
}

/// A set of numbers from 0 to 65535. Clauses see it as the set in its one kept form.
#[derive(Clone, Copy, Debug, PartialEq, Eq, PartialOrd, Ord)]
pub struct Op16 {
    numbers: Numbers,
}

impl Model for Op16 {
    ghost use Rattle.pf_ops.specs.declared.numbers.Numbers.{Numbers as Set};
    ghost use Rattle.pf_ops.specs.Numbers.{IsKept};

    ghost Value = { Set };

    ghost view = { λ a. a.numbers };

    ghost invariant = { λ a. IsKept 65535 a.numbers };

    ghost inverse = { λ set. record { numbers = set } };
}

impl Op16 {
    /// The numbers that the operator names with `low` as a and `high` as b.
    pub fn make(kind: OpKind, low: u16, high: u16) -> Op16
        ensures numbers { IsOperator 65535 kind low high result }
        ensures value { result ≡ set_of 65535 kind low high }
    {
        Op16 {
            numbers: Numbers::make(kind, low as u32, high as u32, u16::MAX as u32),
        }
    }

    /// Whether the number is in the set.
    pub fn holds(&self, value: u16) -> bool
        ensures { result ≡ in_numbers self.now value }
    {
        self.numbers.holds(u32::from(value))
    }

    /// Whether the other set is a subset of this one. Two sets of the same numbers are one value.
    pub fn covers(&self, other: &Op16) -> bool
        ensures value { result ≡ covers self.now other.now }
        ensures subset { IsTrue result ↔ Covers 65535 self.now other.now }
        ensures one_form { Covers 65535 self.now other.now → Covers 65535 other.now self.now
            → self.now ≡ other.now }
    {
        self.numbers.covers(&other.numbers)
    }

    /// The set in the form in which it is kept.
    pub fn numbers(&self) -> Numbers
        ensures same { result ≡ self.now }
        ensures kept { IsKept 65535 self.now }
    {
        self.numbers
    }
}

/// A set of numbers from 0 to 4294967295. Clauses see it as the set in its one kept form.
#[derive(Clone, Copy, Debug, PartialEq, Eq, PartialOrd, Ord)]
pub struct Op32 {
    numbers: Numbers,
}

impl Model for Op32 {
    ghost use Rattle.pf_ops.specs.declared.numbers.Numbers.{Numbers as Set};
    ghost use Rattle.pf_ops.specs.Numbers.{IsKept};

    ghost Value = { Set };

    ghost view = { λ a. a.numbers };

    ghost invariant = { λ a. IsKept 4294967295 a.numbers };

    ghost inverse = { λ set. record { numbers = set } };
}

impl Op32 {
    /// The numbers that the operator names with `low` as a and `high` as b.
    pub fn make(kind: OpKind, low: u32, high: u32) -> Op32
        ensures numbers { IsOperator 4294967295 kind low high result }
        ensures value { result ≡ set_of 4294967295 kind low high }
    {
        Op32 {
            numbers: Numbers::make(kind, low, high, u32::MAX),
        }
    }

    /// Whether the number is in the set.
    pub fn holds(&self, value: u32) -> bool
        ensures { result ≡ in_numbers self.now value }
    {
        self.numbers.holds(value)
    }

    /// Whether the other set is a subset of this one. Two sets of the same numbers are one value.
    pub fn covers(&self, other: &Op32) -> bool
        ensures value { result ≡ covers self.now other.now }
        ensures subset { IsTrue result ↔ Covers 4294967295 self.now other.now }
        ensures one_form { Covers 4294967295 self.now other.now → Covers 4294967295 other.now self.now
            → self.now ≡ other.now }
    {
        self.numbers.covers(&other.numbers)
    }

    /// The set in the form in which it is kept.
    pub fn numbers(&self) -> Numbers
        ensures same { result ≡ self.now }
        ensures kept { IsKept 4294967295 self.now }
    {
        self.numbers
    }
}

impl Same for Op16 {
    ghost use Rattle.pf_ops.specs.Equal.{sets};

    ghost equality = { sets };

    fn same(&self, other: &Op16) -> bool {
        self.numbers.same(&other.numbers)
    }
}

impl Same for Op32 {
    ghost use Rattle.pf_ops.specs.Equal.{sets};

    ghost equality = { sets };

    fn same(&self, other: &Op32) -> bool {
        self.numbers.same(&other.numbers)
    }
}
