//! Whether two values are one, told by a test whose meaning is proved.
ghost use Rattle.std.specs.Prelude.{◌≡◌};
ghost use Rattle.std.specs.Bool.{Decides};
ghost use Rattle.pf_base.specs.Equality.{lists, numbers, options, pairs, truths};
ghost use Rattle.pf_base.specs.Kinds.{families, places};

use crate::fault::Place;
use crate::kind::Family;
use crate::list::List;
use crate::name::Name;
use crate::path::Path;

/// Values with a test that passes exactly where two of them are one.
pub trait Same {
    ghost use Rattle.pf_base.specs.Equality.{Equality};

    /// The test, and that it tells one value from another.
    ghost equality: { Equality Self };

    /// Does the test pass?
    fn same(&self, other: &Self) -> bool
        ensures { result ≡ equality.same self.now other.now };

    /// Are the two one value?
    final fn is_one_with(&self, other: &Self) -> bool
        ensures { Decides result (self.now ≡ other.now) }
    {
        self.same(other)
    }
}

impl Same for u8 {
    ghost equality = { numbers };

    fn same(&self, other: &u8) -> bool {
        *self == *other
    }
}

impl Same for u16 {
    ghost equality = { numbers };

    fn same(&self, other: &u16) -> bool {
        *self == *other
    }
}

impl Same for u32 {
    ghost equality = { numbers };

    fn same(&self, other: &u32) -> bool {
        *self == *other
    }
}

impl Same for u64 {
    ghost equality = { numbers };

    fn same(&self, other: &u64) -> bool {
        *self == *other
    }
}

impl Same for u128 {
    ghost equality = { numbers };

    fn same(&self, other: &u128) -> bool {
        *self == *other
    }
}

impl Same for bool {
    ghost equality = { truths };

    fn same(&self, other: &bool) -> bool {
        *self == *other
    }
}

impl Same for Name {
    ghost equality = { lists numbers };

    fn same(&self, other: &Name) -> bool {
        self == other
    }
}

impl Same for Path {
    ghost equality = { lists (lists numbers) };

    fn same(&self, other: &Path) -> bool {
        self == other
    }
}

impl Same for Family {
    ghost equality = { families };

    fn same(&self, other: &Family) -> bool {
        match self {
            Family::Inet => matches!(other, Family::Inet),
            Family::Inet6 => matches!(other, Family::Inet6),
        }
    }
}

impl Same for Place {
    ghost equality = { places };

    fn same(&self, other: &Place) -> bool {
        self.file.same(&other.file) && self.line.same(&other.line)
    }
}

impl<A: Same, B: Same> Same for (A, B) {
    ghost equality = { pairs A.equality B.equality };

    fn same(&self, other: &(A, B)) -> bool {
        self.0.same(&other.0) && self.1.same(&other.1)
    }
}

impl<T: Same> Same for Option<T> {
    ghost equality = { options T.equality };

    fn same(&self, other: &Option<T>) -> bool {
        match self {
            None => other.is_none(),
            Some(item) => match other {
                None => false,
                Some(second) => item.same(second),
            },
        }
    }
}

impl<T: Same> Same for List<T> {
    ghost equality = { lists T.equality };

    fn same(&self, other: &List<T>) -> bool {
        same_items(self.items(), other.items())
    }
}

/// Are the items of two slices the same, place by place, and as many? Takes no memory.
pub fn same_items<T: Same>(items: &[T], others: &[T]) -> bool
    ensures { result ≡ (lists T.equality).same items.now others.now }
{
    if items.len() != others.len() {
        return false;
    }
    for (place, item) in items.iter().enumerate() {
        if !item.same(&others[place]) {
            return false;
        }
    }
    true
}
