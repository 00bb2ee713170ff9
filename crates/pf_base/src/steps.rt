//! A counter of tests that only proofs read. It takes no room, and its calls do nothing at run time.
ghost use Rattle.std.specs.Prelude.{◌≡◌, ◌+◌, ℕ};
ghost use Rattle.std.specs.Borrow.{ftrue};

use std::marker::Model;

/// A ledger of tests. Clauses read the number so far as `count`, and [`Ledger::tick`] alone changes it. Code
/// that is generic over every ledger can make none, copy none and set none back.
pub trait Ledger: Drop {
    /// How many tests were counted. No test is one too many.
    ghost count: { Self → ℕ };

    /// Counts one test.
    fn tick(&mut self)
        ensures { count self.new ≡ count self.old + 1 };
}

/// Counts tests in a ledger. Clauses see the number. It can't be copied or cloned, and [`Steps::start`] alone
/// makes one, for the ledger [`Uncounted`].
#[derive(Drop)]
pub struct Steps<L: Ledger> {
    ledger: L,
}

impl<L: Ledger> Model for Steps<L> {
    ghost use Rattle.std.specs.Prelude.{ℕ};
    ghost use Rattle.std.specs.Coded.{coded_ℕ};

    ghost Value = { ℕ };

    ghost coded = { coded_ℕ };

    ghost view = { λ a. L.count a.ledger };
}

impl Steps<Uncounted> {
    /// A counter at 0, in the ledger that nobody reads. Takes no memory.
    pub fn start() -> Steps<Uncounted>
        ensures { result ≡ 0 }
    {
        Steps {
            ledger: Uncounted::new(),
        }
    }
}

impl<L: Ledger> Steps<L> {
    /// Counts one test.
    pub fn tick(&mut self)
        ensures { self.new ≡ self.old + 1 }
    {
        self.ledger.tick();
    }
}

/// The ledger of [`Steps::start`]. It keeps no number at run time.
#[derive(Drop)]
pub struct Uncounted {
    ghost number: { ℕ },
}

impl Model for Uncounted {
    ghost also_owns = { λ _. ftrue };
}

impl Uncounted {
    // The ledger at 0.
    fn new() -> Uncounted
        ensures { result.number ≡ 0 }
    {
        Uncounted {}
    }

    // The ledger that has counted one test more.
    fn next(&self) -> Uncounted
        ensures { result.number ≡ self.now.number + 1 }
    {
        Uncounted {}
    }
}

impl Ledger for Uncounted {
    ghost count = { λ ledger. ledger.number };

    fn tick(&mut self) {
        *self = self.next();
    }
}
