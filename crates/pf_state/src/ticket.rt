//! Tickets.
ghost use Rattle.std.specs.Prelude.{◌≡◌, ◌==◌};

use pf_tree::Blank;
use std::alloc::Global;
use std::marker::Model;

/// The number by which a load, a session or a flush began a ruleset (pf(4), DIOCXBEGIN); 0 stands for none. Clauses see it.
#[derive(Debug, Drop)]
pub struct Ticket {
    number: u64,
}

impl Model for Ticket {
    ghost use Rattle.std.specs.Prelude.{ℕ};

    ghost Value = { ℕ };

    ghost view = { λ a. a.number };
}

impl Ticket {
    /// The ticket with this number.
    pub fn new(number: u64) -> Ticket
        ensures { result ≡ number }
    {
        Ticket { number }
    }

    /// Its number.
    pub fn number(&self) -> u64
        ensures { result ≡ self.now }
    {
        self.number
    }
}

impl Blank for Ticket {
    ghost is_blank = { λ ticket. ticket == 0 };

    fn fresh(_alloc: Global) -> Ticket {
        Ticket { number: 0 }
    }

    fn is_blank(&self) -> bool {
        self.number == 0
    }

    fn blank(&mut self) {
        self.number = 0;
    }
}
