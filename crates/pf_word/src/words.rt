//! What words mean, one after the other.
ghost use Rattle.std.specs.Prelude.{◌≡◌, OnOk};
ghost use Rattle.pf_word.specs.Words.{failed, found, joined, none};

use pf_base::{FaultKind, List, NoMemory};
use std::alloc::Global;

/// What words mean: the values of those that mean something, and the faults of the others, both in the order of the
/// words.
#[derive(Debug, Drop)]
pub struct Words<T> {
    pub values: List<T>,
    pub faults: List<FaultKind>,
}

impl<T: Copy> Words<T> {
    /// No words.
    pub fn new(alloc: Global) -> Words<T>
        ensures { result ≡ none }
    {
        Words {
            values: List::new(alloc),
            faults: List::new(alloc),
        }
    }

    /// Adds a value of the next word.
    pub(crate) fn find(&mut self, value: &T) -> Result<(), NoMemory>
        ensures { OnOk result (self.new ≡ joined self.old (found value.now)) }
    {
        self.values.push_copy(value)
    }

    /// Adds the fault of the next word.
    pub(crate) fn fail(&mut self, fault: &FaultKind) -> Result<(), NoMemory>
        ensures { OnOk result (self.new ≡ joined self.old (failed fault.now)) }
    {
        self.faults.push_copy(fault)
    }
}
