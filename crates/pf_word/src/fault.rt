//! Why words or a statement come to nothing.
ghost use Rattle.std.specs.Prelude.{◌≡◌};
ghost use Rattle.pf_word.specs.declared.fault.ExpandFault.TheVariants as faults;

use pf_base::{FaultKind, NoMemory};

/// Why words or a statement come to nothing.
#[derive(Clone, Copy, Debug, PartialEq, Eq)]
pub enum ExpandFault {
    /// They have this fault.
    Kind(FaultKind),
    /// No memory was found.
    NoMemory,
}

impl From<NoMemory> for ExpandFault {
    ghost from_gives = { λ _ fault. fault ≡ faults.NoMemory };

    fn from(_error: NoMemory) -> ExpandFault {
        ExpandFault::NoMemory
    }
}
