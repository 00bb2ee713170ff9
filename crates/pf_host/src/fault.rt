//! Why a text is no facts file.
use pf_base::NoMemory;
use std::alloc::{AllocError, AllocFailed};

/// What is wrong with a line, in the order in which the causes are tried.
#[derive(Clone, Copy, Debug, PartialEq, Eq)]
pub enum FactsCause {
    /// The words are those of no line, or a name isn't 1 to 63 letters, digits and `_-.:+@`.
    BadLine,
    /// An address of an interface without an earlier line.
    Unknown,
    /// A second line for an interface, a user, a group or a service.
    Twice,
    /// No address, or no address and mask for an interface.
    BadAddress,
    /// No number of a user or a group up to 4294967295, or of a service up to 65535.
    BadNumber,
    /// The 1,025th line about an interface, or the 1,025th about an address.
    Full,
}

/// Why a text has no facts.
#[derive(Clone, Copy, Debug, PartialEq, Eq)]
pub enum FactsFault {
    /// The first line outside the form, from 1, and the first cause.
    Line { line: u64, cause: FactsCause },
    /// No memory was found.
    NoMemory,
}

// Why a line isn't taken.
#[derive(Clone, Copy, Debug, PartialEq, Eq)]
pub(crate) enum LineFault {
    Cause(FactsCause),
    NoMemory,
}

impl LineFault {
    ghost use Rattle.std.specs.Prelude.{◌≡◌};
    ghost use Rattle.pf_host.specs.Reading.{fault_at};

    // The fault of the line of this number.
    pub(crate) fn at(self, line: u64) -> FactsFault
        ensures { result ≡ fault_at self line }
    {
        match self {
            LineFault::Cause(cause) => FactsFault::Line { line, cause },
            LineFault::NoMemory => FactsFault::NoMemory,
        }
    }
}

impl From<NoMemory> for LineFault {
    ghost use Rattle.std.specs.Prelude.{◌≡◌};
    ghost use Rattle.pf_host.specs.declared.fault.LineFault.TheVariants.{NoMemory};

    ghost from_gives = { λ _ fault. fault ≡ NoMemory };

    fn from(_error: NoMemory) -> LineFault {
        LineFault::NoMemory
    }
}

impl From<AllocError> for LineFault {
    ghost use Rattle.std.specs.Prelude.{◌≡◌};
    ghost use Rattle.pf_host.specs.declared.fault.LineFault.TheVariants.{NoMemory};

    ghost from_gives = { λ _ fault. fault ≡ NoMemory };

    fn from(_error: AllocError) -> LineFault {
        LineFault::NoMemory
    }
}

impl<T: Drop> From<AllocFailed<T>> for LineFault {
    ghost use Rattle.std.specs.Prelude.{◌≡◌};
    ghost use Rattle.pf_host.specs.declared.fault.LineFault.TheVariants.{NoMemory};

    ghost from_gives = { λ _ fault. fault ≡ NoMemory };

    fn from(_error: AllocFailed<T>) -> LineFault {
        LineFault::NoMemory
    }
}
