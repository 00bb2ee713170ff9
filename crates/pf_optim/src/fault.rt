//! Why a text is no profile.
use std::alloc::AllocFailed;

/// Why a text isn't read as a profile.
#[derive(Clone, Copy, Debug, PartialEq, Eq)]
pub enum ProfileFault {
    /// The first line outside the form, or about a place that an earlier one is about, from 1.
    Line(u64),
    /// No memory was found.
    NoMemory,
}

// Why a line isn't taken.
#[derive(Clone, Copy, Debug, PartialEq, Eq)]
pub(crate) enum LineFault {
    Outside,
    NoMemory,
}

impl LineFault {
    ghost use Rattle.std.specs.Prelude.{◌≡◌};
    ghost use Rattle.pf_optim.specs.ProfileSteps.{fault_at};

    // The fault of the line with this number.
    pub(crate) fn at(self, line: u64) -> ProfileFault
        ensures { result ≡ fault_at self line }
    {
        match self {
            LineFault::Outside => ProfileFault::Line(line),
            LineFault::NoMemory => ProfileFault::NoMemory,
        }
    }
}

impl<T: Drop> From<AllocFailed<T>> for LineFault {
    ghost use Rattle.std.specs.Prelude.{◌≡◌};
    ghost use Rattle.pf_optim.specs.declared.fault.LineFault.TheVariants.{NoMemory};

    ghost from_gives = { λ _ fault. fault ≡ NoMemory };

    fn from(_error: AllocFailed<T>) -> LineFault {
        LineFault::NoMemory
    }
}
