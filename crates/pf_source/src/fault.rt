//! What may go wrong outside.
ghost use Rattle.pf_source.specs.declared.fault.FilesFault.TheVariants.{NoMemory as files_no_memory};
ghost use Rattle.pf_source.specs.declared.fault.SinkFault.TheVariants.{NoMemory as sink_no_memory};
ghost use Rattle.std.specs.Prelude.{◌≡◌};

use std::alloc::AllocError;

/// A read of the input failed.
#[derive(Clone, Copy, Debug, PartialEq, Eq)]
pub struct Failed;

/// Why a file wasn't read.
#[derive(Clone, Copy, Debug, PartialEq, Eq)]
pub enum FilesFault {
    /// It is absent, or the read failed.
    Failed,
    /// It is longer than the limit: at least `seen` bytes.
    TooLarge { seen: u64 },
    /// No memory was found for it.
    NoMemory,
}

/// Why a piece wasn't written whole.
#[derive(Clone, Copy, Debug, PartialEq, Eq)]
pub enum SinkFault {
    /// A front of the piece may have been written.
    Failed,
    /// Nothing of the piece was written.
    NoMemory,
}

impl From<AllocError> for FilesFault {
    ghost from_gives = { λ _ fault. fault ≡ files_no_memory };

    fn from(_error: AllocError) -> FilesFault {
        FilesFault::NoMemory
    }
}

impl From<AllocError> for SinkFault {
    ghost from_gives = { λ _ fault. fault ≡ sink_no_memory };

    fn from(_error: AllocError) -> SinkFault {
        SinkFault::NoMemory
    }
}
