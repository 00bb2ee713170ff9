//! Files that a script line names and that are read whole: a profile, and the facts of the host.
ghost use Rattle.std.specs.Prelude.{IfOk};
ghost use Rattle.pf_source.specs.Asks.{Asks};
ghost use Rattle.pf_source.specs.Told.{Told, file_of};
ghost use Rattle.pf_engine.specs.Bounded.{FileIs, unread_in};

use pf_base::{NoMemory, Text};
use pf_source::{Files, FilesFault};
use std::alloc::Global;

/// A file has at most so many bytes.
const MOST_BYTES: u64 = 4_194_304;

/// What came of reading such a file.
#[derive(Drop)]
pub(crate) enum Bounded {
    /// Its bytes.
    Bytes(Text),
    /// It has more bytes than it may have.
    TooLarge,
    /// The read failed.
    Failed,
}

/// Reads a file whole, up to the limit.
pub(crate) fn read_bounded<F: Files>(
    alloc: Global,
    files: &mut F,
    name: &Text,
) -> Result<Bounded, NoMemory>
    ensures means { IfOk result (λ bounded. Told (F.tells files.old).held (λ held. FileIs (file_of held name.now) bounded)) }
    ensures asks { Asks (unread_in name.now result) (F.tells files.old) (F.tells files.new) }
{
    match files.read(alloc, name, MOST_BYTES) {
        Ok(text) => Ok(Bounded::Bytes(text)),
        Err(FilesFault::TooLarge { seen: _ }) => Ok(Bounded::TooLarge),
        Err(FilesFault::Failed) => Ok(Bounded::Failed),
        Err(FilesFault::NoMemory) => Err(NoMemory),
    }
}
