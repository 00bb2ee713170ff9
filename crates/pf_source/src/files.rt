//! Files that are read whole, by their names.
ghost use Rattle.std.specs.Prelude.{◌≡◌, ◌≤◌, length, IfOk, Some};
ghost use Rattle.pf_source.specs.Asks.{Asks};
ghost use Rattle.pf_source.specs.Told.{FilesTold, Told, file_of};
ghost use Rattle.pf_source.specs.Files.{IfTooLarge, failed_names};

use crate::fault::FilesFault;
use pf_base::Text;
use std::alloc::Global;

/// A file and what it holds.
#[derive(Debug, Drop)]
pub struct HeldFile {
    /// Its name, as a read asks for it.
    pub name: Text,
    /// All that it holds.
    pub bytes: Text,
}

/// Files that can be read by name.
pub trait Files {
    /// What the object tells: the files that it holds, whether it is steady, how many reads have failed, and which.
    ghost tells: { Self → FilesTold };

    /// Reads a whole file of at most `limit` bytes. `Failed` comes only where the count of faults rose, and adds the
    /// name to those of the failed reads; `TooLarge` where the file is longer than the limit.
    fn read(&mut self, alloc: Global, name: &Text, limit: u64) -> Result<Text, FilesFault>
        ensures content { IfOk result (λ text. Told (tells self.old).held (λ held. file_of held name.now ≡ Some text)) }
        ensures within { IfOk result (λ text. length text ≤ limit) }
        ensures too_large { IfTooLarge (tells self.old) name.now limit result }
        ensures asks { Asks (failed_names name.now result) (tells self.old) (tells self.new) };
}
