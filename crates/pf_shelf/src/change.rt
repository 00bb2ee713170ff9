//! What a command asks of one table, and what it is told.
ghost use Rattle.pf_shelf.specs.declared.change.TableFault.TheVariants.{NoMemory as none_found};
ghost use Rattle.std.specs.Prelude.{◌≡◌};

use pf_base::NoMemory;

/// A change of a table by a list of entries (pfctl(8), Tables).
#[derive(Clone, Copy, Debug, PartialEq, Eq)]
pub enum ChangeKind {
    /// Adds the entries whose prefix the table doesn't have, with either sign.
    Add,
    /// Removes the entries that the table has with the same sign.
    Delete,
    /// The table has these entries alone.
    Replace,
    /// Removes all entries; those handed in are passed over.
    Flush,
}

/// How many entries a change has added, and how many it has deleted.
#[derive(Clone, Copy, Debug, PartialEq, Eq)]
pub struct Counts {
    pub added: u64,
    pub deleted: u64,
}

/// Why a table wasn't changed.
#[derive(Clone, Copy, Debug, PartialEq, Eq)]
pub enum TableFault {
    /// There is no table of that name.
    Missing,
    /// The table is constant.
    Const,
    /// The table would have that many entries, which is over the room.
    Full(u64),
    NoMemory,
}

impl From<NoMemory> for TableFault {
    ghost from_gives = { λ _ fault. fault ≡ none_found };

    fn from(_error: NoMemory) -> TableFault {
        TableFault::NoMemory
    }
}
