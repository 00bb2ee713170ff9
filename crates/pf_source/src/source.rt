//! The input, read in pieces.
ghost use Rattle.std.specs.Prelude.{◌≡◌, ◌+◌, ◌<◌, ◌≤◌, length, take, IfOk, OnErr};
ghost use Rattle.std.specs.Io.KnownBytes.{Consumes, IsAtEnd, Keeps};
ghost use Rattle.pf_source.specs.Causes.{RoseBy};
ghost use Rattle.pf_source.specs.Told.{SourceTold};
ghost use Rattle.pf_source.specs.Streams.{after_read, count_given, no_read, read_failures};

use crate::fault::Failed;

/// The last piece that an input gave.
#[derive(Clone, Copy, Debug, PartialEq, Eq)]
pub struct LastRead {
    /// How many bytes it has; 0 before the first one.
    pub size: u64,
    /// How many reads were made since, which gave none; the count stops at 2^64 - 1.
    pub since: u64,
}

impl LastRead {
    /// Before any read.
    pub fn none() -> LastRead
        ensures { result ≡ no_read }
    {
        LastRead { size: 0, since: 0 }
    }

    /// After a read that gave this many bytes, 0 where it gave none or failed.
    pub fn after(self, count: usize) -> LastRead
        ensures { result ≡ after_read self count }
    {
        if count == 0 {
            return LastRead {
                size: self.size,
                since: self.since.saturating_add(1),
            };
        }
        LastRead {
            size: count as u64,
            since: 0,
        }
    }
}

/// An input that is read in pieces.
pub trait Source {
    /// What the object tells: the bytes that it has left, how many it has given, how many reads have failed, and what
    /// the last ones gave.
    ghost tells: { Self → SourceTold };

    /// Puts the next bytes into the front of `buf` and says how many: 0 only at the end, where `buf` isn't empty.
    /// `Failed` comes only where the count of faults rose, and takes nothing.
    fn read(&mut self, buf: &mut [u8]) -> Result<usize, Failed>
        ensures within { IfOk result (λ n. n ≤ length buf.old) }
        ensures bytes { IfOk result (λ n. Consumes (tells self.old).left (tells self.new).left (take n buf.new)) }
        ensures end { IfOk result (λ n. n ≡ 0 → 0 < length buf.old → IsAtEnd (tells self.new).left) }
        ensures given { (tells self.new).given ≡ (tells self.old).given + count_given result }
        ensures last { (tells self.new).last ≡ after_read (tells self.old).last (count_given result) }
        ensures err { OnErr result (Keeps (tells self.old).left (tells self.new).left) }
        ensures faults { RoseBy (read_failures result) (tells self.old).faults (tells self.new).faults };
}
