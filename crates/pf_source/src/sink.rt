//! The output.
ghost use Rattle.std.specs.Prelude.{OnOk};
ghost use Rattle.std.specs.Io.KnownBytes.{Appends};
ghost use Rattle.pf_source.specs.Causes.{CountsOn, RoseBy};
ghost use Rattle.pf_source.specs.Told.{SinkTold};
ghost use Rattle.pf_source.specs.Streams.{IfCutShort, IfNotWritten, write_failures};

use crate::fault::SinkFault;

/// An output to which pieces are written.
pub trait Sink {
    /// What the object tells: the bytes that were written, how many writes were made, and how many have failed.
    ghost tells: { Self → SinkTold };

    /// Writes the whole piece. `Failed` comes only where the count of faults rose, after a front of the piece;
    /// `NoMemory` writes nothing.
    fn write(&mut self, piece: &[u8]) -> Result<(), SinkFault>
        ensures ok { OnOk result (Appends (tells self.old).written (tells self.new).written piece.now) }
        ensures failed { IfCutShort result (tells self.old).written (tells self.new).written piece.now }
        ensures no_memory { IfNotWritten result (tells self.old).written (tells self.new).written }
        ensures calls { CountsOn 1 (tells self.old).calls (tells self.new).calls }
        ensures faults { RoseBy (write_failures result) (tells self.old).faults (tells self.new).faults };
}
