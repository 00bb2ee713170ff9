//! The files of a table's declaration, read one after the other.
ghost use Rattle.std.specs.Prelude.{◌≡◌, ◌≤◌, ℕ, List as Items, Contains, length, IfErr, IfOk};
ghost use Rattle.pf_source.specs.Asks.{Asks};
ghost use Rattle.pf_source.specs.Told.{Told, file_of};
ghost use Rattle.pf_lexer.specs.Calls.{AsksAndReads};
ghost use Rattle.pf_lexer.specs.Reads.{GoesOn, look_up, read_limit};
ghost use Rattle.pf_fault.specs.Stops.{unread_in};
ghost use Rattle.pf_entries.specs.TableFiles.{IfUnread, IsNumberWithin, IsOneRead, IsRead, after_one};
ghost use Rattle.pf_entries.specs.Numbered.{FilesWithin};

use pf_base::{FaultKind, List, NoMemory, Place, Text};
use pf_fault::{Fault, Stop};
use pf_lexer::{ReadFile, Reads, ReadsFault};
use pf_source::Files;
use std::alloc::Global;

// Reads one file. The name is copied first, so that a failed read is told.
fn read_one<F: Files>(
    alloc: Global,
    files: &mut F,
    reads: &mut Reads,
    name: &Text,
) -> Result<ReadFile, Stop>
    ensures look { Told (F.tells files.old).held (λ held. IsOneRead (look_up (file_of held) reads.old name.now) result) }
    ensures after { reads.new ≡ after_one reads.old name.now result }
    ensures named { IfUnread result name.now }
    ensures grows { GoesOn reads.old.names reads.new.names }
    ensures left { reads.new.left ≤ reads.old.left }
    ensures within { IfOk result (λ file. length file.text ≤ 4194304) }
    ensures fits { IfOk result (λ file. length file.text ≤ read_limit reads.old.left) }
    ensures numbered { IsNumberWithin (length reads.new.names) result }
    ensures asks { Asks (unread_in result) (F.tells files.old) (F.tells files.new) }
{
    let asked = List::copy_of(alloc, name.items())?;
    match reads.read(alloc, files, name) {
        Ok(file) => Ok(file),
        Err(ReadsFault::Failed) => Err(Stop::Unread(asked)),
        Err(ReadsFault::TooLarge { number }) => Err(Stop::Fault(Fault {
            kind: FaultKind::TooLarge,
            place: Place {
                file: number,
                line: 0,
            },
        })),
        Err(ReadsFault::NoMemory) => Err(Stop::NoMemory),
    }
}

/// The files of these names, in order, each time with its bytes counted. The first that is absent is `Unread`, which comes only
/// where the files' count of faults rose, and the first that is too large is a fault at its line 0. What was read before a fault
/// stays counted.
pub fn read_files<F: Files>(
    alloc: Global,
    files: &mut F,
    reads: &mut Reads,
    names: &[Text],
) -> Result<List<ReadFile>, Stop>
    ensures means { Told (F.tells files.old).held (λ held. IsRead (file_of held) names.now reads.old result reads.new) }
    ensures asks { AsksAndReads (unread_in result) (F.tells files.old) (F.tells files.new) reads.old reads.new }
    ensures asked { IfErr result (λ stop. (other : Items ℕ) → stop ≡ Stop.Unread other → Contains names.now other) }
    ensures within { FilesWithin (length reads.new.names) result }
{
    let mut read = List::new(alloc);
    for name in names {
        let file = read_one(alloc, files, reads, name)?;
        read.push(file)?;
    }
    Ok(read)
}
