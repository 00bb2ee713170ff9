//! A unit that is being read: its macros and its open files, pf.conf(5).
ghost use Rattle.std.specs.Prelude.{◌≡◌, ℕ, ◌∷◌, [], ◌<◌, ◌≤◌, ◌+◌, ◌*◌, ◌^◌, List, true, IfOk, IfErr, OnOk, OnSome, length};
ghost use Rattle.pf_source.specs.Told.{Told, file_of};
ghost use Rattle.pf_token.specs.Cells.{are_in};
ghost use Rattle.pf_token.specs.Reading.{weight};
ghost use Rattle.pf_lexer.specs.Calls.{AsksAndReads, IsNumbered, IsUnopened, StandsIn, StopsWith, unread_in};
ghost use Rattle.pf_lexer.specs.Going.{unit_weight, unopened, unread_for, IsCut, IsFoundNumbered, IsLighterTurn, IsStopped, IsTurnNumbered, Leaves, TurnsTo};
ghost use Rattle.pf_lexer.specs.Reads.{number_of};
ghost use Rattle.pf_lexer.specs.Stages.{going, failed};
ghost use Rattle.pf_lexer.specs.Units.{Leads, Opens};
ghost use Rattle.pf_lexer.specs.Words.{FoundHasBytes, TurnHasBytes};

use crate::deed::{Deed, Statement, take_statement};
use crate::failure::Failure;
use crate::fault::LexFault;
use crate::reads::{Reads, ReadsFault};
use pf_base::{List, NoMemory, Place, Text};
use pf_source::Files;
use pf_token::{Macros, Reader};
use std::alloc::Global;
use std::marker::Model;
use std::mem;

/// A unit that is being read. Clauses see its macros and what is left of its open files.
#[derive(Drop)]
pub struct OpenUnit {
    macros: Macros,
    top: Reader,
    below: Vec<Reader>,
}

impl Model for OpenUnit {
    ghost use Rattle.std.specs.Prelude.{reverse};
    ghost use Rattle.pf_lexer.specs.Stages.{Standing};
    ghost use Rattle.pf_lexer.specs.StageCodes.{standing_code};

    ghost Value = { Standing };

    ghost coded = { standing_code };

    ghost view = { λ a. record { macros = a.macros; top = a.top; below = reverse a.below.items } };
}

/// What one statement leads to.
#[derive(Debug, Drop)]
pub enum Turn {
    /// Nothing is handed out.
    Passed,
    Hands(Statement),
    /// The unit ends.
    Over,
}

/// Why a file with this name wasn't read, as it is answered.
fn unopened(name: Text, fault: ReadsFault) -> LexFault
    ensures { result ≡ unopened name fault }
{
    match fault {
        ReadsFault::Failed => LexFault::CannotRead(name),
        ReadsFault::TooLarge { number } => LexFault::TooLarge(Place {
            file: number,
            line: 0,
        }),
        ReadsFault::NoMemory => LexFault::NoMemory,
    }
}

/// Reads a file: all that is to be read of it.
pub fn open_file<F: Files>(
    alloc: Global,
    files: &mut F,
    reads: &mut Reads,
    name: Text,
) -> Result<Reader, LexFault>
    ensures ok { IfOk result (λ file. Told (F.tells files.old).held (λ held. Opens (file_of held) name reads.old (Ok file) reads.new)) }
    ensures err { IfErr result (λ fault. Told (F.tells files.old).held (λ held. IsUnopened (file_of held) name reads.old fault reads.new)) }
    ensures asks { AsksAndReads (unread_in result) (F.tells files.old) (F.tells files.new) reads.old reads.new }
    ensures unread { IfErr result (λ fault. (other : List ℕ) → fault ≡ LexFault.CannotRead other → name ≡ other) }
    ensures within { IfOk result (λ file. are_in (length reads.new.names) file ≡ true) }
    ensures numbered { IfOk result (λ file. number_of reads.new.names name < length reads.new.names) }
    ensures places { IfErr result (λ fault. IsNumbered (length reads.new.names) fault) }
    ensures lighter { IfOk result (λ file. weight file + 2 ^ 64 * reads.new.left ≤ 2 ^ 64 * reads.old.left) }
{
    match reads.read(alloc, files, &name) {
        Ok(file) => Ok(Reader::new(alloc, file.text, file.number)),
        Err(fault) => Err(unopened(name, fault)),
    }
}

impl OpenUnit {
    /// A unit at the beginning of its first file.
    pub fn new(alloc: Global, macros: Macros, top: Reader) -> OpenUnit
        ensures { result ≡ record { macros = macros; top = top; below = [] } }
    {
        OpenUnit {
            macros,
            top,
            below: Vec::new(alloc),
        }
    }

    /// An included file is read before the rest of the file that includes it.
    fn enter(&mut self, file: Reader) -> Result<(), NoMemory>
        ensures { OnOk result (self.new ≡ record { macros = self.old.macros; top = file; below = self.old.top ∷ self.old.below }) }
    {
        let waiting = mem::replace(&mut self.top, file);
        self.below.push(waiting)?;
        Ok(())
    }

    /// Where a file ends, the file that included it goes on. False at the end of the first file.
    fn leave(&mut self) -> bool
        ensures { Leaves self.old result self.new }
    {
        match self.below.pop() {
            Some(file) => {
                self.top = file;
                true
            }
            None => false,
        }
    }

    /// Reads the file of an include.
    fn include<F: Files>(
        &mut self,
        alloc: Global,
        files: &mut F,
        reads: &mut Reads,
        name: Text,
    ) -> Result<(), Failure>
        ensures opens { OnOk result (Told (F.tells files.old).held (λ held. Opens (file_of held) name reads.old (Ok self.new.top) reads.new)) }
        ensures enters { OnOk result (self.new ≡ record { macros = self.old.macros; top = self.new.top; below = self.old.top ∷ self.old.below }) }
        ensures err { IfErr result (λ failure. Told (F.tells files.old).held (λ held. IsCut (file_of held) name reads.old failure.fault reads.new)) }
        ensures asks { AsksAndReads (unread_for result) (F.tells files.old) (F.tells files.new) reads.old reads.new }
        ensures within { OnOk result (are_in (length reads.new.names) self.new.top ≡ true) }
        ensures places { IfErr result (λ failure. IsNumbered (length reads.new.names) failure.fault) }
        ensures lighter { OnOk result (weight self.new.top + 2 ^ 64 * reads.new.left ≤ 2 ^ 64 * reads.old.left) }
    {
        let copy = List::copy_of(alloc, name.items())?;
        match open_file(alloc, files, reads, name) {
            Ok(file) => {
                self.enter(file)?;
                Ok(())
            }
            Err(fault) => {
                let kept = fault.twin(copy);
                Err(Failure { fault, kept })
            }
        }
    }

    /// Carries out the next statement.
    fn step<F: Files>(
        &mut self,
        alloc: Global,
        files: &mut F,
        reads: &mut Reads,
    ) -> Result<Turn, Failure>
        ensures ok { IfOk result (λ turn. Told (F.tells files.old).held (λ held. TurnsTo (file_of held) self.old reads.old turn self.new reads.new)) }
        ensures err { IfErr result (λ failure. Told (F.tells files.old).held (λ held. IsStopped (file_of held) self.old reads.old failure.fault reads.new)) }
        ensures asks { AsksAndReads (unread_for result) (F.tells files.old) (F.tells files.new) reads.old reads.new }
        ensures within { IfOk result (λ turn. StandsIn (length reads.old.names) self.old → StandsIn (length reads.new.names) self.new) }
        ensures places { StandsIn (length reads.old.names) self.old → IsTurnNumbered (length reads.new.names) result }
        ensures words { IfOk result (λ turn. TurnHasBytes turn) }
        ensures lighter { IfOk result (λ turn. IsLighterTurn turn (unit_weight self.new reads.new) (unit_weight self.old reads.old)) }
    {
        let includes = self.below.len();
        match take_statement(alloc, &mut self.top, &mut self.macros, includes)? {
            Deed::Nothing => Ok(Turn::Passed),
            Deed::Hands(statement) => Ok(Turn::Hands(statement)),
            Deed::Includes(name) => {
                self.include(alloc, files, reads, name)?;
                Ok(Turn::Passed)
            }
            Deed::Ends if self.leave() => Ok(Turn::Passed),
            Deed::Ends => Ok(Turn::Over),
            Deed::Fails(fault) => Err(Failure {
                fault: LexFault::answered(&fault),
                kept: LexFault::answered(&fault),
            }),
        }
    }

    /// Reads on to the next statement that is handed out, or None at the unit's end.
    pub fn advance<F: Files>(
        &mut self,
        alloc: Global,
        files: &mut F,
        reads: &mut Reads,
    ) -> Result<Option<Statement>, Failure>
        ensures ok { IfOk result (λ found. Told (F.tells files.old).held (λ held. Leads (file_of held) (going self.old) reads.old (Ok found) (going self.new) reads.new)) }
        ensures err { IfErr result (λ failure. Told (F.tells files.old).held (λ held. StopsWith (file_of held) (going self.old) reads.old failure.fault (failed failure.fault) reads.new)) }
        ensures asks { AsksAndReads (unread_for result) (F.tells files.old) (F.tells files.new) reads.old reads.new }
        ensures within { IfOk result (λ found. StandsIn (length reads.old.names) self.old → StandsIn (length reads.new.names) self.new) }
        ensures places { StandsIn (length reads.old.names) self.old → IsFoundNumbered (length reads.new.names) result }
        ensures words { IfOk result (λ found. FoundHasBytes found) }
        ensures lighter { IfOk result (λ found. OnSome found (unit_weight self.new reads.new < unit_weight self.old reads.old)) }
    {
        loop {
            match self.step(alloc, files, reads)? {
                Turn::Passed => {}
                Turn::Hands(statement) => return Ok(Some(statement)),
                Turn::Over => return Ok(None),
            }
        }
    }
}
