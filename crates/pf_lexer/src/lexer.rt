//! The statements of a unit, one after the other: a file, with each include replaced by that file's statements, pf.conf(5).
ghost use Rattle.std.specs.Prelude.{◌≡◌, ℕ, ◌*◌, ◌^◌, ◌<◌, ◌≤◌, None, Option, List, IfOk, IfErr, OnSome, length};
ghost use Rattle.pf_source.specs.Told.{Told, file_of};
ghost use Rattle.pf_lexer.specs.Calls.{AnswersNumbered, AsksAndReads, ComesAgain, IfAgain, IsGoing, IsTrueTo, IsNumbered, IsUnopened, StopsWith, failed_by, unread_at_end, unread_from, unread_in};
ghost use Rattle.pf_lexer.specs.Going.{stage_weight};
ghost use Rattle.pf_lexer.specs.ReadSoFar.{ReadSoFar};
ghost use Rattle.pf_lexer.specs.Reads.{number_of};
ghost use Rattle.pf_lexer.specs.Units.{Begins, Handed, Leads, UnitOf};
ghost use Rattle.pf_lexer.specs.Words.{FoundHasBytes};
ghost use Rattle.pf_lexer.specs.declared.deed.Statement.{Statement};
ghost use Rattle.pf_lexer.specs.declared.fault.LexFault.{LexFault};

use crate::deed::Statement;
use crate::fault::LexFault;
use crate::reads::Reads;
use crate::unit::{OpenUnit, open_file};
use pf_base::{List, NoMemory, Text};
use pf_source::Files;
use pf_token::{Macros, next_is_one};
use std::alloc::Global;
use std::marker::Model;

/// The statements of a unit that are still to come. Clauses see where it stands.
#[derive(Drop)]
pub struct Lexer {
    unit: OpenUnit,
    fault: Option<LexFault>,
    known: u64,
}

impl Model for Lexer {
    ghost use Rattle.pf_lexer.specs.Stages.{LexerState, stage_of};
    ghost use Rattle.pf_lexer.specs.StageCodes.{lexer_code};
    ghost use Rattle.pf_lexer.specs.Calls.{IsKnown};

    ghost Value = { LexerState };

    ghost coded = { lexer_code };

    ghost view = { λ a. record { stage = stage_of a.unit a.fault; known = a.known } };

    ghost invariant = { λ a. IsKnown a.known (stage_of a.unit a.fault) };
}

impl Lexer {
    /// Reads the first file of a unit, in which these macros stand for their values. `CannotRead` comes only where the
    /// files' count of faults rose, `TooLarge` where the file is longer than may be read. What is open weighs no more than
    /// what was taken off the bytes that may be read.
    pub fn begin<F: Files>(
        alloc: Global,
        files: &mut F,
        reads: &mut Reads,
        name: &Text,
        macros: Macros,
    ) -> Result<Lexer, LexFault>
        ensures ok { IfOk result (λ lexer. Told (F.tells files.old).held (λ held. Begins (file_of held) macros name.now reads.old lexer.stage reads.new)) }
        ensures err { IfErr result (λ fault. Told (F.tells files.old).held (λ held. IsUnopened (file_of held) name.now reads.old fault reads.new)) }
        ensures known { IfOk result (λ lexer. lexer.known ≡ length reads.new.names) }
        ensures goes { IfOk result (λ lexer. IsGoing lexer.stage) }
        ensures asked { IfErr result (λ fault. (other : List ℕ) → fault ≡ LexFault.CannotRead other → name.now ≡ other) }
        ensures places { IfErr result (λ fault. IsNumbered (length reads.new.names) fault) }
        ensures numbered { IfOk result (λ lexer. number_of reads.new.names name.now < length reads.new.names) }
        ensures lighter { IfOk result (λ lexer. stage_weight lexer.stage reads.new ≤ 2 ^ 65 * reads.old.left) }
        ensures asks { AsksAndReads (unread_in result) (F.tells files.old) (F.tells files.new) reads.old reads.new }
    {
        let asked = List::copy_of(alloc, name.items())?;
        let top = open_file(alloc, files, reads, asked)?;
        Ok(Lexer {
            unit: OpenUnit::new(alloc, macros, top),
            fault: None,
            known: reads.count(),
        })
    }

    /// The next statement of the unit, or None at its end. Macro definitions and includes are carried out. `CannotRead`
    /// comes only where the files' count of faults rose. After a fault the same fault comes again. Each word without quotes
    /// of a statement has at least one byte.
    pub fn next_statement<F: Files>(
        &mut self,
        alloc: Global,
        files: &mut F,
        reads: &mut Reads,
    ) -> Result<Option<Statement>, LexFault>
        requires { self.old.known ≤ length reads.old.names }
        ensures ok { IfOk result (λ found. Told (F.tells files.old).held (λ held. Leads (file_of held) self.old.stage reads.old (Ok found) self.new.stage reads.new)) }
        ensures err { IfErr result (λ fault. Told (F.tells files.old).held (λ held. StopsWith (file_of held) self.old.stage reads.old fault self.new.stage reads.new)) }
        ensures fails { IfErr result (λ fault. self.new.stage ≡ failed_by self.old.stage fault) }
        ensures again { ComesAgain self.old.stage result }
        ensures unchanged { IfAgain self.old.stage ((self.new ≡ self.old) × (reads.new ≡ reads.old) × (files.new ≡ files.old)) }
        ensures known { self.new.known ≤ length reads.new.names }
        ensures goes { IfOk result (λ found. IsGoing self.new.stage) }
        ensures places { AnswersNumbered (length reads.new.names) result }
        ensures words { IfOk result (λ found. FoundHasBytes found) }
        ensures lighter { IfOk result (λ found. OnSome found (stage_weight self.new.stage reads.new < stage_weight self.old.stage reads.old)) }
        ensures asks { AsksAndReads (unread_from self.old.stage result) (F.tells files.old) (F.tells files.new) reads.old reads.new }
    {
        if let Some(fault) = &self.fault {
            return Err(fault.again(alloc));
        }
        match self.unit.advance(alloc, files, reads) {
            Ok(found) => {
                self.known = reads.count();
                Ok(found)
            }
            Err(failure) => {
                self.known = reads.count();
                self.fault = Some(failure.kept);
                Err(failure.fault)
            }
        }
    }
}

/// All statements of a unit, and the fault that ends them, if any.
#[derive(Debug, Drop)]
pub struct UnitStatements {
    pub statements: Vec<Statement>,
    pub fault: Option<LexFault>,
}

/// The fault that ends a unit. Want of memory is none.
fn ending(fault: LexFault) -> Result<LexFault, NoMemory>
    ensures same { IfOk result (λ found. found ≡ fault) }
    ensures other { IfOk result (λ found. found ≡ LexFault.NoMemory → ⊥) }
{
    match fault {
        LexFault::NoMemory => Err(NoMemory),
        _ => Ok(fault),
    }
}

/// The statements of a lexer to the unit's end or its first fault.
fn read_on<F: Files>(
    alloc: Global,
    files: &mut F,
    reads: &mut Reads,
    lexer: Lexer,
) -> Result<UnitStatements, NoMemory>
    requires known { lexer.known ≤ length reads.old.names }
    requires going { IsGoing lexer.stage }
    ensures handed { IfOk result (λ found. Told (F.tells files.old).held (λ held. Handed (file_of held) lexer.stage reads.old found.statements.items found.fault reads.new)) }
    ensures asks { IfOk result (λ found. AsksAndReads (unread_at_end found.fault) (F.tells files.old) (F.tells files.new) reads.old reads.new) }
{
    let mut lexer = lexer;
    let mut statements = Vec::new(alloc);
    loop {
        match lexer.next_statement(alloc, files, reads) {
            Ok(Some(statement)) => statements.push(statement)?,
            Ok(None) => {
                return Ok(UnitStatements {
                    statements,
                    fault: None,
                });
            }
            Err(fault) => {
                let fault = ending(fault)?;
                return Ok(UnitStatements {
                    statements,
                    fault: Some(fault),
                });
            }
        }
    }
}

/// All statements of the unit whose first file has this name. Its contract is the law that the calls of a lexer hand out
/// a unit's statements, and no others. `CannotRead` comes only where a read of that file failed.
pub fn read_unit<F: Files>(
    alloc: Global,
    files: &mut F,
    reads: &mut Reads,
    name: &Text,
    macros: Macros,
) -> Result<UnitStatements, NoMemory>
    ensures found { IfOk result (λ found. Told (F.tells files.old).held (λ held. UnitOf (file_of held) macros name.now reads.old found.statements.items found.fault reads.new)) }
    ensures only { IfOk result (λ found. Told (F.tells files.old).held (λ held.
        (others : List Statement) (fault : Option LexFault) (later : ReadSoFar) →
        UnitOf (file_of held) macros name.now reads.old others fault later → IsTrueTo (file_of held) found.fault → IsTrueTo (file_of held) fault →
        (found.statements.items ≡ others) × (found.fault ≡ fault) × (reads.new ≡ later))) }
    ensures asks { IfOk result (λ found. AsksAndReads (unread_at_end found.fault) (F.tells files.old) (F.tells files.new) reads.old reads.new) }
{
    next_is_one();
    match Lexer::begin(alloc, files, reads, name, macros) {
        Ok(lexer) => {
            let found = read_on(alloc, files, reads, lexer)?;
            Ok(found)
        }
        Err(fault) => {
            let fault = ending(fault)?;
            Ok(UnitStatements {
                statements: Vec::new(alloc),
                fault: Some(fault),
            })
        }
    }
}
