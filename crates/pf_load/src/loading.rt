//! A load: the plan of a file, with each include replaced by that file's statements.
ghost use Rattle.std.specs.Prelude.{◌≡◌, ◌<◌, ◌≤◌, ◌*◌, ◌^◌, ℕ, Err, List, [], None, Some, Option, IfOk, length, true};
ghost use Rattle.pf_source.specs.Asks.{Asks};
ghost use Rattle.pf_source.specs.Told.{Told, file_of};
ghost use Rattle.pf_lexer.specs.Calls.{IsGoing, IsNumbered, unread_by};
ghost use Rattle.pf_lexer.specs.Going.{stage_weight};
ghost use Rattle.pf_lexer.specs.Reads.{GoesOn, number_of};
ghost use Rattle.pf_plan.specs.Ends.{HasEndFault};
ghost use Rattle.pf_fault.specs.Stops.{IsStopWithin, StopWithin};
ghost use Rattle.pf_plan.specs.Numbered.{PlacesWithin};
ghost use Rattle.pf_fault.specs.Stops.{unread_in};
ghost use Rattle.pf_plan.specs.declared.draft.Draft.{Draft as AnyDraft};
ghost use Rattle.pf_plan.specs.declared.plan.Plan.{Plan as AnyPlan};
ghost use Rattle.pf_token.specs.Macros.{values_of};
ghost use Rattle.pf_load.specs.Answers.{EndMay, IfLess, IfLighter, IfReady, IsReady, LoadMay, TurnMay, UnitMay, UnitsMay, next_of, work_left};
ghost use Rattle.pf_load.specs.Fit.{IsDraftFit, IsNextFit, is_plan_fit};
ghost use Rattle.pf_load.specs.Load as says;
ghost use Rattle.pf_load.specs.Load.{Loads, MayBe, Tells, told_of, unread_in_load};
ghost use Rattle.pf_load.specs.declared.loading.LoadFault.TheVariants.{NoMemory as no_memory};

use crate::statement::take_statement;
use pf_base::{FaultKind, Level, List, NoMemory, Path, Place, Text};
use pf_entries::declarations_without_a_file;
use pf_fault::{Fault, Stop};
use pf_host::Facts;
use pf_lexer::laws::{lead_without, opening_without};
use pf_lexer::{Define, LexFault, Lexer, Macros, Reads};
use pf_plan::{Draft, Plan, end_fault, plan_of};
use pf_source::Files;
use std::alloc::{AllocFailed, Global};
use thiserror::Error;

/// A load may read this many bytes.
const MOST_BYTES: u64 = 16_777_216;

/// How a file is loaded (pfctl(8), -o, -a, -D).
#[derive(Drop)]
pub struct LoadOptions {
    /// How far rulesets are optimised, whatever the file sets.
    pub level: Option<Level>,
    /// The ruleset that the file fills.
    pub path: Path,
    /// Macros that stand for these values, whatever the file defines.
    pub defines: List<Define>,
}

/// Why a file isn't loaded.
#[derive(Debug, Drop, Error)]
pub enum LoadFault {
    /// What is wrong with a file of the load, the line, and the file's name.
    #[error("a fault in a file")]
    File {
        kind: FaultKind,
        place: Place,
        name: Text,
    },
    /// A file that is absent, or whose read failed.
    #[error("a file that can't be read")]
    CannotRead {
        name: Text,
    },
    /// No memory was found.
    #[error("no memory")]
    NoMemory,
}

impl<T: Drop> From<AllocFailed<T>> for LoadFault {
    ghost from_gives = { λ _ fault. fault ≡ no_memory };

    fn from(_error: AllocFailed<T>) -> LoadFault {
        LoadFault::NoMemory
    }
}

impl From<NoMemory> for LoadFault {
    ghost from_gives = { λ _ fault. fault ≡ no_memory };

    fn from(_error: NoMemory) -> LoadFault {
        LoadFault::NoMemory
    }
}

// A fault with the name of its file.
fn fault_in(alloc: Global, reads: &Reads, fault: Fault) -> LoadFault
    requires { fault.place.file < length reads.now.names }
    ensures tells { Tells (says.told_at reads.now.names fault.kind fault.place) result }
    ensures reads { unread_in_load (Err result) ≡ [] }
{
    match Vec::from_slice(alloc, reads.name(fault.place.file).items()) {
        Ok(name) => LoadFault::File {
            kind: fault.kind,
            place: fault.place,
            name: List::of(name),
        },
        Err(_) => LoadFault::NoMemory,
    }
}

// What stops a load, as it is told.
fn told(alloc: Global, reads: &Reads, stop: Stop) -> LoadFault
    requires { IsStopWithin (length reads.now.names) stop }
    ensures tells { Tells (told_of reads.now.names stop) result }
    ensures reads { unread_in_load (Err result) ≡ unread_in {A = AnyPlan} (Err stop) }
{
    match stop {
        Stop::Fault(fault) => fault_in(alloc, reads, fault),
        Stop::Unread(name) => LoadFault::CannotRead { name },
        Stop::NoMemory => LoadFault::NoMemory,
    }
}

// A lexical fault stops a load.
fn stopped_by(fault: LexFault) -> Stop
    ensures stop { result ≡ says.stopped_by fault }
    ensures reads { unread_in {A = AnyPlan} (Err result) ≡ unread_by fault }
    ensures within { (count : ℕ) → IsNumbered count fault → IsStopWithin count result }
{
    let (kind, place) = match fault {
        LexFault::BadByte(place) => (FaultKind::BadByte, place),
        LexFault::Unterminated(place) => (FaultKind::Unterminated, place),
        LexFault::MacroUndefined(place, name) => (FaultKind::MacroUndefined(name), place),
        LexFault::MacroName(place) => (FaultKind::MacroName, place),
        LexFault::IncludeDepth(place) => (FaultKind::IncludeDepth, place),
        LexFault::TooLarge(place) => (FaultKind::TooLarge, place),
        LexFault::Syntax(place) => (FaultKind::Syntax, place),
        LexFault::CannotRead(name) => return Stop::Unread(name),
        LexFault::NoMemory => return Stop::NoMemory,
    };
    Stop::Fault(Fault { kind, place })
}

// The place of a unit as a whole.
fn unit_at(reads: &Reads, file: &Text) -> Place
    requires { number_of reads.now.names file.now < length reads.now.names }
    ensures at { result ≡ says.unit_at reads.now.names file.now }
    ensures within { result.file < length reads.now.names }
{
    let number = match reads.number(file) {
        Some(number) => number,
        None => 0,
    };
    Place {
        file: number,
        line: 0,
    }
}

// Reads the first file of a unit, in which the macros of the options stand for their values.
fn open_unit<F: Files>(
    alloc: Global,
    files: &mut F,
    reads: &mut Reads,
    options: &LoadOptions,
    file: &Text,
) -> Result<Lexer, Stop>
    ensures means { Told (F.tells files.old).held (λ held. (draft_at : Place → AnyDraft) → UnitMay (file_of held) (values_of options.now.defines) file.now reads.old draft_at result reads.new) }
    ensures asks { Asks (unread_in result) (F.tells files.old) (F.tells files.new) }
    ensures known { IfOk result (λ lexer. lexer.known ≤ length reads.new.names) }
    ensures goes { IfOk result (λ lexer. IsGoing lexer.stage) }
    ensures numbered { IfOk result (λ lexer. number_of reads.new.names file.now < length reads.new.names) }
    ensures lighter { IfOk result (λ lexer. stage_weight lexer.stage reads.new ≤ 2 ^ 65 * reads.old.left) }
    ensures grows { GoesOn reads.old.names reads.new.names }
    ensures within { StopWithin (length reads.new.names) result }
{
    let macros = Macros::new(alloc, options.defines.items())?;
    match Lexer::begin(alloc, files, reads, file, macros) {
        Ok(lexer) => Ok(lexer),
        Err(fault) => Err(stopped_by(fault)),
    }
}

/// How a load goes on where a unit ended.
#[derive(Drop)]
pub enum Next {
    /// With the next unit.
    Reading(Lexer, Draft),
    /// It is over.
    Finished(Plan),
}

// Goes on behind a unit without a fault at its end.
fn begin_next<F: Files>(
    alloc: Global,
    files: &mut F,
    reads: &mut Reads,
    options: &LoadOptions,
    draft: Draft,
) -> Result<Next, Stop>
    requires ended { HasEndFault draft None }
    requires places { PlacesWithin (length reads.old.names) draft }
    ensures means { Told (F.tells files.old).held (λ held. EndMay (file_of held) options.now draft reads.old result reads.new) }
    ensures asks { Asks (unread_in result) (F.tells files.old) (F.tells files.new) }
    ensures ready { IfOk result (λ next. IfReady next reads.new) }
    ensures lighter { IfOk result (λ next. IfLighter draft next reads.old reads.new) }
    ensures fit { IsDraftFit draft → IfOk result IsNextFit }
    ensures within { StopWithin (length reads.new.names) result }
{
    match draft.next_load() {
        None => {
            let plan = plan_of(alloc, options.level, draft)?;
            Ok(Next::Finished(plan))
        }
        Some(next) => {
            let path = next.path;
            match open_unit(alloc, files, reads, options, &next.file) {
                Ok(lexer) => {
                    let place = unit_at(reads, &next.file);
                    let draft = draft.next_unit(alloc, path, place)?;
                    Ok(Next::Reading(lexer, draft))
                }
                Err(stop) => Err(stop),
            }
        }
    }
}

// Goes on at the end of a unit.
fn end_unit<F: Files>(
    alloc: Global,
    files: &mut F,
    reads: &mut Reads,
    options: &LoadOptions,
    draft: Draft,
) -> Result<Next, Stop>
    requires { PlacesWithin (length reads.old.names) draft }
    ensures means { Told (F.tells files.old).held (λ held. EndMay (file_of held) options.now draft reads.old result reads.new) }
    ensures asks { Asks (unread_in result) (F.tells files.old) (F.tells files.new) }
    ensures ready { IfOk result (λ next. IfReady next reads.new) }
    ensures lighter { IfOk result (λ next. IfLighter draft next reads.old reads.new) }
    ensures fit { IsDraftFit draft → IfOk result IsNextFit }
    ensures within { StopWithin (length reads.new.names) result }
{
    match end_fault(&draft) {
        Some(fault) => Err(Stop::Fault(fault)),
        None => begin_next(alloc, files, reads, options, draft),
    }
}

// Goes on with a unit behind a statement.
fn next_of(lexer: Lexer, taken: Result<Draft, Stop>) -> Result<Next, Stop>
    ensures { result ≡ next_of lexer taken }
{
    match taken {
        Ok(draft) => Ok(Next::Reading(lexer, draft)),
        Err(stop) => Err(stop),
    }
}

// Goes on behind the next statement of a unit, or behind its end.
fn take_turn<F: Files>(
    alloc: Global,
    files: &mut F,
    reads: &mut Reads,
    facts: &Facts,
    options: &LoadOptions,
    lexer: Lexer,
    draft: Draft,
) -> Result<Next, Stop>
    requires { IsReady lexer draft reads.old }
    ensures means { Told (F.tells files.old).held (λ held. TurnMay (file_of held) facts.now options.now lexer.stage reads.old draft result reads.new) }
    ensures asks { Asks (unread_in result) (F.tells files.old) (F.tells files.new) }
    ensures ready { IfOk result (λ next. IfReady next reads.new) }
    ensures lighter { IfOk result (λ next. IfLess (work_left lexer.stage reads.old draft) next reads.new) }
    ensures fit { IsDraftFit draft → IfOk result IsNextFit }
    ensures within { StopWithin (length reads.new.names) result }
{
    lead_without();
    let mut lexer = lexer;
    match lexer.next_statement(alloc, files, reads) {
        Ok(Some(statement)) => {
            let taken = take_statement(alloc, files, reads, facts, draft, &statement);
            next_of(lexer, taken)
        }
        Ok(None) => end_unit(alloc, files, reads, options, draft),
        Err(fault) => Err(stopped_by(fault)),
    }
}

// The plan of a load, or what stops it, from where it stands.
fn read_on<F: Files>(
    alloc: Global,
    files: &mut F,
    reads: &mut Reads,
    facts: &Facts,
    options: &LoadOptions,
    lexer: Lexer,
    draft: Draft,
) -> Result<Plan, Stop>
    requires ready { IsReady lexer draft reads.old }
    requires fit { IsDraftFit draft }
    ensures fit { IfOk result (λ plan. is_plan_fit plan ≡ true) }
    ensures means { Told (F.tells files.old).held (λ held. LoadMay (file_of held) facts.now options.now (says.further lexer.stage reads.old draft) result reads.new) }
    ensures asks { Asks (unread_in result) (F.tells files.old) (F.tells files.new) }
    ensures within { StopWithin (length reads.new.names) result }
{
    lead_without();
    opening_without();
    declarations_without_a_file();
    let mut lexer = lexer;
    let mut draft = draft;
    'turns: loop {
        match take_turn(alloc, files, reads, facts, options, lexer, draft) {
            Ok(Next::Reading(unit, next)) => {
                lexer = unit;
                draft = next;
            }
            Ok(Next::Finished(plan)) => return Ok(plan),
            Err(stop) => return Err(stop),
        }
    }
}

// The plan of a file, or what stops its load.
fn load_units<F: Files>(
    alloc: Global,
    files: &mut F,
    reads: &mut Reads,
    facts: &Facts,
    options: &LoadOptions,
    file: &Text,
) -> Result<Plan, Stop>
    requires { reads.old ≡ says.nothing_read }
    ensures fit { IfOk result (λ plan. is_plan_fit plan ≡ true) }
    ensures means { Told (F.tells files.old).held (λ held. UnitsMay (file_of held) facts.now options.now file.now result reads.new) }
    ensures asks { Asks (unread_in result) (F.tells files.old) (F.tells files.new) }
    ensures within { StopWithin (length reads.new.names) result }
{
    opening_without();
    match open_unit(alloc, files, reads, options, file) {
        Ok(lexer) => {
            let place = unit_at(reads, file);
            let draft = Draft::begin(alloc, options.path, place);
            read_on(alloc, files, reads, facts, options, lexer, draft)
        }
        Err(stop) => Err(stop),
    }
}

/// The plan of a file with all that it includes, loads into anchors and reads into tables (pfctl(8), -f); or the fault of the
/// first statement or end of a unit that has one, the first in the order of [`FaultKind`], with the name of its file.
/// `CannotRead` comes only where the files' count of faults rose. No part has over 16,384 rules or tests an automatic table.
pub fn load<F: Files>(
    alloc: Global,
    files: &mut F,
    facts: &Facts,
    options: &LoadOptions,
    file: &Text,
) -> Result<Plan, LoadFault>
    ensures means { Told (F.tells files.old).held (λ held. MayBe (file_of held) (λ disk. Loads disk facts.now options.now file.now) result) }
    ensures asks { Asks (unread_in_load result) (F.tells files.old) (F.tells files.new) }
    ensures fit { IfOk result (λ plan. is_plan_fit plan ≡ true) }
{
    let mut reads = Reads::new(alloc, MOST_BYTES);
    match load_units(alloc, files, &mut reads, facts, options, file) {
        Ok(plan) => Ok(plan),
        Err(stop) => Err(told(alloc, &reads, stop)),
    }
}
