//! Laws of units, without code: something comes next, it is one thing, where it stands, and what a failed read stands for.
ghost use Rattle.std.specs.Prelude.{◌≡◌, ℕ, List, [], Ok, Option, Result, Some, length};
ghost use Rattle.pf_source.specs.Disk.{AreAbsent, Disk};
ghost use Rattle.pf_token.specs.declared.cell.Cell.{Cell};
ghost use Rattle.pf_lexer.specs.declared.fault.LexFault.{LexFault};
ghost use Rattle.pf_token.specs.Macros.{Table};
ghost use Rattle.pf_lexer.specs.Calls.{StandsIn, unread_in};
ghost use Rattle.pf_lexer.specs.Coming.{Finishes, HasLead, HasStatement, HasStatements, LeadsWithin, OpensWithin};
ghost use Rattle.pf_lexer.specs.Outages.{LeadsWithout, OpensWithout};
ghost use Rattle.pf_lexer.specs.ReadSoFar.{ReadSoFar};
ghost use Rattle.pf_lexer.specs.Stages.{Stage, Standing, going};
ghost use Rattle.pf_lexer.specs.Units.{Answer, Leads, Opens, start_in};
ghost use Rattle.pf_lexer.specs.declared.deed.Statement.{Statement};

use pf_token::{descents_end, next_is_one, next_stays_in, something_comes_next};

/// A file is read in one way, where it isn't there if it can't be read.
pub fn opening_is_one()
    ensures { (disk : Disk) (name : List ℕ) (reads later latest : ReadSoFar) (first second : Result (List Cell) LexFault) →
        Opens disk name reads first later → Opens disk name reads second latest →
        AreAbsent disk (unread_in first) → AreAbsent disk (unread_in second) → (first ≡ second) × (later ≡ latest) }
{}

/// What comes next of a unit is one thing, where each file that can't be read isn't there.
pub fn lead_is_one()
    ensures { (disk : Disk) (stage next other : Stage) (reads later latest : ReadSoFar) (first second : Answer) →
        Leads disk stage reads first next later → Leads disk stage reads second other latest →
        AreAbsent disk (unread_in first) → AreAbsent disk (unread_in second) → (first ≡ second) × (next ≡ other) × (later ≡ latest) }
{
    next_is_one();
}

/// Without one file a reading is the same, or that file can't be read.
pub fn opening_without()
    ensures { (disk : Disk) (gone name : List ℕ) (reads later : ReadSoFar) (answer : Result (List Cell) LexFault) →
        Opens disk name reads answer later → OpensWithout disk gone name reads answer later }
{}

/// Without one file the same comes next of a unit, or that file can't be read.
pub fn lead_without()
    ensures { (disk : Disk) (gone : List ℕ) (stage next : Stage) (reads later : ReadSoFar) (answer : Answer) →
        Leads disk stage reads answer next later → LeadsWithout disk gone stage reads answer next later }
{}

/// What comes of reading a file stands in the files that have a number.
pub fn opening_stays_within()
    ensures { (disk : Disk) (name : List ℕ) (reads later : ReadSoFar) (result : Result (List Cell) LexFault) →
        Opens disk name reads result later → OpensWithin result later }
{}

/// A statement ends.
pub fn a_statement_ends()
    ensures { (values : List ℕ → Option (List ℕ)) (cells : List Cell) → HasStatement values cells }
{
    next_is_one();
    something_comes_next();
    descents_end();
}

/// Something comes next of a unit, over each disk.
pub fn something_leads()
    ensures { (disk : Disk) (unit : Standing) (reads : ReadSoFar) → HasLead disk unit reads }
{
    next_is_one();
    something_comes_next();
    descents_end();
}

/// What comes next of a unit stands in the files that have a number.
pub fn lead_stays_within()
    ensures { (disk : Disk) (unit : Standing) (next : Stage) (reads later : ReadSoFar) (answer : Answer) →
        Leads disk (going unit) reads answer next later → StandsIn (length reads.names) unit → LeadsWithin answer next later }
{
    next_stays_in();
}

/// A unit has its statements, over each disk: up to its end or its first fault.
pub fn a_unit_has_statements()
    ensures { (disk : Disk) (macros : Table) (name : List ℕ) (reads : ReadSoFar) → HasStatements disk macros name reads }
{
    next_is_one();
    something_comes_next();
    descents_end();
}

/// A unit ends, over each disk and wherever it stands.
pub fn units_finish()
    ensures { (disk : Disk) (stage : Stage) (reads : ReadSoFar) → Finishes disk stage reads }
{
    next_is_one();
    something_comes_next();
    descents_end();
}

/// A unit whose first file is empty has no statement.
pub fn empty_files_say_nothing()
    ensures { (disk : Disk) (macros : Table) (reads later : ReadSoFar) (next : Stage) (statement : Statement) →
        Leads disk (start_in macros []) reads (Ok (Some statement)) next later → ⊥ }
{
    next_is_one();
}
