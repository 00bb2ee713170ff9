//! Laws of the declarations of tables, without code: a caller of a law has its clause.
ghost use Rattle.std.specs.Prelude.{◌≡◌, ◌<◌, ℕ, List, Result, length};
ghost use Rattle.pf_base.specs.declared.fault.Place.{Place};
ghost use Rattle.pf_decl.specs.declared.form.TableForm.{TableForm};
ghost use Rattle.pf_fault.specs.declared.fault.Stop.{Stop as AnyStop};
ghost use Rattle.pf_host.specs.Facts.{HostFacts};
ghost use Rattle.pf_lexer.specs.ReadSoFar.{ReadSoFar};
ghost use Rattle.pf_shelf.specs.declared.decl.TableDecl.{TableDecl};
ghost use Rattle.pf_source.specs.Disk.{Disk};
ghost use Rattle.pf_entries.specs.Stays.{TableStays};
ghost use Rattle.pf_entries.specs.Tables.{TableComes};
ghost use Rattle.pf_entries.specs.Without.{TableWithout};

use pf_addr::texts_are_read_in_one_way;
use pf_word::words_have_one_meaning;

/// Over a disk a declaration comes to one thing.
pub fn declarations_come_to_one_thing()
    ensures { (disk : Disk) (facts : HostFacts) (tables : List TableDecl) (form : TableForm) (place : Place) (reads later latest : ReadSoFar) (answer other : Result TableDecl AnyStop)
        → TableComes disk facts tables form place reads answer later → TableComes disk facts tables form place reads other latest → (answer ≡ other) × (later ≡ latest) }
{
    words_have_one_meaning();
    texts_are_read_in_one_way();
}

/// Over a disk it can't be that nothing is what a declaration comes to.
pub fn declarations_come_to_something()
    ensures { (disk : Disk) (facts : HostFacts) (tables : List TableDecl) (form : TableForm) (place : Place) (reads : ReadSoFar)
        → ((answer : Result TableDecl AnyStop) (later : ReadSoFar) → TableComes disk facts tables form place reads answer later → ⊥) → ⊥ }
{}

/// What a declaration leaves of what a load may read.
pub fn declarations_stay_within()
    ensures { (disk : Disk) (facts : HostFacts) (tables : List TableDecl) (form : TableForm) (place : Place) (reads later : ReadSoFar) (answer : Result TableDecl AnyStop)
        → TableComes disk facts tables form place reads answer later → place.file < length reads.names → TableStays reads answer later }
{}

/// Without one file a declaration comes to the same, or that file can't be read.
pub fn declarations_without_a_file()
    ensures { (disk : Disk) (gone : List ℕ) (facts : HostFacts) (tables : List TableDecl) (form : TableForm) (place : Place) (reads later : ReadSoFar) (answer : Result TableDecl AnyStop)
        → TableComes disk facts tables form place reads answer later → TableWithout disk gone facts tables form place reads answer later }
{}
