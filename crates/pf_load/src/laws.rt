//! Laws of loads, without code.
ghost use Rattle.std.specs.Prelude.{◌≡◌, ℕ, Err, List, None, Ok, Some};
ghost use Rattle.pf_host.specs.Facts.{HostFacts};
ghost use Rattle.pf_source.specs.Disk.{Disk, without};
ghost use Rattle.pf_plan.specs.declared.plan.Plan.{Plan as AnyPlan};
ghost use Rattle.pf_load.specs.Load.{ComesToSomething, Loads, Outcome};
ghost use Rattle.pf_load.specs.Paths.{FillsOnce};
ghost use Rattle.pf_load.specs.declared.loading.LoadFault.TheVariants.{NoMemory as no_memory};
ghost use Rattle.pf_load.specs.declared.loading.LoadOptions.{LoadOptions as Options};

use pf_decl::{tokens_declare_or_are_refused, tokens_have_one_declaration};
use pf_entries::{
    declarations_come_to_one_thing, declarations_come_to_something, declarations_stay_within,
};
use pf_expand::{a_statement_comes_to_one_thing, a_statement_comes_to_something};
use pf_lexer::laws::{
    empty_files_say_nothing, lead_is_one, lead_stays_within, opening_is_one, opening_stays_within,
    something_leads, units_finish,
};
use pf_plan::{drafts_stay_within, ends_come_to_something, ends_have_one_fault, ends_stay_within};

/// A law: over a disk a load comes to one thing.
pub fn a_load_comes_to_one_thing()
    ensures { (disk : Disk) (facts : HostFacts) (options : Options) (file : List ℕ) (a b : Outcome) →
        Loads disk facts options file a → Loads disk facts options file b → a ≡ b }
{
    lead_is_one();
    opening_is_one();
    tokens_have_one_declaration();
    a_statement_comes_to_one_thing();
    declarations_come_to_one_thing();
    ends_have_one_fault();
}

/// A law: over each disk a load comes to something; it can't be that nothing is what it comes to.
pub fn a_load_comes_to_something()
    ensures { (disk : Disk) (facts : HostFacts) (options : Options) (file : List ℕ) → ComesToSomething disk facts options file }
{
    something_leads();
    lead_stays_within();
    opening_stays_within();
    tokens_declare_or_are_refused();
    a_statement_comes_to_something();
    units_finish();
    empty_files_say_nothing();
    declarations_come_to_something();
    declarations_stay_within();
    ends_come_to_something();
    ends_stay_within();
    drafts_stay_within();
}

/// A law: a file that is absent is no outage. Over a disk without it a load comes to the same.
pub fn an_absent_file_is_no_outage()
    ensures { (disk : Disk) (facts : HostFacts) (options : Options) (file name : List ℕ) (outcome : Outcome) → disk name ≡ None →
        Loads (without (Some name) disk) facts options file outcome → Loads disk facts options file outcome }
{}

/// A law: no load comes to a want of memory.
pub fn no_load_comes_to_want_of_memory()
    ensures { (disk : Disk) (facts : HostFacts) (options : Options) (file : List ℕ) → Loads disk facts options file (Err no_memory) → ⊥ }
{}

/// A law: over a disk a load fills each of its rulesets once, first the one that it is into, and then rulesets below it.
pub fn a_load_fills_each_ruleset_once()
    ensures { (disk : Disk) (facts : HostFacts) (options : Options) (file : List ℕ) (plan : AnyPlan) → Loads disk facts options file (Ok plan) → FillsOnce options.path plan }
{}
