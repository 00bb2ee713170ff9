//! Laws of runs, without code.
ghost use Rattle.std.specs.Prelude.{◌≡◌, ◌+◌, ℕ, false, List};
ghost use Rattle.pf_engine.specs.Step.{step};
ghost use Rattle.pf_genload.specs.Generated.{generated_disk};
ghost use Rattle.pf_runs.specs.Runs.{Script, Stepped};
ghost use Rattle.pf_source.specs.Disk.{Disk};
ghost use Rattle.pf_state.specs.Machine.{empty_machine};
ghost use Rattle.pf_state.specs.declared.machine.Machine.{Machine};
ghost use Rattle.pf_base.specs.declared.kind.Level.{Level};
ghost use Rattle.pf_state.specs.Rulesets.{count_rules};
ghost use Rattle.pfctl.specs.declared.generating.Summary.{Summary};
ghost use Rattle.pfctl.specs.Generating.{Generates, Summed, load_line};

use pf_engine::{Engine, a_line_does_one_thing};
use pf_genload::{
    a_generated_configuration_loads, a_plan_of_one_ruleset_answers_alike,
    a_plan_of_one_ruleset_stands, a_walk_passes_or_blocks, generated_records_are_packets,
};
use pf_record::a_record_is_read_one_way;
use pf_runs::a_script_has_one_run;

/// Over the same files the lines of a script have one run without outages at most: the machine behind it and what it
/// writes are determined.
pub fn a_script_writes_one_thing()
    ensures { (disk : Disk) (machine : Machine) (lines : List (List ℕ)) (a b : Script step disk machine lines) → a.events ≡ b.events }
{
    a_line_does_one_thing();
    a_script_has_one_run::<Engine>();
}

/// The generated run of a number comes to one thing at most: its reply is determined.
pub fn a_number_comes_to_one_thing()
    ensures { (number : ℕ) (a b : List (List ℕ)) → Generates number a → Generates number b → a ≡ b }
{
    a_number_counts_alike_at_each_level();
}

/// What a number comes to is one thing at most, and the same at every level: so many rules, and so many records that pass and that
/// are blocked (pfctl(8), -o).
pub fn a_number_counts_alike_at_each_level()
    ensures { (number : ℕ) (a b : Level) (one other : Summary) → Summed number a one → Summed number b other → one ≡ other }
{
    a_generated_configuration_loads();
    a_plan_of_one_ruleset_stands();
    a_plan_of_one_ruleset_answers_alike();
    a_record_is_read_one_way();
}

/// The load of a generated configuration into the empty machine is never refused, whatever the number and the level, and leaves
/// 2,001 rules.
pub fn a_generated_load_is_done()
    ensures done { (number : ℕ) (level : Level) (does : Stepped Machine) → step (generated_disk number) empty_machine (load_line level) does → does.refused ≡ false }
    ensures rules { (number : ℕ) (level : Level) (does : Stepped Machine) → step (generated_disk number) empty_machine (load_line level) does
        → count_rules does.machine.rulesets ≡ 2001 }
{
    a_generated_configuration_loads();
    a_plan_of_one_ruleset_stands();
}

/// Each of the 5,000 records of a number passes or is blocked, whatever the number and the level: the two counts of its run make 5,000
/// together.
pub fn every_generated_record_is_answered()
    ensures { (number : ℕ) (level : Level) (summary : Summary) → Summed number level summary → summary.pass + summary.block ≡ 5000 }
{
    a_generated_configuration_loads();
    a_plan_of_one_ruleset_stands();
    generated_records_are_packets();
    a_walk_passes_or_blocks();
    a_record_is_read_one_way();
}
