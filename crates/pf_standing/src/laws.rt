//! Laws of the machines that scripts reach, without code.
ghost use Rattle.std.specs.Prelude.{◌≡◌, ℕ, ◌≤◌, List, Some, false};
ghost use Rattle.std.specs.FinMap as finite;
ghost use Rattle.pf_engine.specs.Reached.{IsReached};
ghost use Rattle.pf_engine.specs.Step.{step};
ghost use Rattle.pf_optim.specs.declared.node.Node.{Node as AnyNode};
ghost use Rattle.pf_runs.specs.Runs.{Stepped};
ghost use Rattle.pf_script.specs.Command.{command_of};
ghost use Rattle.pf_script.specs.declared.command.Command.TheVariants.{Commit, Load};
ghost use Rattle.pf_script.specs.declared.command.LoadLine.{LoadLine};
ghost use Rattle.pf_source.specs.Disk.{Disk};
ghost use Rattle.pf_standing.specs.Appearing.{AppearsByCommit, AppearsByLoad};
ghost use Rattle.pf_standing.specs.Numbers.{TicketsAreNumbers};
ghost use Rattle.pf_standing.specs.Standing.{SaysSomething, StandsPlain};
ghost use Rattle.pf_standing.specs.Within.{IsWithin, all_planned_entries, all_planned_rules, all_planned_rulesets};
ghost use Rattle.pf_state.specs.Machine.{empty_machine};
ghost use Rattle.pf_state.specs.Rulesets.{count_entries, count_rules};
ghost use Rattle.pf_state.specs.declared.machine.Machine.{Machine as AnyMachine};

use pf_state::a_load_is_one_replacement;

/// A law: each ruleset that stands has a rule or a declared table, so a path without both isn't in the tree. One without rules has
/// no level and no weights, nor has one of a plan that waits. It is so at first, each line keeps it, and so behind each run of lines.
pub fn what_stands_says_something()
    ensures first { StandsPlain empty_machine }
    ensures on { (disk : Disk) (machine : AnyMachine) (line : List ℕ) (does : Stepped AnyMachine) → StandsPlain machine → step disk machine line does → StandsPlain does.machine }
    ensures reached { (machine : AnyMachine) → IsReached machine → StandsPlain machine }
    ensures each { (machine : AnyMachine) (path : List (List ℕ)) (node : AnyNode) → IsReached machine → finite.get machine.rulesets path ≡ Some node → SaysSomething node }
{
    a_load_is_one_replacement();
}

/// A law: behind each run of lines at most 64 sessions are open, and the tree has at most 131,072 rules as they are written, 4,096
/// rulesets and 262,144 entries of declared tables; all open plans together have no more of each than these (pfctl(8), DIAGNOSTICS).
pub fn what_stands_is_within_the_limits()
    ensures first { IsWithin empty_machine }
    ensures on { (disk : Disk) (machine : AnyMachine) (line : List ℕ) (does : Stepped AnyMachine) → IsWithin machine → step disk machine line does → IsWithin does.machine }
    ensures sessions { (machine : AnyMachine) → IsReached machine → finite.len machine.sessions ≤ 64 }
    ensures rules { (machine : AnyMachine) → IsReached machine → count_rules machine.rulesets ≤ 131072 }
    ensures rulesets { (machine : AnyMachine) → IsReached machine → finite.len machine.rulesets ≤ 4096 }
    ensures entries { (machine : AnyMachine) → IsReached machine → count_entries machine.rulesets ≤ 262144 }
    ensures planned_rules { (machine : AnyMachine) → IsReached machine → all_planned_rules machine.sessions ≤ 131072 }
    ensures planned_rulesets { (machine : AnyMachine) → IsReached machine → all_planned_rulesets machine.sessions ≤ 4096 }
    ensures planned_entries { (machine : AnyMachine) → IsReached machine → all_planned_entries machine.sessions ≤ 262144 }
{}

/// A law: no ticket is 0, which stands for none: none that a path was given, none of an open session, and not the next one. It is so
/// at first, each line keeps it, and so behind each run of lines (pf(4), DIOCXBEGIN).
pub fn tickets_are_numbers()
    ensures first { TicketsAreNumbers empty_machine }
    ensures on { (disk : Disk) (machine : AnyMachine) (line : List ℕ) (does : Stepped AnyMachine) → TicketsAreNumbers machine → step disk machine line does → TicketsAreNumbers does.machine }
    ensures reached { (machine : AnyMachine) → IsReached machine → TicketsAreNumbers machine }
{}

/// A law: where a `commit` is done, the session was open with no ruleset begun anew since, its whole plan stands at once, and only
/// this session is closed. Where a `load` is done, the whole plan that its files come to stands at once, with the ticket that was
/// next (pf(4), DIOCXBEGIN, DIOCXCOMMIT).
pub fn an_accepted_plan_appears_whole()
    ensures commit { (disk : Disk) (machine : AnyMachine) (line name : List ℕ) (does : Stepped AnyMachine) →
        command_of line ≡ Some (Commit name) → step disk machine line does → does.refused ≡ false → AppearsByCommit name machine does.machine }
    ensures load { (disk : Disk) (machine : AnyMachine) (line : List ℕ) (options : LoadLine) (does : Stepped AnyMachine) →
        command_of line ≡ Some (Load options) → step disk machine line does → does.refused ≡ false → AppearsByLoad disk options machine does.machine }
{
    a_load_is_one_replacement();
}
