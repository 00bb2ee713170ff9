//! Laws of walks through trees.
ghost use Rattle.std.specs.Prelude.{◌≡◌, ◌+◌, ℕ, List, Some, drop};
ghost use Rattle.std.specs.FinMap as fin;
ghost use Rattle.std.specs.List.{slice_get};
ghost use Rattle.pf_calls.specs.Graph.{IsShallow};
ghost use Rattle.pf_eval.specs.Answers.{optimised_world, written_world};
ghost use Rattle.pf_eval.specs.Chain.{IsChain, passed_over, tests_at};
ghost use Rattle.pf_eval.specs.Rows.{CallsNoMore};
ghost use Rattle.pf_eval.specs.Rulesets.{AreSound, Rulesets, graph_in};
ghost use Rattle.pf_eval.specs.Steps.{on_optimised, on_written};
ghost use Rattle.pf_eval.specs.World.{ActsOnce, IsWalk, StandForEachOther, Walker, World, walk_at, walk_within};
ghost use Rattle.pf_host.specs.Facts.{HostFacts};
ghost use Rattle.pf_optim.specs.Ruleset.{IsSound, form_of};
ghost use Rattle.pf_optim.specs.Skips.{skip};
ghost use Rattle.pf_optim.specs.declared.node.Node.{Node as AnyNode};
ghost use Rattle.pf_rule.specs.Walking.{walked_through};
ghost use Rattle.pf_rule.specs.declared.rule.Rule.{Rule as FilterRule};
ghost use Rattle.pf_rule.specs.declared.testing.Tested.TheVariants.{Field as FailsFirst};
ghost use Rattle.pf_rule.specs.declared.walk.Walk.{Walk as PacketWalk};

use pf_optim::{Ruleset, optimised_rules_name_their_tables, optimised_rules_walk_alike};
use pf_rule::{Rule, Walk, effect_twice_is_once, laws_of_walks};

/// A law: where calls go in no circle and no more than 64 rulesets call one another in a chain, the walk with a bound is the
/// walk without one, and there is no other (pf.conf(5), ANCHORS). The walks may be of any kind `W`.
pub fn walks_need_no_bound<W>()
    ensures walk { (by : Walker W) (trees : Rulesets) (facts : HostFacts) → IsShallow (graph_in trees) 64 →
        IsWalk by (written_world trees facts) (walk_at by (written_world trees facts)) }
    ensures only { (by : Walker W) (trees : Rulesets) (facts : HostFacts) (other : List (List ℕ) → W → W) →
        IsShallow (graph_in trees) 64 → IsWalk by (written_world trees facts) other →
        (at : List (List ℕ)) (walk : W) → other at walk ≡ walk_at by (written_world trees facts) at walk }
{
    laws_of_walks::<W, Rule>();
}

/// A law: the optimised rules of each ruleset of a tree stand for its written rules wherever the ruleset is walked, whatever
/// the rulesets do that it calls; and so the walk through the whole tree is the same by the one as by the other. What rules
/// do to the walks, of any kind `W`, that are no anchors, done twice is done once.
pub fn optimised_rulesets_stand_for_written_ones<W>()
    ensures stand { (by : Walker W) (trees : Rulesets) (facts : HostFacts) → ActsOnce by → AreSound trees →
        StandForEachOther by (optimised_world trees facts) (written_world trees facts) }
    ensures walk { (by : Walker W) (one other : World) (bound : ℕ) (at : List (List ℕ)) (walk : W) →
        StandForEachOther by one other → walk_within by one bound at walk ≡ walk_within by other bound at walk }
{
    optimised_rules_walk_alike::<W>();
    optimised_rules_name_their_tables();
}

/// A law: where calls go in no circle and no more than 64 rulesets call one another in a chain, the tests that are counted with
/// a bound are those without one, and there are no others: the tests of the rules at each path and of those that they call.
pub fn tests_need_no_bound<W>()
    ensures tests { (by : Walker W) (trees : Rulesets) (facts : HostFacts) → AreSound trees → IsShallow (graph_in trees) 64 →
        IsChain by (optimised_world trees facts) (walk_at by (written_world trees facts)) (tests_at by (optimised_world trees facts) (written_world trees facts)) }
    ensures only { (by : Walker W) (trees : Rulesets) (facts : HostFacts) (walk_from : List (List ℕ) → W → W) (tests_from : List (List ℕ) → W → ℕ) →
        AreSound trees → IsShallow (graph_in trees) 64 →
        IsWalk by (written_world trees facts) walk_from → IsChain by (optimised_world trees facts) walk_from tests_from →
        (at : List (List ℕ)) (walk : W) → tests_from at walk ≡ tests_at by (optimised_world trees facts) (written_world trees facts) at walk }
{
    laws_of_walks::<W, Rule>();
    optimised_rules_name_their_tables();
}

/// A law: behind a rule that fails in a field first, those are passed over that stand before the place to which the skip of
/// this field leads.
pub fn rules_up_to_a_skip_are_passed_over()
    ensures { (rules : List FilterRule) (place field : ℕ) (rule : FilterRule) → slice_get rules place ≡ Some rule →
        skip rules place field ≡ place + 1 + passed_over (FailsFirst field) rule (drop (place + 1) rules) }
{}

/// A law: a tree stays shallow where rulesets and calls are taken away.
pub fn fewer_calls_stay_shallow()
    ensures { (less more : Rulesets) (most : ℕ) → CallsNoMore less more → IsShallow (graph_in more) most → IsShallow (graph_in less) most }
{}

// What the optimised rules of one ruleset do to a packet's walk is what the written ones do.
pub(crate) fn optimised_walk_is_written()
    ensures { (trees : Rulesets) (facts : HostFacts) (left : ℕ) (at : List (List ℕ)) (node : AnyNode) (walk : PacketWalk) →
        fin.get trees at ≡ Some node → IsSound node.rules →
        walked_through (on_optimised trees facts left at) (form_of node.rules).rules walk
        ≡ walked_through (on_written trees facts left at) node.rules.rules walk }
{
    optimised_rules_walk_alike::<Walk>();
    optimised_rules_name_their_tables();
    effect_twice_is_once();
}

// What a ruleset keeps of its rules.
pub(crate) fn ruleset_is_sound(rules: &Ruleset)
    ensures { IsSound rules.now }
{
    let _written = rules.written();
}
