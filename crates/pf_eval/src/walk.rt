//! The walk through the rulesets of a tree.
ghost use Rattle.std.specs.Prelude.{◌≡◌, ◌+◌, ◌<◌, ◌++◌, ◌∷◌, ◌||◌, ◌&&◌, [], drop, false, length, Some, if◌then◌else◌};
ghost use Rattle.std.specs.FinMap as fin;
ghost use Rattle.std.specs.Option.{option_copied};
ghost use Rattle.pf_base.specs.Path.{child_path, is_reserved};
ghost use Rattle.pf_eval.specs.Rulesets.{call_of, named_children};
ghost use Rattle.pf_eval.specs.Steps.{call_at, call_tests, children_tests, children_walk, deed_at, list_tests, on_optimised, rule_tests, tests_left, walk_left};
ghost use Rattle.pf_eval.specs.World.{anchored, packet_walker};
ghost use Rattle.pf_optim.specs.Ruleset.{form_of};
ghost use Rattle.pf_parts.specs.CallTarget.{target_of};
ghost use Rattle.pf_rule.specs.Walking.{walked_through};

use crate::laws::{optimised_walk_is_written, ruleset_is_sound};
use crate::tables::Tables;
use pf_base::{Ledger, Name, Path, Steps};
use pf_host::Facts;
use pf_optim::Node;
use pf_rule::{Action, Call, Marks, Probe, Rule, Tested, equal_fields_test_alike};
use pf_tree::Tree;

/// What is lent to a walk: the tree, and the facts of the host.
#[derive(Clone, Copy)]
pub(crate) struct Site<'a> {
    pub tree: &'a Tree<Node>,
    pub facts: &'a Facts,
}

/// Walks the ruleset at a path, where there is one and so many rulesets may be walked, one calling the next.
#[cycle(walk)]
pub(crate) fn walk_ruleset<P: Probe<L>, L: Ledger>(
    site: &Site<'_>,
    at: &Path,
    left: usize,
    probe: &mut P,
    steps: &mut Steps<L>,
)
    ensures walk { let trees = site.now.tree.now.payloads in let facts = site.now.facts.now in
        P.walk probe.new ≡ walk_left trees facts left at.now (P.walk probe.old) }
    ensures counted { let trees = site.now.tree.now.payloads in let facts = site.now.facts.now in
        steps.new ≡ steps.old + tests_left trees facts left at.now (P.walk probe.old) }
{
    if left == 0 {
        return;
    }
    let Some(node) = site.tree.get(at) else {
        return;
    };
    let tables = Tables {
        own: node,
        main: site.tree.get(&Path::main()),
    };
    ruleset_is_sound(&node.rules);
    optimised_walk_is_written();
    walk_rules(site, &tables, at, left - 1, probe, steps);
}

// Walks the optimised rules of the ruleset at a path, where so many rulesets more may be walked.
#[cycle(walk)]
fn walk_rules<P: Probe<L>, L: Ledger>(
    site: &Site<'_>,
    tables: &Tables<'_>,
    at: &Path,
    left: usize,
    probe: &mut P,
    steps: &mut Steps<L>,
)
    requires own { fin.get site.now.tree.now.payloads at.now ≡ Some tables.now.own.now }
    requires main { option_copied tables.now.main ≡ fin.get site.now.tree.now.payloads [] }
    ensures walk { let trees = site.now.tree.now.payloads in let facts = site.now.facts.now in
        P.walk probe.new ≡ walked_through (on_optimised trees facts left at.now) (form_of tables.now.own.now.rules).rules (P.walk probe.old) }
    ensures counted { let trees = site.now.tree.now.payloads in let facts = site.now.facts.now in
        steps.new ≡ steps.old + list_tests trees facts left at.now (form_of tables.now.own.now.rules).rules (P.walk probe.old) }
{
    let mut place = 0;
    while place < tables.own.rules.fast().len() {
        if probe.marks().stop {
            break;
        }
        place = take_rule(site, tables, at, left, place, probe, steps);
    }
}

// Tests the rule at a place, does what it does where it matches, and says where to go on. What is left to do from there is
// what was left from this place.
#[cycle(walk)]
fn take_rule<P: Probe<L>, L: Ledger>(
    site: &Site<'_>,
    tables: &Tables<'_>,
    at: &Path,
    left: usize,
    place: usize,
    probe: &mut P,
    steps: &mut Steps<L>,
) -> usize
    requires own { fin.get site.now.tree.now.payloads at.now ≡ Some tables.now.own.now }
    requires main { option_copied tables.now.main ≡ fin.get site.now.tree.now.payloads [] }
    requires inside { place < length (form_of tables.now.own.now.rules).rules }
    requires going { (P.walk probe.old).stop ≡ false }
    ensures further { place < result }
    ensures walk { let trees = site.now.tree.now.payloads in let facts = site.now.facts.now in
        let rules = (form_of tables.now.own.now.rules).rules in
        walked_through (on_optimised trees facts left at.now) (drop result rules) (P.walk probe.new)
        ≡ walked_through (on_optimised trees facts left at.now) (drop place rules) (P.walk probe.old) }
    ensures counted { let trees = site.now.tree.now.payloads in let facts = site.now.facts.now in
        let rules = (form_of tables.now.own.now.rules).rules in
        steps.new + list_tests trees facts left at.now (drop result rules) (P.walk probe.new)
        ≡ steps.old + list_tests trees facts left at.now (drop place rules) (P.walk probe.old) }
{
    equal_fields_test_alike();
    let rules = &tables.own.rules;
    let rule = &rules.fast()[place];
    match probe.test(rule, tables, site.facts, steps) {
        Tested::Hit => {
            act(site, rule, at, left, probe, steps);
            place + 1
        }
        Tested::Field(field) => rules.skip(place as u32, field) as usize,
        Tested::Other => place + 1,
    }
}

// The call of an anchor rule.
fn call_by(action: &Action) -> Option<&Call>
    ensures { option_copied result ≡ call_of action.now }
{
    match action {
        Action::Anchor(call) => Some(call),
        Action::Pass | Action::Block(_) | Action::Match => None,
    }
}

// Does what a rule does that matches.
#[cycle(walk)]
fn act<P: Probe<L>, L: Ledger>(
    site: &Site<'_>,
    rule: &Rule,
    at: &Path,
    left: usize,
    probe: &mut P,
    steps: &mut Steps<L>,
)
    ensures walk { let trees = site.now.tree.now.payloads in let facts = site.now.facts.now in
        P.walk probe.new ≡ deed_at trees facts left at.now rule.now.effect.action rule.now.effect (P.walk probe.old) }
    ensures counted { let trees = site.now.tree.now.payloads in let facts = site.now.facts.now in
        steps.new ≡ steps.old + rule_tests trees facts left at.now rule.now (P.walk probe.old) }
{
    match call_by(&rule.effect.action) {
        Some(call) => walk_anchor(site, call, rule.effect.quick, at, left, probe, steps),
        None => probe.apply(rule),
    }
}

// Walks what an anchor rule calls. The marks that it leaves say that a pass or block rule has matched, before or within, and
// that the walk ends, where the anchor rule is quick and one has matched within.
#[cycle(walk)]
fn walk_anchor<P: Probe<L>, L: Ledger>(
    site: &Site<'_>,
    call: &Call,
    quick: bool,
    at: &Path,
    left: usize,
    probe: &mut P,
    steps: &mut Steps<L>,
)
    ensures walk { let trees = site.now.tree.now.payloads in let facts = site.now.facts.now in
        P.walk probe.new ≡ anchored packet_walker (named_children trees) (walk_left trees facts left) at.now call.now quick (P.walk probe.old) }
    ensures counted { let trees = site.now.tree.now.payloads in let facts = site.now.facts.now in
        steps.new ≡ steps.old + call_tests trees facts left call.now.children (target_of call.now at.now) (packet_walker.enter (P.walk probe.old)) }
{
    let before = probe.marks();
    probe.set_marks(Marks {
        matched: false,
        stop: before.stop,
    });
    walk_called(site, call, at, left, probe, steps);
    let after = probe.marks();
    probe.set_marks(marks_behind(quick, before, after));
}

// The marks behind an anchor, by those before its rules and those after them.
fn marks_behind(quick: bool, before: Marks, after: Marks) -> Marks
    ensures { result ≡ record { matched = before.matched || after.matched; stop = after.stop || (quick && after.matched) } }
{
    Marks {
        matched: before.matched || after.matched,
        stop: after.stop || (quick && after.matched),
    }
}

// Walks the ruleset that is called, or with a wildcard those right below it.
#[cycle(walk)]
fn walk_called<P: Probe<L>, L: Ledger>(
    site: &Site<'_>,
    call: &Call,
    at: &Path,
    left: usize,
    probe: &mut P,
    steps: &mut Steps<L>,
)
    ensures walk { let trees = site.now.tree.now.payloads in let facts = site.now.facts.now in
        P.walk probe.new ≡ call_at trees facts left call.now.children (target_of call.now at.now) (P.walk probe.old) }
    ensures counted { let trees = site.now.tree.now.payloads in let facts = site.now.facts.now in
        steps.new ≡ steps.old + call_tests trees facts left call.now.children (target_of call.now at.now) (P.walk probe.old) }
{
    let Some(target) = call.target(at) else {
        return;
    };
    if call.children {
        walk_children(site, &target, left, probe, steps);
    } else {
        walk_ruleset(site, &target, left, probe, steps);
    }
}

// Walks the rulesets right below a path that have names of their own, in byte order, up to a walk that has stopped.
#[cycle(walk)]
fn walk_children<P: Probe<L>, L: Ledger>(
    site: &Site<'_>,
    at: &Path,
    left: usize,
    probe: &mut P,
    steps: &mut Steps<L>,
)
    ensures walk { let trees = site.now.tree.now.payloads in let facts = site.now.facts.now in
        P.walk probe.new ≡ children_walk trees facts left at.now (named_children trees at.now) (P.walk probe.old) }
    ensures counted { let trees = site.now.tree.now.payloads in let facts = site.now.facts.now in
        steps.new ≡ steps.old + children_tests trees facts left at.now (named_children trees at.now) (P.walk probe.old) }
{
    let mut last = None;
    while let Some(name) = site.tree.next_child(at, last.as_ref()) {
        if probe.marks().stop {
            break;
        }
        walk_child(site, at, &name, left, probe, steps);
        last = Some(name);
    }
}

// Walks the ruleset with this name right below a path, unless it is that of an anchor without a name.
#[cycle(walk)]
fn walk_child<P: Probe<L>, L: Ledger>(
    site: &Site<'_>,
    at: &Path,
    name: &Name,
    left: usize,
    probe: &mut P,
    steps: &mut Steps<L>,
)
    requires { child_path at.now name.now ≡ Some (at.now ++ name.now ∷ []) }
    ensures walk { let trees = site.now.tree.now.payloads in let facts = site.now.facts.now in
        P.walk probe.new ≡ (if is_reserved name.now then P.walk probe.old else walk_left trees facts left (at.now ++ name.now ∷ []) (P.walk probe.old)) }
    ensures counted { let trees = site.now.tree.now.payloads in let facts = site.now.facts.now in
        steps.new ≡ steps.old + (if is_reserved name.now then 0 else tests_left trees facts left (at.now ++ name.now ∷ []) (P.walk probe.old)) }
{
    if name.is_reserved() {
        return;
    }
    let Some(child) = at.child(name) else {
        return;
    };
    walk_ruleset(site, &child, left, probe, steps);
}
