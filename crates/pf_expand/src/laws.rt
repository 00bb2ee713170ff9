//! Laws of the definitions, for the crates above: a caller of a law has its clauses.
ghost use Rattle.std.specs.Prelude.{◌≡◌, ◌≤◌, ℕ, List, length, true, Ok, Result};
ghost use Rattle.std.specs.List.{list_all};
ghost use Rattle.pf_base.specs.declared.fault.FaultKind.{FaultKind as Fault};
ghost use Rattle.pf_form.specs.declared.form.RuleForm.{RuleForm};
ghost use Rattle.pf_host.specs.Facts.{HostFacts};
ghost use Rattle.pf_parts.specs.declared.call.Call.{Call};
ghost use Rattle.pf_rule.specs.declared.rule.Rule.{Rule};
ghost use Rattle.pf_expand.specs.Expansion.{Expands};
ghost use Rattle.pf_expand.specs.Written.{has_no_auto, is_of_one_family, is_settled};
ghost use Rattle.pf_expand.specs.declared.order.Defaults.{Defaults as Policies};
ghost use Rattle.pf_expand.specs.declared.order.Order.{Order as First};

use pf_word::{each_word_means_something, words_have_one_meaning};

/// A statement comes to one thing alone: its first rules, or one fault.
pub fn a_statement_comes_to_one_thing()
    ensures { (form : RuleForm) (call : Call) (order : First) (facts : HostFacts) (defaults : Policies) (room : ℕ) (answer other : Result (List Rule) Fault)
        → Expands form call order facts defaults room answer → Expands form call order facts defaults room other → answer ≡ other }
{
    words_have_one_meaning();
}

/// A statement comes to something: it can't be that no answer is what it comes to, whatever its words are.
pub fn a_statement_comes_to_something()
    ensures { (form : RuleForm) (call : Call) (order : First) (facts : HostFacts) (defaults : Policies) (room : ℕ)
        → ((answer : Result (List Rule) Fault) → Expands form call order facts defaults room answer → ⊥) → ⊥ }
{
    each_word_means_something();
}

/// The rules that a statement comes to are as an optimiser wants written rules. None names an automatic table; the families
/// that a rule's ICMP type, source and target name are the rule's own; `floating` is off in each, since it has done its work;
/// and there are at most as many as there was room for.
pub fn expanded_rules_are_written()
    ensures tables { (form : RuleForm) (call : Call) (order : First) (facts : HostFacts) (defaults : Policies) (room : ℕ) (rules : List Rule)
        → Expands form call order facts defaults room (Ok rules) → list_all has_no_auto rules ≡ true }
    ensures families { (form : RuleForm) (call : Call) (order : First) (facts : HostFacts) (defaults : Policies) (room : ℕ) (rules : List Rule)
        → Expands form call order facts defaults room (Ok rules) → list_all is_of_one_family rules ≡ true }
    ensures floating { (form : RuleForm) (call : Call) (order : First) (facts : HostFacts) (defaults : Policies) (room : ℕ) (rules : List Rule)
        → Expands form call order facts defaults room (Ok rules) → list_all is_settled rules ≡ true }
    ensures few { (form : RuleForm) (call : Call) (order : First) (facts : HostFacts) (defaults : Policies) (room : ℕ) (rules : List Rule)
        → Expands form call order facts defaults room (Ok rules) → length rules ≤ room }
{}
