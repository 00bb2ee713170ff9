//! Laws of covering, for the crate above: a caller of a law has its clauses.
ghost use Rattle.std.specs.Prelude.{◌≡◌, ◌≤◌, ℕ, Bool, List, true, length, sum, All};
ghost use Rattle.std.specs.List.{list_all, list_any};
ghost use Rattle.pf_cover.specs.Cover.{covers};
ghost use Rattle.pf_cover.specs.Kept.{is_dropped, kept, kept_rules, kept_weights};
ghost use Rattle.pf_rule.specs.Around.{Around};
ghost use Rattle.pf_rule.specs.Hit.{hits_at};
ghost use Rattle.pf_rule.specs.declared.criteria.Criteria.{Criteria};
ghost use Rattle.pf_rule.specs.declared.effect.Effect.{Effect};
ghost use Rattle.pf_rule.specs.declared.rule.Rule.{Rule};
ghost use Rattle.pf_rule.specs.declared.walk.Walk.{Walk};

use pf_addr::stretches_have_the_addresses;

/// A rule that covers another matches each packet that the other matches, whatever the tables and the interfaces have.
/// A rule covers itself, and those that a rule which it covers covers.
pub fn covering_rules_match_more()
    ensures hits { (around : Around) (wide narrow : Rule) (walk : Walk) →
        covers wide.criteria narrow.criteria ≡ true → hits_at around narrow walk ≡ true → hits_at around wide walk ≡ true }
    ensures itself { (criteria : Criteria) → covers criteria criteria ≡ true }
    ensures joins { (wide middle narrow : Criteria) →
        covers wide middle ≡ true → covers middle narrow ≡ true → covers wide narrow ≡ true }
{
    stretches_have_the_addresses();
}

/// The kept rules of a block match together what all its rules match: at each walk some of the kept ones matches exactly
/// where some rule of the block does. Each dropped rule is covered by a kept one.
pub fn kept_rules_match_together()
    ensures together { (around : Around) (rules : List Rule) (walk : Walk) →
        list_any (λ rule. hits_at around rule walk) (kept_rules rules) ≡ list_any (λ rule. hits_at around rule walk) rules }
    ensures covered { (rules : List Rule) (other : ℕ × Rule) → is_dropped rules other ≡ true →
        list_any (λ one. covers one.1.criteria other.1.criteria) (kept rules) ≡ true }
{
    covering_rules_match_more();
}

/// Each kept rule has a weight, and their weights together are those of all rules of the block.
pub fn weights_go_to_kept_rules()
    ensures each { (rules : List Rule) (weights : List ℕ) → length rules ≡ length weights →
        length (kept_weights rules weights) ≡ length (kept_rules rules) }
    ensures total { (rules : List Rule) (weights : List ℕ) → length rules ≡ length weights →
        sum (kept_weights rules weights) ≡ sum weights }
{}

/// The kept rules are rules of the block, and no more than these: a test that each rule of the block passes each kept one
/// passes. Where the block has one effect, the kept rules have it.
pub fn kept_rules_are_of_the_block()
    ensures tests { (test : Rule → Bool) (rules : List Rule) →
        list_all test rules ≡ true → list_all test (kept_rules rules) ≡ true }
    ensures effects { (effect : Effect) (rules : List Rule) →
        All (λ rule. rule.effect ≡ effect) rules → All (λ rule. rule.effect ≡ effect) (kept_rules rules) }
    ensures fewer { (rules : List Rule) → length (kept_rules rules) ≤ length rules }
{}
