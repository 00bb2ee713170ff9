//! Laws of the optimised form, for the crates above: a caller of a law has its clauses.
ghost use Rattle.std.specs.Prelude.{◌≡◌, ℕ, Bool, List, true, false, length, map, not, ◌||◌};
ghost use Rattle.std.specs.List.{list_all, list_any, range_with_len};
ghost use Rattle.pf_auto.specs.Standing.{StandFor, names_between};
ghost use Rattle.pf_base.specs.declared.kind.Level.{Level};
ghost use Rattle.pf_optim.specs.Meaning.{KeepsTheWalk, KeepsWalks, WalksRules, are_written};
ghost use Rattle.pf_optim.specs.Optimised.{block_optimised, optimised, rules_in};
ghost use Rattle.pf_optim.specs.Profile.{IsFaultAt, IsProfileText};
ghost use Rattle.pf_optim.specs.declared.rows.Row.{Row};
ghost use Rattle.pf_rule.specs.Around.{Around};
ghost use Rattle.pf_rule.specs.Effect.{is_anchor};
ghost use Rattle.pf_rule.specs.Equal.{effects};
ghost use Rattle.pf_rule.specs.Hit.{hits_at};
ghost use Rattle.pf_rule.specs.Walking.{Walking, once, walked_through};
ghost use Rattle.pf_rule.specs.declared.effect.Effect.{Effect};
ghost use Rattle.pf_rule.specs.declared.rule.Rule.{Rule as FilterRule};
ghost use Rattle.pf_rule.specs.declared.walk.Walk.{Walk as PacketWalk};

use pf_auto::{
    combined_rules_keep_what_others_had, combined_rules_match_together, tables_are_numbered_on,
};
use pf_cover::{kept_rules_match_together, weights_go_to_kept_rules};
use pf_order::{orders_hold_the_same_rules, runs_are_the_longest};
use pf_rule::{Rule, Walk, effect_twice_is_once, laws_of_walks};

/// The walk through the optimised rules is the walk through the written ones, at every level and weights, from every walk of
/// any kind `W`: where what anchor rules do is the same in both, and the automatic tables have their entries. The surroundings
/// of the written rules need know no automatic table (pf.conf(5), "set ruleset-optimization").
pub fn optimised_rules_walk_alike<W>()
    ensures { (on other : Walking W FilterRule) (view : W → PacketWalk) (act : Effect → W → W) (around before : Around)
        (level : Level) (rules : List FilterRule) (weights : List ℕ) →
        KeepsWalks on other view act around before level rules weights }
{
    kept_rules_match_together();
    weights_go_to_kept_rules();
    combined_rules_match_together();
    combined_rules_keep_what_others_had();
    orders_hold_the_same_rules();
    runs_are_the_longest::<(Rule, u64)>();
    laws_of_walks::<W, Rule>();
}

/// The same of a packet's walk, by what `pass`, `block` and `match` rules do to it.
pub fn optimised_rules_mean_the_same()
    ensures { (level : Level) (rules : List FilterRule) (weights : List ℕ) → KeepsTheWalk level rules weights }
{
    optimised_rules_walk_alike::<Walk>();
    effect_twice_is_once();
}

/// Some optimised rule of a block hits at a walk exactly where some of its rules hits; and rules of one effect that is no
/// anchor's, as those of a block are, do what their effect does once where some of them hits, and else nothing.
pub fn blocks_act_once<W>()
    ensures hits { (around : Around) (level : Level) (next : ℕ) (block : List (FilterRule × ℕ)) (walk : PacketWalk) →
        StandFor around (block_optimised level next block).tables →
        list_any (λ rule. hits_at around rule walk) (block_optimised level next block).rules
        ≡ list_any (λ rule. hits_at around rule walk) (rules_in block) }
    ensures once { (on : Walking W FilterRule) (view : W → PacketWalk) (act : Effect → W → W) (around : Around)
        (effect : Effect) (rules : List FilterRule) (walk : W) → WalksRules on view act around →
        is_anchor effect.action ≡ false → list_all (λ rule. effects.same effect rule.effect) rules ≡ true →
        walked_through on rules walk ≡ once on (act effect) rules walk }
{
    kept_rules_match_together();
    weights_go_to_kept_rules();
    combined_rules_match_together();
    combined_rules_keep_what_others_had();
    orders_hold_the_same_rules();
    laws_of_walks::<W, Rule>();
}

/// The automatic tables are numbered from 0 in their order, the optimised rules name no others, and each anchor rule among
/// them is one of the written rules: it passes each test that all written anchor rules pass.
pub fn optimised_rules_name_their_tables()
    ensures numbers { (level : Level) (rules : List FilterRule) (weights : List ℕ) →
        map (λ table. table.number) (optimised level rules weights).tables
        ≡ range_with_len 0 (length (optimised level rules weights).tables) }
    ensures names { (level : Level) (rules : List FilterRule) (weights : List ℕ) →
        length rules ≡ length weights → are_written rules ≡ true →
        list_all (names_between 0 (length (optimised level rules weights).tables)) (optimised level rules weights).rules ≡ true }
    ensures anchors { (test : FilterRule → Bool) (level : Level) (rules : List FilterRule) (weights : List ℕ) →
        length rules ≡ length weights → list_all (λ rule. not (is_anchor rule.effect.action) || test rule) rules ≡ true →
        list_all (λ rule. not (is_anchor rule.effect.action) || test rule) (optimised level rules weights).rules ≡ true }
{
    kept_rules_match_together();
    weights_go_to_kept_rules();
    combined_rules_match_together();
    combined_rules_keep_what_others_had();
    tables_are_numbered_on();
    orders_hold_the_same_rules();
    runs_are_the_longest::<(Rule, u64)>();
}

/// A text is a profile with one list of rows or has its first fault in one line, and never both.
pub fn profiles_have_one_meaning()
    ensures rows { (text : List ℕ) (rows others : List Row) → IsProfileText text rows → IsProfileText text others → rows ≡ others }
    ensures line { (text : List ℕ) (line other : ℕ) → IsFaultAt text line → IsFaultAt text other → line ≡ other }
    ensures apart { (text : List ℕ) (rows : List Row) (line : ℕ) → IsProfileText text rows → IsFaultAt text line → ⊥ }
{}
