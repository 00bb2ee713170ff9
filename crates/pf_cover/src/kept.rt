//! The rules of a block that are kept, and their weights.
ghost use Rattle.std.specs.Prelude.{◌≡◌, ◌+◌, ◌<◌, ◌^◌, ◌++◌, [], ◌∷◌, length, sum, IfOk, IsTrue, OnOk, slice_index_or, if◌then◌else◌};
ghost use Rattle.pf_cover.specs.Search.{HoldsCorners, dropped_of};
ghost use Rattle.pf_cover.specs.Kept.{given_to_first, is_dropped, kept_places, kept_rules, kept_weights, own_weights};

use crate::search::{Corners, corners_over, dropped, first_covering};
use pf_base::{List, NoMemory};
use pf_rule::Rule;
use std::alloc::Global;

/// The places, from 0 and ascending, of the rules of one block that no other of them drops (pf.conf(5), "set
/// ruleset-optimization": duplicate rules and rules that are a subset of another rule are removed). A rule drops one that
/// it covers, unless that covers it as well and stands before it.
pub fn keep(alloc: Global, rules: &[Rule]) -> Result<List<u32>, NoMemory>
    requires { length rules.now < 2 ^ 32 }
    ensures { IfOk result (λ places. places ≡ kept_places rules.now) }
{
    let flags = dropped(alloc, rules)?;
    let mut places = List::new(alloc);
    for i in 0..rules.len() {
        let dropped = is_dropped(&flags, rules, i, &rules[i]);
        push_unless(&mut places, dropped, i as u32)?;
    }
    Ok(places)
}

fn push_unless(places: &mut List<u32>, dropped: bool, place: u32) -> Result<(), NoMemory>
    ensures { OnOk result (places.new ≡ places.old ++ (if dropped then [] else place ∷ [])) }
{
    if dropped {
        return Ok(());
    }
    places.push(place)
}

// Whether the rule at this place is dropped, by these flags. Rules and rule are those of its clauses.
fn is_dropped(flags: &[bool], rules: &[Rule], place: usize, rule: &Rule) -> bool
    requires flags { flags.now ≡ dropped_of rules.now }
    requires at { place < length rules.now }
    requires is { rule.now ≡ slice_index_or rules.now place rule.now }
    ensures { result ≡ is_dropped rules.now (place, rule.now) }
{
    flags[place]
}

/// The rules of a block that are kept, and their weights.
#[derive(Debug, Drop)]
pub struct Kept {
    pub rules: List<Rule>,
    pub weights: List<u64>,
}

/// The kept rules of one block, as [`keep`] finds them, each with its weight and the weights of those dropped rules of which
/// it is the first kept rule that covers them. The weight of a rule tells how often it was used.
pub fn keep_weighed(alloc: Global, rules: &[Rule], weights: &[u64]) -> Result<Kept, NoMemory>
    requires same { length rules.now ≡ length weights.now }
    requires few { sum weights.now < 2 ^ 64 }
    ensures rules { IfOk result (λ kept. kept.rules ≡ kept_rules rules.now) }
    ensures weights { IfOk result (λ kept. kept.weights ≡ kept_weights rules.now weights.now) }
{
    let flags = dropped(alloc, rules)?;
    let kept = rules_kept(alloc, rules, &flags)?;
    let weights = weights_kept(alloc, rules, weights, &flags, kept.items())?;
    Ok(Kept {
        rules: kept,
        weights: List::of(weights),
    })
}

fn rules_kept(alloc: Global, rules: &[Rule], flags: &[bool]) -> Result<List<Rule>, NoMemory>
    requires { flags.now ≡ dropped_of rules.now }
    ensures { IfOk result (λ kept. kept ≡ kept_rules rules.now) }
{
    let mut kept = List::new(alloc);
    for i in 0..rules.len() {
        let rule = &rules[i];
        let dropped = is_dropped(flags, rules, i, rule);
        push_rule_unless(&mut kept, dropped, rule)?;
    }
    Ok(kept)
}

fn push_rule_unless(kept: &mut List<Rule>, dropped: bool, rule: &Rule) -> Result<(), NoMemory>
    ensures { OnOk result (kept.new ≡ kept.old ++ (if dropped then [] else rule.now ∷ [])) }
{
    if dropped {
        return Ok(());
    }
    kept.push_copy(rule)
}

fn weights_kept(
    alloc: Global,
    rules: &[Rule],
    weights: &[u64],
    flags: &[bool],
    kept: &[Rule],
) -> Result<Vec<u64>, NoMemory>
    requires same { length rules.now ≡ length weights.now }
    requires few { sum weights.now < 2 ^ 64 }
    requires flags { flags.now ≡ dropped_of rules.now }
    requires kept { kept.now ≡ kept_rules rules.now }
    ensures { IfOk result (λ weights_kept. weights_kept.items ≡ kept_weights rules.now weights.now) }
{
    let found = corners_over(alloc, kept)?;
    let mut given = weights_alone(alloc, rules, weights, flags)?;
    for i in 0..rules.len() {
        let rule = &rules[i];
        let dropped = is_dropped(flags, rules, i, rule);
        give_if(&found, kept, &mut given, dropped, rule, weights[i]);
    }
    Ok(given)
}

// The weights of the kept rules before any other is given to them.
fn weights_alone(
    alloc: Global,
    rules: &[Rule],
    weights: &[u64],
    flags: &[bool],
) -> Result<Vec<u64>, NoMemory>
    requires same { length rules.now ≡ length weights.now }
    requires flags { flags.now ≡ dropped_of rules.now }
    ensures { IfOk result (λ own. own.items ≡ own_weights rules.now weights.now) }
{
    let mut own = Vec::new(alloc);
    for i in 0..rules.len() {
        let dropped = is_dropped(flags, rules, i, &rules[i]);
        push_weight_unless(&mut own, dropped, weights[i])?;
    }
    Ok(own)
}

fn push_weight_unless(own: &mut Vec<u64>, dropped: bool, weight: u64) -> Result<(), NoMemory>
    ensures { OnOk result (own.new.items ≡ own.old.items ++ (if dropped then [] else weight ∷ [])) }
{
    if dropped {
        return Ok(());
    }
    own.push(weight)?;
    Ok(())
}

// Gives the weight of a dropped rule to the first kept rule that covers it.
fn give_if(
    found: &Corners,
    kept: &[Rule],
    weights: &mut Vec<u64>,
    dropped: bool,
    rule: &Rule,
    weight: u64,
)
    requires found { HoldsCorners kept.now found.now }
    requires same { length kept.now ≡ length weights.old.items }
    requires fits { IsTrue dropped → sum weights.old.items + weight < 2 ^ 64 }
    ensures { weights.new.items
        ≡ (if dropped then given_to_first kept.now weights.old.items (rule.now, weight) else weights.old.items) }
{
    if dropped {
        give(found, kept, weights, rule, weight);
    }
}

fn give(found: &Corners, kept: &[Rule], weights: &mut Vec<u64>, rule: &Rule, weight: u64)
    requires found { HoldsCorners kept.now found.now }
    requires same { length kept.now ≡ length weights.old.items }
    requires fits { sum weights.old.items + weight < 2 ^ 64 }
    ensures { weights.new.items ≡ given_to_first kept.now weights.old.items (rule.now, weight) }
{
    let place = first_covering(found, kept, rule);
    if place < weights.len() {
        weights[place] += weight;
    }
}
