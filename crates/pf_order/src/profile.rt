//! The order of a block by a profile.
ghost use Rattle.std.specs.Prelude.{◌≡◌, ◌++◌, length, nat_lt, IfOk, OnOk, slice_get};
ghost use Rattle.std.specs.List.{enumerate_from, filter_map};
ghost use Rattle.std.specs.Option.{option_to_list};
ghost use Rattle.pf_order.specs.Order.{profile_order};
ghost use Rattle.pf_order.specs.Sorting.{sorted_by};

use pf_base::{List, NoMemory};
use pf_rule::Rule;
use std::alloc::Global;

/// The rules of a block in the order of their weights, the greatest first, and in their order where weights are equal
/// (pf.conf(5), "set ruleset-optimization profile").
pub fn order_profile(alloc: Global, rules: &[Rule], weights: &[u64]) -> Result<List<Rule>, NoMemory>
    requires { length rules.now ≡ length weights.now }
    ensures { IfOk result (λ ordered. ordered ≡ profile_order rules.now weights.now) }
{
    let places = by_weight(alloc, weights)?;
    let ordered = rules_at(alloc, rules, &places)?;
    Ok(ordered)
}

// The places of weights with the weights, the greatest first.
fn by_weight(alloc: Global, weights: &[u64]) -> Result<Vec<(usize, u64)>, NoMemory>
    ensures { IfOk result (λ places. places.items
        ≡ sorted_by (λ one other. nat_lt other.1 one.1) (enumerate_from 0 weights.now)) }
{
    let mut places = placed(alloc, weights)?;
    places.sort_by(|one, other| other.1.cmp(&one.1))?;
    Ok(places)
}

fn placed(alloc: Global, weights: &[u64]) -> Result<Vec<(usize, u64)>, NoMemory>
    ensures { IfOk result (λ places. places.items ≡ enumerate_from 0 weights.now) }
{
    let places = weights.iter().copied().enumerate().collect(alloc)?;
    Ok(places)
}

// The rules at these places, as far as there are rules.
pub(crate) fn rules_at<T>(
    alloc: Global,
    rules: &[Rule],
    places: &[(usize, T)],
) -> Result<List<Rule>, NoMemory>
    ensures { IfOk result (λ found. found ≡ filter_map (λ place. slice_get rules.now place.0) places.now) }
{
    let mut found = List::new(alloc);
    for place in places {
        push_at(&mut found, rules, place.0)?;
    }
    Ok(found)
}

fn push_at(found: &mut List<Rule>, rules: &[Rule], place: usize) -> Result<(), NoMemory>
    ensures { OnOk result (found.new ≡ found.old ++ option_to_list (slice_get rules.now place)) }
{
    if place < rules.len() {
        found.push_copy(&rules[place])
    } else {
        Ok(())
    }
}
