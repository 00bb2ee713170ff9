//! The groups of a list of rules, found by a map.
ghost use Rattle.std.specs.Prelude.{◌≡◌, ◌+◌, ◌<◌, ◌^◌, None, length, sum, is_some, IfOk, OnOk, if◌then◌else◌};
ghost use Rattle.std.specs.HashMap as hash;
ghost use Rattle.std.specs.List.{zip};
ghost use Rattle.std.specs.Option.{option_copied, unwrap_or};
ghost use Rattle.pf_rule.specs.declared.rule.Rule.{Rule as FilterRule};
ghost use Rattle.pf_auto.specs.Beside.{besides, keyed};
ghost use Rattle.pf_auto.specs.Ends.{beside, prefix_at};
ghost use Rattle.pf_auto.specs.Groups.{after, begun, gathered, weight_of};

use crate::beside::Beside;
use crate::group::Group;
use crate::place::{End, prefix_at};
use pf_base::NoMemory;
use pf_rule::Rule;
use std::alloc::Global;
use std::collections::HashMap;

/// The groups of the rules with a prefix at this end, by what their rules are beside it.
pub(crate) fn gather(
    alloc: Global,
    end: End,
    rules: &[Rule],
    weights: &[u64],
) -> Result<HashMap<Beside, Group>, NoMemory>
    requires same { length rules.now ≡ length weights.now }
    requires few { sum weights.now < 2 ^ 64 }
    ensures { IfOk result (λ groups. (key : FilterRule) → hash.get besides.same groups (keyed key) ≡ gathered end (zip rules.now weights.now) key) }
{
    let mut groups = HashMap::new(alloc);
    for i in 0..rules.len() {
        add(alloc, &mut groups, end, i, &rules[i], weights[i])?;
    }
    Ok(groups)
}

// Adds the rule at this place to its group.
fn add(
    alloc: Global,
    groups: &mut HashMap<Beside, Group>,
    end: End,
    place: usize,
    rule: &Rule,
    weight: u64,
) -> Result<(), NoMemory>
    requires { weight_of (hash.get besides.same groups.old (keyed (beside end rule.now))) + weight < 2 ^ 64 }
    ensures { OnOk result ((key : FilterRule) → hash.get besides.same groups.new (keyed key)
        ≡ after end place (rule.now, weight) key (hash.get besides.same groups.old (keyed key))) }
{
    let Some(prefix) = prefix_at(end, rule) else {
        return Ok(());
    };
    let key = Beside::of(end, rule);
    let begun = begun(alloc, groups.remove(&key), place);
    let group = begun.with(prefix, weight)?;
    groups.insert(key, group)?;
    Ok(())
}

// The group that was found, or a new one whose first rule stands at this place.
fn begun(alloc: Global, found: Option<Group>, place: usize) -> Group
    ensures { result ≡ unwrap_or found (begun place) }
{
    match found {
        Some(group) => group,
        None => Group::new(alloc, place),
    }
}

/// The group that a rule is in.
pub(crate) fn group_of<'a>(
    groups: &'a HashMap<Beside, Group>,
    end: End,
    rule: &Rule,
) -> Option<&'a Group>
    ensures { option_copied result
        ≡ (if is_some (prefix_at end rule.now) then hash.get besides.same groups.now (keyed (beside end rule.now)) else None) }
{
    if prefix_at(end, rule).is_none() {
        return None;
    }
    groups.get(&Beside::of(end, rule))
}
