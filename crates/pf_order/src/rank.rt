//! The order of a block by what its rules share.
ghost use Rattle.std.specs.Prelude.{◌≡◌, ◌<◌, ◌^◌, length, map, Some, IfOk};
ghost use Rattle.std.specs.List.{enumerate_from};
ghost use Rattle.pf_order.specs.Order.{fields_by_count, gain_order, sorted_order, values_of};
ghost use Rattle.pf_order.specs.RankSteps.{all_fields, key_by, rank_by, shown, with_values};
ghost use Rattle.pf_order.specs.Sorting.{is_before, sorted_by};

use crate::agreement::gain;
use crate::column::Column;
use crate::profile::rules_at;
use indexmap::IndexSet;
use pf_base::{List, NoMemory};
use pf_rule::{FieldValue, Rule};
use std::alloc::Global;

/// The rules of a block sorted field by field, first by those of the fewest distinct values, and in each by where its values
/// first appear; left as they are where neighbours wouldn't agree in more fields then (pf.conf(5), "set ruleset-optimization":
/// rules are re-ordered to improve evaluation performance).
pub fn order_gain(alloc: Global, rules: &[Rule]) -> Result<List<Rule>, NoMemory>
    requires { length rules.now < 2 ^ 32 }
    ensures { IfOk result (λ ordered. ordered ≡ gain_order rules.now) }
{
    let sorted = sorted_order(alloc, rules)?;
    if gain(rules) < gain(sorted.items()) {
        return Ok(sorted);
    }
    let same = List::copy_of(alloc, rules)?;
    Ok(same)
}

fn sorted_order(alloc: Global, rules: &[Rule]) -> Result<List<Rule>, NoMemory>
    ensures { IfOk result (λ ordered. ordered ≡ sorted_order rules.now) }
{
    let columns = columns(alloc, rules)?;
    let places = sorted_places(alloc, rules, &columns)?;
    let ordered = rules_at(alloc, rules, &places)?;
    Ok(ordered)
}

// The fields with their values, those of the fewest first.
fn columns(alloc: Global, rules: &[Rule]) -> Result<Vec<Column>, NoMemory>
    ensures { IfOk result (λ columns. map shown columns.items ≡ with_values rules.now (fields_by_count rules.now)) }
{
    let mut columns = all_columns(alloc, rules)?;
    columns.sort_by_key(|column| column.values.len())?;
    Ok(columns)
}

fn all_columns(alloc: Global, rules: &[Rule]) -> Result<Vec<Column>, NoMemory>
    ensures { IfOk result (λ columns. map shown columns.items ≡ with_values rules.now all_fields) }
{
    let mut columns = Vec::new(alloc);
    for field in 0..8 {
        let values = values_of(alloc, rules, field)?;
        columns.push(Column { field, values })?;
    }
    Ok(columns)
}

// The distinct values of a field in the order of their first appearance.
fn values_of(alloc: Global, rules: &[Rule], field: u8) -> Result<IndexSet<FieldValue>, NoMemory>
    requires { field < 8 }
    ensures { IfOk result (λ values. map Some values.keys ≡ values_of rules.now field) }
{
    let mut values = IndexSet::new(alloc);
    for rule in rules {
        values.insert(rule.criteria.field_value(field))?;
    }
    Ok(values)
}

// The places of the rules with their keys, in the order of the keys.
fn sorted_places(
    alloc: Global,
    rules: &[Rule],
    columns: &[Column],
) -> Result<Vec<(usize, Vec<usize>)>, NoMemory>
    ensures { IfOk result (λ places. map (λ place. (place.0, place.1.items)) places.items
        ≡ sorted_by (λ one other. is_before one.1 other.1) (enumerate_from 0 (map (key_by (map shown columns.now)) rules.now))) }
{
    let mut places = keyed_places(alloc, rules, columns)?;
    places.sort_by(|one, other| one.1.cmp(&other.1))?;
    Ok(places)
}

fn keyed_places(
    alloc: Global,
    rules: &[Rule],
    columns: &[Column],
) -> Result<Vec<(usize, Vec<usize>)>, NoMemory>
    ensures { IfOk result (λ places. map (λ place. (place.0, place.1.items)) places.items
        ≡ enumerate_from 0 (map (key_by (map shown columns.now)) rules.now)) }
{
    let mut places = Vec::new(alloc);
    for (place, rule) in rules.iter().enumerate() {
        let key = key_of(alloc, columns, rule)?;
        places.push((place, key))?;
    }
    Ok(places)
}

// The ranks of a rule's values, in the order of the columns.
fn key_of(alloc: Global, columns: &[Column], rule: &Rule) -> Result<Vec<usize>, NoMemory>
    ensures { IfOk result (λ key. key.items ≡ key_by (map shown columns.now) rule.now) }
{
    let mut key = Vec::new(alloc);
    for column in columns {
        key.push(rank_in(column, rule))?;
    }
    Ok(key)
}

// The place of a rule's value among those of a column.
fn rank_in(column: &Column, rule: &Rule) -> usize
    ensures { result ≡ rank_by rule.now (shown column.now) }
{
    let value = rule.criteria.field_value(column.field);
    match column.values.get_index_of(&value) {
        Some(place) => place,
        None => column.values.len(),
    }
}
