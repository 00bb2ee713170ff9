//! Rules combined into one with a table.
ghost use Rattle.std.specs.Prelude.{◌≡◌, ◌+◌, ◌*◌, ◌<◌, ◌^◌, [], length, sum, IfOk, OnOk, Some};
ghost use Rattle.std.specs.List.{zip};
ghost use Rattle.std.specs.Option.{option_copied};
ghost use Rattle.pf_auto.specs.Merged.{merge_of, merged_at};
ghost use Rattle.pf_auto.specs.Putting.{behind, put_by, with_kept, with_lead};

use crate::gather::{gather, group_of};
use crate::group::Group;
use crate::place::{End, with_test};
use pf_base::{List, NoMemory};
use pf_rule::{AddrSet, AddrTest, Rule};
use pf_table::Entry;
use std::alloc::Global;

/// A table that the optimiser made, named by its number.
#[derive(Debug, Drop)]
pub struct AutoTable {
    pub number: u32,
    /// None negated, in the order of a table's entries.
    pub entries: List<Entry>,
}

/// Rules of a block after groups of them are combined, with their weights, and the tables that they name.
#[derive(Debug, Drop)]
pub struct Merged {
    pub rules: List<Rule>,
    pub weights: List<u64>,
    pub tables: List<AutoTable>,
}

/// Combines groups of six or more rules of a block that are equal but for a prefix without `!` as their source, and of what
/// results then by target, each into one rule with a table, at the place of the first and with their weights together; tables
/// are numbered in this order (pf.conf(5), "set ruleset-optimization": rules are combined into a table when advantageous).
pub fn merge(
    alloc: Global,
    rules: &[Rule],
    weights: &[u64],
    first_number: u32,
) -> Result<Merged, NoMemory>
    requires same { length rules.now ≡ length weights.now }
    requires few { sum weights.now < 2 ^ 64 }
    requires numbers { first_number + 2 * length rules.now < 2 ^ 32 }
    ensures { IfOk result (λ merged. merged ≡ merge_of rules.now weights.now first_number) }
{
    let tables = List::new(alloc);
    let first = merge_at(alloc, End::Source, rules, weights, tables, first_number)?;
    let Merged {
        rules: left,
        weights: shares,
        tables,
    } = first;
    let second = merge_at(
        alloc,
        End::Target,
        left.items(),
        shares.items(),
        tables,
        first_number,
    )?;
    Ok(second)
}

// Combines groups at one end. The tables go behind those that there are.
fn merge_at(
    alloc: Global,
    end: End,
    rules: &[Rule],
    weights: &[u64],
    tables: List<AutoTable>,
    first_number: u32,
) -> Result<Merged, NoMemory>
    requires same { length rules.now ≡ length weights.now }
    requires few { sum weights.now < 2 ^ 64 }
    requires numbers { first_number + length tables + length rules.now < 2 ^ 32 }
    ensures { IfOk result (λ merged. merged ≡ behind (record { rules = []; weights = []; tables = tables })
        (merged_at end (first_number + length tables) (zip rules.now weights.now))) }
{
    let groups = gather(alloc, end, rules, weights)?;
    let mut merged = Merged {
        rules: List::new(alloc),
        weights: List::new(alloc),
        tables,
    };
    for i in 0..rules.len() {
        let item = Item {
            place: i,
            rule: &rules[i],
            weight: weights[i],
        };
        let number = first_number + merged.tables.items().len() as u32;
        let group = group_of(&groups, end, item.rule);
        put(alloc, &mut merged, end, group, item, number)?;
    }
    Ok(merged)
}

// A rule with its place and its weight.
#[derive(Clone, Copy)]
struct Item<'a> {
    place: usize,
    rule: &'a Rule,
    weight: u64,
}

// Puts what becomes of a rule behind the others: the first rule of a large group is combined, where the next table's number
// is this one, the others of the group go, and every other rule stays.
fn put(
    alloc: Global,
    merged: &mut Merged,
    end: End,
    group: Option<&Group>,
    item: Item<'_>,
    number: u32,
) -> Result<(), NoMemory>
    ensures { OnOk result (merged.new
        ≡ put_by end number (option_copied group.entry) item.entry.place (item.entry.rule.now, item.entry.weight) merged.old) }
{
    match group {
        None => keep(merged, item.rule, item.weight),
        Some(group) => put_member(alloc, merged, end, group, item, number),
    }
}

fn keep(merged: &mut Merged, rule: &Rule, weight: u64) -> Result<(), NoMemory>
    ensures { OnOk result (merged.new ≡ with_kept (rule.now, weight) merged.old) }
{
    merged.rules.push_copy(rule)?;
    merged.weights.push(weight)?;
    Ok(())
}

// So many rules of a group are worth a table.
const FEWEST: usize = 6;

fn put_member(
    alloc: Global,
    merged: &mut Merged,
    end: End,
    group: &Group,
    item: Item<'_>,
    number: u32,
) -> Result<(), NoMemory>
    ensures { OnOk result (merged.new
        ≡ put_by end number (Some group.now) item.entry.place (item.entry.rule.now, item.entry.weight) merged.old) }
{
    if group.entries.items().len() < FEWEST {
        return keep(merged, item.rule, item.weight);
    }
    if group.first < item.place {
        return Ok(());
    }
    lead(alloc, merged, end, group, item.rule, number)
}

// Puts the rule that stands for the group, and its table.
fn lead(
    alloc: Global,
    merged: &mut Merged,
    end: End,
    group: &Group,
    rule: &Rule,
    number: u32,
) -> Result<(), NoMemory>
    ensures { OnOk result (merged.new ≡ with_lead end number group.now rule.now merged.old) }
{
    let entries = group.table(alloc)?;
    let what = AddrSet::Auto(number);
    let combined = with_test(
        end,
        AddrTest::Test {
            negated: false,
            what,
        },
        rule,
    );
    merged.rules.push_copy(&combined)?;
    merged.weights.push(group.weight)?;
    merged.tables.push(AutoTable { number, entries })?;
    Ok(())
}
