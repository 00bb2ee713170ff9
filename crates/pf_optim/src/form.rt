//! The optimised form of a list of rules.
ghost use Rattle.std.specs.Prelude.{◌≡◌, ◌&&◌, ◌+◌, ◌-◌, ◌*◌, ◌<◌, ◌≤◌, ◌^◌, ◌++◌, [], length, sum, take, drop, IfOk, OnOk};
ghost use Rattle.std.specs.List.{zip};
ghost use Rattle.pf_optim.specs.FormSteps.{shown, with_block};
ghost use Rattle.pf_optim.specs.Optimised.{blocks_in, blocks_optimised, is_profiled, is_quick, optimised, ordered};

use pf_auto::{AutoTable, combined_rules_keep_what_others_had, merge};
use pf_base::{Level, List, NoMemory};
use pf_cover::{keep_weighed, kept_rules_are_of_the_block, weights_go_to_kept_rules};
use pf_order::{
    Span, blocks, order_gain, order_profile, orders_hold_the_same_rules, runs_are_the_longest,
};
use pf_rule::Rule;
use std::alloc::Global;

// Rules, and the tables that they name.
#[derive(Drop)]
pub(crate) struct Form {
    pub(crate) rules: List<Rule>,
    pub(crate) tables: List<AutoTable>,
}

// The optimised form of rules, each with its weight. There are no more rules then.
pub(crate) fn optimised(
    alloc: Global,
    rules: &[Rule],
    level: Level,
    weights: &[u64],
) -> Result<Form, NoMemory>
    requires weighed { length rules.now ≡ length weights.now }
    requires few { length rules.now < 2 ^ 30 }
    requires light { sum weights.now < 2 ^ 60 }
    ensures form { IfOk result (λ form. shown form ≡ optimised level rules.now weights.now) }
    ensures fewer { IfOk result (λ form. length form.rules ≤ length rules.now) }
{
    match level {
        Level::None => written(alloc, rules),
        Level::Basic | Level::Profile => by_blocks(alloc, rules, level, weights),
    }
}

fn written(alloc: Global, rules: &[Rule]) -> Result<Form, NoMemory>
    ensures { IfOk result (λ form. shown form ≡ record { rules = rules.now; tables = [] }) }
{
    let same = List::copy_of(alloc, rules)?;
    Ok(Form {
        rules: same,
        tables: List::new(alloc),
    })
}

fn by_blocks(alloc: Global, rules: &[Rule], level: Level, weights: &[u64]) -> Result<Form, NoMemory>
    requires weighed { length rules.now ≡ length weights.now }
    requires few { length rules.now < 2 ^ 30 }
    requires light { sum weights.now < 2 ^ 60 }
    ensures form { IfOk result (λ form. shown form ≡ blocks_optimised level 0 (blocks_in (zip rules.now weights.now))) }
    ensures fewer { IfOk result (λ form. length form.rules ≤ length rules.now) }
{
    kept_rules_are_of_the_block();
    combined_rules_keep_what_others_had();
    orders_hold_the_same_rules();
    runs_are_the_longest::<(Rule, u64)>();
    let spans = blocks(alloc, rules)?;
    let mut form = Form {
        rules: List::new(alloc),
        tables: List::new(alloc),
    };
    for span in spans.items() {
        let some_rules = part_of(rules, span);
        let some_weights = part_of(weights, span);
        add_block(alloc, &mut form, level, some_rules, some_weights)?;
    }
    Ok(form)
}

// What stands in a span.
fn part_of<'a, T>(items: &'a [T], span: &Span) -> &'a [T]
    requires rising { span.now.start ≤ span.now.end }
    requires within { span.now.end ≤ length items.now }
    ensures part { result.now ≡ take (span.now.end - span.now.start) (drop span.now.start items.now) }
    ensures long { length result.now ≡ span.now.end - span.now.start }
{
    &items[span.start as usize..span.end as usize]
}

// Adds the optimised form of a block behind what there is.
fn add_block(
    alloc: Global,
    form: &mut Form,
    level: Level,
    rules: &[Rule],
    weights: &[u64],
) -> Result<(), NoMemory>
    requires weighed { length rules.now ≡ length weights.now }
    requires light { sum weights.now < 2 ^ 60 }
    requires numbers { length form.old.tables + 2 * length rules.now < 2 ^ 32 }
    ensures { OnOk result (shown form.new ≡ with_block level (shown form.old) rules.now weights.now) }
{
    kept_rules_are_of_the_block();
    weights_go_to_kept_rules();
    combined_rules_keep_what_others_had();
    let kept = keep_weighed(alloc, rules, weights)?;
    let next = form.tables.items().len() as u32;
    let merged = merge(alloc, kept.rules.items(), kept.weights.items(), next)?;
    let sorted = ordered(alloc, level, merged.rules.items(), merged.weights.items())?;
    form.rules.append_copy(sorted.items())?;
    append_tables(&mut form.tables, merged.tables)?;
    Ok(())
}

// Moves tables behind others.
fn append_tables(tables: &mut List<AutoTable>, more: List<AutoTable>) -> Result<(), NoMemory>
    ensures { OnOk result (tables.new ≡ tables.old ++ more) }
{
    for table in more.into_items() {
        tables.push(table)?;
    }
    Ok(())
}

// What is left of a block in its order: by weights where a profile tells of quick rules, and else by gain.
fn ordered(
    alloc: Global,
    level: Level,
    rules: &[Rule],
    weights: &[u64],
) -> Result<List<Rule>, NoMemory>
    requires weighed { length rules.now ≡ length weights.now }
    requires few { length rules.now < 2 ^ 32 }
    ensures { IfOk result (λ sorted. sorted ≡ ordered level (zip rules.now weights.now)) }
{
    if goes_by_weight(level, rules) {
        let sorted = order_profile(alloc, rules, weights)?;
        return Ok(sorted);
    }
    let sorted = order_gain(alloc, rules)?;
    Ok(sorted)
}

fn goes_by_weight(level: Level, rules: &[Rule]) -> bool
    ensures { result ≡ (is_profiled level && is_quick rules.now) }
{
    is_profiled(level) && is_quick(rules)
}

fn is_profiled(level: Level) -> bool
    ensures { result ≡ is_profiled level }
{
    match level {
        Level::None | Level::Basic => false,
        Level::Profile => true,
    }
}

fn is_quick(rules: &[Rule]) -> bool
    ensures { result ≡ is_quick rules.now }
{
    rules.iter().all(|rule| rule.effect.quick)
}
