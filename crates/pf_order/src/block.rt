//! The blocks of a ruleset.
ghost use Rattle.std.specs.Prelude.{◌≡◌, ◌+◌, ◌<◌, ◌^◌, length, reverse, IfOk, OnOk};
ghost use Rattle.pf_order.specs.Blocks.{blocks_of, has_limit, is_barrier, joins, spans_from};
ghost use Rattle.pf_order.specs.BlockSteps.{ends_block, with_place};

use pf_base::{List, NoMemory, Same};
use pf_parts::StateOptions;
use pf_rule::Rule;
use std::alloc::Global;

/// A block of a ruleset: its rules stand at the places from `start` on, counted from 0, up to the one before `end`.
#[derive(Clone, Copy, Debug, PartialEq, Eq)]
pub struct Span {
    pub start: u32,
    pub end: u32,
}

/// The blocks of a ruleset, in order: each anchor rule, each rule with a label or a limit of states or sources, and between
/// these the longest runs of neighbours of equal effects (pf.conf(5), "set ruleset-optimization").
pub fn blocks(alloc: Global, rules: &[Rule]) -> Result<List<Span>, NoMemory>
    requires { length rules.now < 2 ^ 32 }
    ensures { IfOk result (λ spans. spans ≡ spans_from 0 (blocks_of rules.now)) }
{
    let mut spans = Vec::new(alloc);
    let mut place = rules.len();
    while place > 0 {
        place -= 1;
        let alone = ends_block(&rules[place], &rules[place + 1..]);
        put_before(&mut spans, alone, place as u32)?;
    }
    spans.reverse();
    Ok(List::of(spans))
}

// Puts the rule at this place before the spans behind it, which stand from the last to the first.
fn put_before(spans: &mut Vec<Span>, alone: bool, place: u32) -> Result<(), NoMemory>
    requires { place + 1 < 2 ^ 32 }
    ensures { OnOk result (reverse spans.new.items ≡ with_place alone place (reverse spans.old.items)) }
{
    let mut span = Span {
        start: place,
        end: place + 1,
    };
    if !alone {
        if let Some(first) = spans.pop() {
            span.end = first.end;
        }
    }
    spans.push(span)?;
    Ok(())
}

// Whether a rule doesn't stand in one block with the first of those behind it.
fn ends_block(rule: &Rule, behind: &[Rule]) -> bool
    ensures { result ≡ ends_block rule.now behind.now }
{
    match behind {
        [] => true,
        [next, ..] => !joins(rule, next),
    }
}

// Whether two neighbours stand in one block.
fn joins(one: &Rule, other: &Rule) -> bool
    ensures { result ≡ joins one.now other.now }
{
    !is_barrier(one) && !is_barrier(other) && one.effect.same(&other.effect)
}

// Whether a rule stands alone.
#[tactic(auto, unfolding(crate::specs::Blocks::is_barrier))]
fn is_barrier(rule: &Rule) -> bool
    ensures { result ≡ is_barrier rule.now }
{
    rule.effect.action.is_anchor() || rule.effect.label.is_some() || has_limit(&rule.effect.options)
}

fn has_limit(options: &StateOptions) -> bool
    ensures { result ≡ has_limit options.now }
{
    options.max.is_some()
        || options.max_src_nodes.is_some()
        || options.max_src_states.is_some()
        || options.max_src_conn.is_some()
        || options.max_src_conn_rate.is_some()
        || options.source_track.is_some()
}
