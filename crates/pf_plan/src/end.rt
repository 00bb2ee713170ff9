//! The end of a unit, and the plan of a load.
ghost use Rattle.std.specs.Prelude.{◌≡◌, ◌++◌, ◌<◌, ℕ, map, IfOk, IfSome};
ghost use Rattle.pf_plan.specs.Ends as says;
ghost use Rattle.pf_plan.specs.Ends.{HasEndFault};
ghost use Rattle.pf_plan.specs.Numbered.{PlacesWithin};

use crate::draft::{Draft, Filling, Ruleset};
use crate::plan::{Part, Plan, Whole};
use pf_base::{FaultKind, Level, List, Name, NoMemory};
use pf_decl::{OptionLine, QueueFault, Setting, check_queues};
use pf_fault::Fault;
use std::alloc::Global;

/// The most rules that a ruleset may have. Of those behind them one alone is kept, so a fault tells one more than these.
const MOST_RULES: usize = 16_384;

// A body that isn't closed.
fn unclosed(outer: &[Filling], own: &Ruleset) -> Option<Fault>
    ensures { result ≡ says.unclosed outer.now own.now }
{
    if outer.is_empty() {
        None
    } else {
        Some(Fault {
            kind: FaultKind::UnclosedBody,
            place: own.place,
        })
    }
}

// A ruleset of too many rules.
fn too_many(own: &Ruleset) -> Option<Fault>
    ensures { result ≡ says.too_many own.now }
{
    if own.rules.items().len() > MOST_RULES {
        Some(Fault {
            kind: FaultKind::TooManyRules(16_385),
            place: own.place,
        })
    } else {
        None
    }
}

// The first ruleset of too many rules.
fn overfull(rulesets: &[Ruleset]) -> Option<Fault>
    ensures { result ≡ says.overfull rulesets.now }
{
    for ruleset in rulesets {
        if let Some(fault) = too_many(ruleset) {
            return Some(fault);
        }
    }
    None
}

fn queue_fault(judged: &Result<(), QueueFault>) -> Option<Fault>
    ensures { result ≡ says.queue_fault judged.now }
{
    match judged {
        Ok(()) => None,
        Err(fault) => Some(Fault {
            kind: fault.kind,
            place: fault.place,
        }),
    }
}

// The fault of the end of a unit.
fn unit_fault(draft: &Draft) -> Option<Fault>
    ensures { HasEndFault draft.now result }
{
    let judged = check_queues(draft.queues.items(), draft.used.items());
    if let Some(fault) = unclosed(draft.outer.items(), &draft.here.own) {
        return Some(fault);
    }
    if let Some(fault) = queue_fault(&judged) {
        return Some(fault);
    }
    if let Some(fault) = too_many(&draft.here.own) {
        return Some(fault);
    }
    overfull(draft.here.inside.items())
}

/// The fault of the end of a unit: `UnclosedBody`, then `QueueTwice`, `QueueParent` and `QueueUnknown`, then `TooManyRules` of the
/// first ruleset that has more than 16,384. Takes no memory.
pub fn end_fault(draft: &Draft) -> Option<Fault>
    ensures has { HasEndFault draft.now result }
    ensures within { (count : ℕ) → PlacesWithin count draft.now → IfSome result (λ fault. fault.place.file < count) }
{
    unit_fault(draft)
}

fn level_behind(level: Level, setting: &Setting) -> Level
    ensures { result ≡ says.level_behind level setting.now }
{
    match setting {
        Setting::Level(set) => *set,
        Setting::Skip(_) | Setting::Block(_) | Setting::Bound(_) | Setting::Other => level,
    }
}

// The level that is given, else the one that the lines set, else `basic`.
fn level_of(given: Option<Level>, lines: &[OptionLine]) -> Level
    ensures { result ≡ says.level_of given lines.now }
{
    if let Some(level) = given {
        return level;
    }
    let mut level = Level::Basic;
    for line in lines {
        level = level_behind(level, &line.setting);
    }
    level
}

// The names of `set skip on`.
fn skipped(alloc: Global, lines: &[OptionLine]) -> Result<List<Name>, NoMemory>
    ensures { IfOk result (λ names. names ≡ says.skipped lines.now) }
{
    let mut names = List::new(alloc);
    for line in lines {
        if let Setting::Skip(name) = &line.setting {
            names.push_copy(name)?;
        }
    }
    Ok(names)
}

// The part of a ruleset.
fn part_of(own: Ruleset) -> Part
    ensures { result ≡ says.part_of own }
{
    let Ruleset {
        path,
        place: _,
        rules,
        tables,
    } = own;
    Part {
        path,
        rules,
        tables,
    }
}

// The parts so far, and those of the unit's rulesets.
pub(crate) fn parts_with(before: List<Part>, filling: Filling) -> Result<List<Part>, NoMemory>
    ensures { IfOk result (λ parts. parts ≡ before ++ map says.part_of (says.rulesets_of filling)) }
{
    let Filling {
        own,
        inside,
        nameless: _,
    } = filling;
    let mut parts = before;
    parts.push(part_of(own))?;
    for ruleset in inside.into_items() {
        parts.push(part_of(ruleset))?;
    }
    Ok(parts)
}

/// The plan of a load whose units were read to their ends, of this level where one is given (pfctl(8), -o).
pub fn plan_of(alloc: Global, given: Option<Level>, draft: Draft) -> Result<Plan, NoMemory>
    ensures { IfOk result (λ plan. plan ≡ says.plan_of given draft) }
{
    let Draft {
        is_main,
        parts,
        loads: _,
        begun: _,
        filled: _,
        options,
        queues,
        used: _,
        policies: _,
        here,
        outer: _,
    } = draft;
    let level = level_of(given, options.items());
    let parts = parts_with(parts, here)?;
    let whole = if is_main {
        let skip = skipped(alloc, options.items())?;
        Some(Whole {
            options,
            skip,
            queues,
        })
    } else {
        None
    };
    Ok(Plan {
        parts,
        whole,
        level,
    })
}
