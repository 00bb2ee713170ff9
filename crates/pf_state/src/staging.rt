//! Plans made ready: their rulesets optimised.
ghost use Rattle.std.specs.Prelude.{◌≡◌, IfOk, map};
ghost use Rattle.pf_state.specs.Commits.{ready_of, staged_of};
ghost use Rattle.pf_state.specs.Sound.{AreSound, IsPartSound, IsPlanSound};

use crate::ready::{Ready, Staged};
use pf_base::{Level, List, NoMemory};
use pf_optim::{Profile, optimise};
use pf_plan::{Part, Plan};
use std::alloc::Global;

// A ruleset of a plan, optimised.
fn stage_part(
    alloc: Global,
    part: Part,
    level: Level,
    profile: &Profile,
) -> Result<Staged, NoMemory>
    requires { IsPartSound part }
    ensures { IfOk result (λ staged. staged ≡ staged_of level profile.now part) }
{
    let Part {
        path,
        rules,
        tables,
    } = part;
    let count = rules.items().len() as u32;
    let weights = profile.weights(alloc, &path, count)?;
    let rules = optimise(alloc, rules, level, &weights)?;
    Ok(Staged {
        path,
        rules,
        tables,
    })
}

// The rulesets of a plan, optimised.
fn stage_parts(
    alloc: Global,
    parts: List<Part>,
    level: Level,
    profile: &Profile,
) -> Result<List<Staged>, NoMemory>
    requires { AreSound parts }
    ensures { IfOk result (λ staged. staged ≡ map (staged_of level profile.now) parts) }
{
    let mut staged = List::new(alloc);
    for part in parts.into_items() {
        staged.push(stage_part(alloc, part, level, profile)?)?;
    }
    Ok(staged)
}

/// The plan of a load with its rulesets optimised, by the counts of a profile (pf.conf(5), "set ruleset-optimization").
pub fn stage(alloc: Global, plan: Plan, profile: &Profile) -> Result<Ready, NoMemory>
    requires { IsPlanSound plan }
    ensures { IfOk result (λ ready. ready ≡ ready_of profile.now plan) }
{
    let Plan {
        parts,
        whole,
        level,
    } = plan;
    let parts = stage_parts(alloc, parts, level, profile)?;
    Ok(Ready { parts, whole })
}
