//! Whether a plan may be put in place.
ghost use Rattle.std.specs.Prelude.{◌≡◌, IfOk, [], None};
ghost use Rattle.pf_base.specs.OrderedMap.{map_of};
ghost use Rattle.pf_tree.specs.Order.{path_cmp};
ghost use Rattle.pf_state.specs.Judging.{Judged, call_refusal};
ghost use Rattle.pf_state.specs.Limits as says;
ghost use Rattle.pf_state.specs.Outlines.{AreOutlined};
ghost use Rattle.pf_state.specs.Rulesets.{Rulesets};

use crate::outline::Outline;
use pf_base::{NoMemory, Path, path_map_laws};
use pf_calls::{CallFault, CallRow, call_fault};
use pf_reply::{Overfull, Refusal};
use std::alloc::Global;
use std::collections::BTreeMap;

/// The most rules as they are written that may stand.
pub(crate) const MOST_RULES: u64 = 131_072;

/// The most rulesets.
pub(crate) const MOST_RULESETS: u64 = 4_096;

/// The most entries of declared tables.
pub(crate) const MOST_ENTRIES: u64 = 262_144;

/// The first limit that so many rules, rulesets and entries go past.
pub(crate) fn limit_refusal(rules: u64, rulesets: u64, entries: u64) -> Option<Refusal>
    ensures { result ≡ says.first_of (says.limits rules rulesets entries) }
{
    if rules > MOST_RULES {
        return Some(Refusal::TreeFull {
            what: Overfull::Rules,
            count: rules,
        });
    }
    if rulesets > MOST_RULESETS {
        return Some(Refusal::TreeFull {
            what: Overfull::Rulesets,
            count: rulesets,
        });
    }
    if entries > MOST_ENTRIES {
        return Some(Refusal::TablesFull(entries));
    }
    None
}

// The fault of calls as a refusal.
fn refusal_of(fault: CallFault) -> Refusal
    ensures { result ≡ call_refusal fault }
{
    match fault {
        CallFault::Cycle(path) => Refusal::CallCycle(path),
        CallFault::Deep(depth) => Refusal::CallDepth(depth),
    }
}

/// The refusal of the rulesets that have these outlines: of their calls first, then of the limits.
pub(crate) fn judge(
    alloc: Global,
    outlines: BTreeMap<Path, Outline>,
) -> Result<Option<Refusal>, NoMemory>
    ensures { IfOk result (λ refusal. (rulesets : Rulesets) → AreOutlined rulesets (map_of path_cmp outlines) → Judged [] rulesets refusal) }
{
    path_map_laws::<Outline>();
    let count = outlines.len() as u64;
    let mut rules = 0u64;
    let mut entries = 0u64;
    let mut rows = Vec::new(alloc);
    for (path, outline) in outlines {
        rules = rules.checked_add(outline.rules).ok_or(NoMemory)?;
        entries = entries.checked_add(outline.entries).ok_or(NoMemory)?;
        rows.push(CallRow {
            path,
            calls: outline.calls,
        })?;
    }
    match call_fault(alloc, &rows)? {
        Some(fault) => Ok(Some(refusal_of(fault))),
        None => Ok(limit_refusal(rules, count, entries)),
    }
}
