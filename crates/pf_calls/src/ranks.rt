//! How many rulesets call one another in a chain.
ghost use Rattle.std.specs.Prelude.{◌≡◌, false, IfOk, slice_index_or};
ghost use Rattle.std.specs.List.{list_all};
ghost use Rattle.pf_calls.specs.Numbered.{IsDepthOf, IsInside, next_round};

use pf_base::{List, NoMemory};
use std::alloc::Global;

// Whether the rank of each of these places is told to be within the bound.
fn are_within(places: &[usize], within: &[bool]) -> bool
    ensures { result ≡ list_all (λ place. slice_index_or within.now place false) places.now }
{
    for place in places {
        if !within.get(*place).copied().unwrap_or(false) {
            return false;
        }
    }
    true
}

// The places whose rank is within one more: those that lead to places within the bound alone.
fn round(alloc: Global, links: &[List<usize>], within: &[bool]) -> Result<Vec<bool>, NoMemory>
    ensures { IfOk result (λ next. next.items ≡ next_round links.now within.now) }
{
    let mut next = Vec::new(alloc);
    for places in links {
        next.push(are_within(places.items(), within))?;
    }
    Ok(next)
}

// The greatest rank of all places; None where some place has none.
pub(crate) fn depth(alloc: Global, links: &[List<usize>]) -> Result<Option<usize>, NoMemory>
    requires { IsInside links.now }
    ensures { IfOk result (λ depth. IsDepthOf links.now depth) }
{
    if links.is_empty() {
        return Ok(Some(0));
    }
    let mut within = vec![in alloc; false; links.len()]?;
    for rank in 0..links.len() {
        within = round(alloc, links, &within)?;
        if !within.contains(&false) {
            return Ok(Some(rank + 1));
        }
    }
    Ok(None)
}
