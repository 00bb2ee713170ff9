//! Whether calls lead from a place back to it.
ghost use Rattle.std.specs.Prelude.{◌<◌, IfOk, OnOk, length};
ghost use Rattle.std.specs.Bool.{Decides};
ghost use Rattle.pf_calls.specs.Graph.{OnCycle};
ghost use Rattle.pf_calls.specs.Numbered.{IsInside, numbered};
ghost use Rattle.pf_calls.specs.Search.{AreBelow, IsMarked};

use pf_base::{List, NoMemory};
use std::alloc::Global;

// Marks places as seen; those that weren't are to be gone on from.
fn mark(seen: &mut Vec<bool>, todo: &mut Vec<usize>, places: &[usize]) -> Result<(), NoMemory>
    requires { AreBelow places.now (length seen.old.items) }
    ensures { OnOk result (IsMarked seen.old.items todo.old.items places.now seen.new.items todo.new.items) }
{
    for place in places {
        if !seen[*place] {
            todo.push(*place)?;
            seen[*place] = true;
        }
    }
    Ok(())
}

// Whether one or more links lead from a place back to it.
pub(crate) fn is_on_cycle(
    alloc: Global,
    links: &[List<usize>],
    start: usize,
) -> Result<bool, NoMemory>
    requires inside { IsInside links.now }
    requires start { start < length links.now }
    ensures { IfOk result (λ found. Decides found (OnCycle (numbered links.now) start)) }
{
    let mut seen = vec![in alloc; false; links.len()]?;
    let mut todo = Vec::new(alloc);
    mark(&mut seen, &mut todo, links[start].items())?;
    while let Some(place) = todo.pop() {
        mark(&mut seen, &mut todo, links[place].items())?;
    }
    Ok(seen[start])
}
