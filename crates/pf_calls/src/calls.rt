//! Whether calls go in a circle, or too deep.
ghost use Rattle.std.specs.Prelude.{◌≡◌, ◌<◌, ◌↔◌, ℕ, None, Some, IfOk, List as Items, length};
ghost use Rattle.std.specs.List.Sorted.{IsStrictlySortedBy};
ghost use Rattle.pf_tree.specs.Order.{path_cmp};
ghost use Rattle.pf_parts.specs.declared.call.Call.{Call as AnyCall};
ghost use Rattle.pf_calls.specs.Graph.{IsDeep, IsFirstOnCycle, IsRanking, IsShallow, OnCycle};
ghost use Rattle.pf_calls.specs.Calls.{call_graph, graph_of, paths_of};
ghost use Rattle.pf_calls.specs.Numbered.{IsFault, IsInside, IsOver, IsCopy, numbered, path_at};
ghost use Rattle.pf_calls.specs.declared.row.CallFault.TheVariants.{Cycle, Deep as TooDeep};

use crate::links::links;
use crate::ranks::depth;
use crate::row::{CallFault, CallRow};
use crate::search::is_on_cycle;
use pf_base::{List, NoMemory, Path};
use std::alloc::Global;

/// The most rulesets that may call one another in a chain.
pub const MOST_CALLS: usize = 64;

// The first path on a cycle, where some place has no rank.
fn first_on_cycle(alloc: Global, rows: &[CallRow], links: &[List<usize>]) -> Result<Path, NoMemory>
    requires sorted { IsStrictlySortedBy path_cmp (paths_of rows.now) }
    requires copy { IsCopy (numbered links.now) (graph_of rows.now) (path_at rows.now) }
    requires inside { IsInside links.now }
    requires long { length links.now ≡ length rows.now }
    requires endless { IsOver links.now (length links.now) }
    ensures { IfOk result (λ path. IsFirstOnCycle (graph_of rows.now) path_cmp path) }
{
    for (place, row) in rows.iter().enumerate() {
        if is_on_cycle(alloc, links, place)? {
            return Ok(row.path);
        }
    }
    unreachable!()
}

// The answer of `call_fault`.
fn find_fault(alloc: Global, rows: &[CallRow]) -> Result<Option<CallFault>, NoMemory>
    requires { IsStrictlySortedBy path_cmp (paths_of rows.now) }
    ensures { IfOk result (λ fault. IsFault rows.now fault) }
{
    let links = links(alloc, rows)?;
    let Some(depth) = depth(alloc, &links)? else {
        let path = first_on_cycle(alloc, rows, &links)?;
        return Ok(Some(CallFault::Cycle(path)));
    };
    if depth > MOST_CALLS {
        return Ok(Some(CallFault::Deep(depth as u64)));
    }
    Ok(None)
}

/// What is wrong with the calls of a map's rows, whose paths ascend in path order: `Cycle` with the first path in this order
/// from which calls lead back to it; else `Deep` with the greatest rank, where that is over 64; else nothing. The rank of a
/// path of the map is one more than the greatest of those to which its calls lead; other paths have the rank 0.
pub fn call_fault(alloc: Global, rows: &[CallRow]) -> Result<Option<CallFault>, NoMemory>
    requires { IsStrictlySortedBy path_cmp (paths_of rows.now) }
    ensures cycle { IfOk result (λ fault. (path : Items (Items ℕ)) → (fault ≡ Some (Cycle path)) ↔ IsFirstOnCycle (graph_of rows.now) path_cmp path) }
    ensures deep { IfOk result (λ fault. (depth : ℕ) → (fault ≡ Some (TooDeep depth)) ↔ ((64 < depth) × IsDeep (graph_of rows.now) depth)) }
    ensures none { IfOk result (λ fault. (fault ≡ None) ↔ IsShallow (graph_of rows.now) 64) }
{
    find_fault(alloc, rows)
}

/// A law of call graphs: where there is no cycle the paths have ranks, and nothing else is a ranking.
pub fn acyclic_calls_have_ranks()
    ensures found { (paths : Items (Items (Items ℕ))) (calls : Items (Items ℕ) → Items AnyCall) → ((path : Items (Items ℕ)) → OnCycle (call_graph paths calls) path → ⊥) → (rank : Items (Items ℕ) → ℕ) × IsRanking (call_graph paths calls) rank }
    ensures unique { (paths : Items (Items (Items ℕ))) (calls : Items (Items ℕ) → Items AnyCall) (r s : Items (Items ℕ) → ℕ) → IsRanking (call_graph paths calls) r → IsRanking (call_graph paths calls) s → (path : Items (Items ℕ)) → r path ≡ s path }
{}
