//! The places of rows, and where their calls lead.
ghost use Rattle.std.specs.Prelude.{◌≡◌, [], IfOk, OnOk, length};
ghost use Rattle.std.specs.List.{flat_map};
ghost use Rattle.std.specs.List.Sorted.{IsStrictlySortedBy};
ghost use Rattle.pf_tree.specs.Order.{path_cmp};
ghost use Rattle.pf_calls.specs.Calls.{called, children_of, graph_of, paths_of};
ghost use Rattle.pf_calls.specs.Numbered.{IsCopy, IsInside, IsPlaceOf, numbered, path_at};
ghost use Rattle.std.specs.Bool.{Decides};
ghost use Rattle.pf_calls.specs.Links.{IsChild, Reaches};

use crate::row::CallRow;
use pf_base::{List, NoMemory, Path};
use pf_parts::Call;
use std::alloc::Global;
use std::cmp::Ordering;

// The place of the row of this path.
fn place_of(rows: &[CallRow], path: &Path) -> Option<usize>
    requires { IsStrictlySortedBy path_cmp (paths_of rows.now) }
    ensures { IsPlaceOf rows.now path.now result }
{
    rows.binary_search_by(
        |row| -> Ordering
            ensures { result ≡ path_cmp row.now.path path.entry.now }
        { row.path.cmp(path) },
    )
    .ok()
}

// Whether a path is a child of another that a wildcard leads to.
fn is_child(at: &Path, path: &Path) -> bool
    ensures { Decides result (IsChild at.now path.now) }
{
    match path.names().split_last() {
        None => false,
        Some((name, front)) => front == at.names() && !name.is_reserved(),
    }
}

// Adds the places of a path's children.
fn add_children(rows: &[CallRow], at: &Path, links: &mut List<usize>) -> Result<(), NoMemory>
    ensures { OnOk result (Reaches rows.now links.old (children_of (paths_of rows.now) at.now) links.new) }
{
    for (place, row) in rows.iter().enumerate() {
        if is_child(at, &row.path) {
            links.push(place)?;
        }
    }
    Ok(())
}

// Adds the places to which a call of the row at this path leads.
fn add_called(
    rows: &[CallRow],
    at: &Path,
    call: &Call,
    links: &mut List<usize>,
) -> Result<(), NoMemory>
    requires { IsStrictlySortedBy path_cmp (paths_of rows.now) }
    ensures { OnOk result (Reaches rows.now links.old (called (paths_of rows.now) at.now call.now) links.new) }
{
    let Some(target) = call.target(at) else {
        return Ok(());
    };
    if call.children {
        return add_children(rows, &target, links);
    }
    if let Some(place) = place_of(rows, &target) {
        links.push(place)?;
    }
    Ok(())
}

// The places to which the calls of a row lead.
fn row_links(alloc: Global, rows: &[CallRow], row: &CallRow) -> Result<List<usize>, NoMemory>
    requires { IsStrictlySortedBy path_cmp (paths_of rows.now) }
    ensures { IfOk result (λ links. Reaches rows.now [] (flat_map (called (paths_of rows.now) row.now.path) row.now.calls) links) }
{
    let mut links = List::new(alloc);
    for call in row.calls.items() {
        add_called(rows, &row.path, call, &mut links)?;
    }
    Ok(links)
}

// The places to which the calls of each row lead.
pub(crate) fn links(alloc: Global, rows: &[CallRow]) -> Result<Vec<List<usize>>, NoMemory>
    requires { IsStrictlySortedBy path_cmp (paths_of rows.now) }
    ensures copy { IfOk result (λ links. IsCopy (numbered links.items) (graph_of rows.now) (path_at rows.now)) }
    ensures inside { IfOk result (λ links. IsInside links.items) }
    ensures long { IfOk result (λ links. length links.items ≡ length rows.now) }
{
    let mut links = Vec::new(alloc);
    for row in rows {
        links.push(row_links(alloc, rows, row)?)?;
    }
    Ok(links)
}
