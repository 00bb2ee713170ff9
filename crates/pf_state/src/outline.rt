//! The rulesets of a tree in outline, as they would stand after a load.
ghost use Rattle.std.specs.Prelude.{◌≡◌, IfOk, OnOk, length, map, not};
ghost use Rattle.std.specs.FinMap as finite;
ghost use Rattle.pf_base.specs.OrderedMap.{map_of};
ghost use Rattle.pf_optim.specs.Node.{is_bare};
ghost use Rattle.pf_shelf.specs.Shelf.{total};
ghost use Rattle.std.specs.Option.{option_map};
ghost use Rattle.pf_tree.specs.Meaning.{put_payload};
ghost use Rattle.pf_tree.specs.Order.{path_cmp};
ghost use Rattle.pf_state.specs.Commits.{committed, is_cleared as goes, shelf_of, shown_node};
ghost use Rattle.pf_state.specs.Outlines.{AreOutlined, outline_of, with_call, with_left};
ghost use Rattle.pf_state.specs.Rulesets.{call_of, calls_in};

use crate::at_paths::AtPaths;
use crate::cleared::is_cleared;
use crate::ready::Staged;
use pf_base::{List, NoMemory, Path, path_map_laws};
use pf_optim::{Node, Ruleset};
use pf_parts::Call;
use pf_rule::{Action, Rule};
use pf_shelf::Shelf;
use std::alloc::Global;
use std::collections::BTreeMap;

/// What the limits and the graph of calls see of a ruleset.
#[derive(Drop)]
pub struct Outline {
    /// The number of its rules as they are written.
    pub rules: u64,
    /// The number of the entries of its declared tables.
    pub entries: u64,
    /// The calls of its anchor rules, in order.
    pub calls: List<Call>,
}

// The calls of the anchor rules among these.
fn calls_of(alloc: Global, rules: &[Rule]) -> Result<List<Call>, NoMemory>
    ensures { IfOk result (λ calls. calls ≡ calls_in rules.now) }
{
    let mut calls = List::new(alloc);
    for rule in rules {
        add_call(&mut calls, &rule.effect.action)?;
    }
    Ok(calls)
}

// Adds the call of an anchor rule.
fn add_call(calls: &mut List<Call>, action: &Action) -> Result<(), NoMemory>
    ensures { OnOk result (calls.new ≡ with_call calls.old (call_of action.now)) }
{
    match action {
        Action::Anchor(call) => calls.push_copy(call),
        _ => Ok(()),
    }
}

// The outline of a ruleset with these rules and tables.
fn make_outline(alloc: Global, rules: &[Rule], shelf: &Shelf) -> Result<Outline, NoMemory>
    ensures { IfOk result (λ outline. outline ≡ record { rules = length rules.now; entries = total shelf.now; calls = calls_in rules.now }) }
{
    let calls = calls_of(alloc, rules)?;
    Ok(Outline {
        rules: rules.len() as u64,
        entries: shelf.total(),
        calls,
    })
}

// The outlines of the rulesets that a load leaves where they are, or replaces.
fn outlines_left(
    alloc: Global,
    rulesets: &AtPaths<Node>,
    parts: &[Staged],
) -> Result<BTreeMap<Path, Outline>, NoMemory>
    ensures { IfOk result (λ outlines. AreOutlined (finite.retain_keys rulesets.now (λ at. not (goes parts.now at))) (map_of path_cmp outlines)) }
{
    path_map_laws::<Outline>();
    let paths = rulesets.paths(alloc)?;
    let mut outlines = BTreeMap::new(alloc);
    for path in paths.items() {
        add_outline(alloc, &mut outlines, rulesets, parts, path)?;
    }
    Ok(outlines)
}

// Adds the outline of the ruleset at a path, unless it goes.
fn add_outline(
    alloc: Global,
    outlines: &mut BTreeMap<Path, Outline>,
    rulesets: &AtPaths<Node>,
    parts: &[Staged],
    path: &Path,
) -> Result<(), NoMemory>
    ensures { OnOk result (map_of path_cmp outlines.new ≡ with_left parts.now rulesets.now (map_of path_cmp outlines.old) path.now) }
{
    path_map_laws::<Outline>();
    if is_cleared(parts, path) {
        return Ok(());
    }
    if let Some(node) = rulesets.get(path) {
        let made = make_outline(alloc, node.rules.written(), &node.shelf)?;
        outlines.insert(*path, made)?;
    }
    Ok(())
}

// Whether there is neither a rule nor a table.
fn is_bare(rules: &Ruleset, shelf: &Shelf) -> bool
    ensures { result ≡ is_bare rules.now shelf.now }
{
    rules.written().is_empty() && shelf.is_empty()
}

// Puts the outline of a part with this shelf at its path.
fn put_outline(
    alloc: Global,
    outlines: &mut BTreeMap<Path, Outline>,
    part: &Staged,
    shelf: &Shelf,
) -> Result<(), NoMemory>
    ensures { OnOk result (map_of path_cmp outlines.new ≡ put_payload (map_of path_cmp outlines.old) part.now.path (option_map outline_of (shown_node (record { rules = part.now.rules; shelf = shelf.now })))) }
{
    path_map_laws::<Outline>();
    if is_bare(&part.rules, shelf) {
        outlines.remove(&part.path);
        return Ok(());
    }
    let made = make_outline(alloc, part.rules.written(), shelf)?;
    outlines.insert(part.path, made)?;
    Ok(())
}

/// The outlines of the rulesets as they would stand after a load of these parts, each with this shelf.
pub(crate) fn outlines_after(
    alloc: Global,
    rulesets: &AtPaths<Node>,
    parts: &[Staged],
    shelves: &[Shelf],
) -> Result<BTreeMap<Path, Outline>, NoMemory>
    requires { shelves.now ≡ map (shelf_of rulesets.now) parts.now }
    ensures { IfOk result (λ outlines. AreOutlined (committed parts.now rulesets.now) (map_of path_cmp outlines)) }
{
    let mut outlines = outlines_left(alloc, rulesets, parts)?;
    let mut place = parts.len();
    while place > 0 {
        place -= 1;
        put_outline(alloc, &mut outlines, &parts[place], &shelves[place])?;
    }
    Ok(outlines)
}
