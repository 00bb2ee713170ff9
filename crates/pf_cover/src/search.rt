//! Which rules of a block are dropped, and which rule covers one first, found over the corners of rules.
ghost use Rattle.std.specs.Prelude.{◌≡◌, ◌⊎◌, ◌≤◌, ◌<◌, ℕ, true, length, map, IfOk, slice_index_or};
ghost use Rattle.std.specs.List.{position_or_len};
ghost use Rattle.std.specs.List.Sorted.{IsNonDecreasingBy};
ghost use Rattle.pf_cover.specs.Corner.{corner_at as corner_of};
ghost use Rattle.pf_cover.specs.Kept.{drops, is_dropped, placed};
ghost use Rattle.pf_cover.specs.Search.{AreCorners, AreDeeper, AreJumps, HoldsCorners, corner_drops, covering, dropped_of};
ghost use Rattle.pf_cover.specs.declared.corner.Corner.{Corner as OneCorner};

use crate::corner::{AXES, Axis, Corner, corner_at};
use crate::cover::covers;
use crate::digest::likely_equals;
use pf_base::NoMemory;
use pf_rule::Rule;
use std::alloc::Global;

/// The corners of rules by their low ends, on the axis on which the rules differ most.
#[derive(Drop)]
pub(crate) struct Corners {
    axis: Axis,
    corners: Vec<Corner>,
    /// From each corner the number of those in front of it among which the next is no deeper than it.
    jumps: Vec<usize>,
}

/// The corners of these rules.
pub(crate) fn corners_over(alloc: Global, rules: &[Rule]) -> Result<Corners, NoMemory>
    ensures { IfOk result (λ found. HoldsCorners rules.now found) }
{
    let axis = best_axis(alloc, rules)?;
    let corners = ascending(alloc, axis, rules)?;
    let jumps = jumps(alloc, &corners)?;
    Ok(Corners {
        axis,
        corners,
        jumps,
    })
}

/// Of each rule of a block whether some other drops it.
pub(crate) fn dropped(alloc: Global, rules: &[Rule]) -> Result<Vec<bool>, NoMemory>
    ensures { IfOk result (λ flags. flags.items ≡ dropped_of rules.now) }
{
    let found = corners_over(alloc, rules)?;
    let hints = likely_equals(alloc, rules)?;
    let mut flags = Vec::new(alloc);
    for i in 0..rules.len() {
        flags.push(flag_of(&found, rules, hints[i], i, &rules[i]))?;
    }
    Ok(flags)
}

// Whether some rule drops the rule at this place. The one at the hint is tried first.
fn flag_of(found: &Corners, rules: &[Rule], hint: usize, place: usize, rule: &Rule) -> bool
    requires { HoldsCorners rules.now found.now }
    ensures { result ≡ is_dropped rules.now (place, rule.now) }
{
    if hint < rules.len() && drops(hint, &rules[hint], place, rule) {
        return true;
    }
    is_dropped(found.axis, rules, &found.corners, &found.jumps, place, rule)
}

/// The place of the first of some rules that covers this one, or their number where none does.
pub(crate) fn first_covering(found: &Corners, rules: &[Rule], rule: &Rule) -> usize
    requires { HoldsCorners rules.now found.now }
    ensures { result ≡ position_or_len (covering rule.now) rules.now }
{
    first_among(found.axis, rules, &found.corners, &found.jumps, rule)
}

// The axis on which the most rules differ.
fn best_axis(alloc: Global, rules: &[Rule]) -> Result<Axis, NoMemory> {
    let mut best = Axis::Source;
    let mut most = 0;
    for axis in AXES {
        let count = distinct(&ascending(alloc, axis, rules)?);
        if count > most {
            most = count;
            best = axis;
        }
    }
    Ok(best)
}

// How many low ends there are.
fn distinct(corners: &[Corner]) -> usize {
    corners
        .windows(2)
        .filter(|pair| pair[0].low != pair[1].low)
        .count()
}

// The corners of the rules, by their low ends.
fn ascending(alloc: Global, axis: Axis, rules: &[Rule]) -> Result<Vec<Corner>, NoMemory>
    ensures { IfOk result (λ corners. AreCorners axis rules.now corners.items) }
{
    let mut corners = corners_of(alloc, axis, rules)?;
    corners.sort_unstable_by_key(|corner| corner.low);
    Ok(corners)
}

fn corners_of(alloc: Global, axis: Axis, rules: &[Rule]) -> Result<Vec<Corner>, NoMemory>
    ensures { IfOk result (λ corners. corners.items ≡ map (corner_of axis) (placed rules.now)) }
{
    let mut corners = Vec::new(alloc);
    for i in 0..rules.len() {
        corners.push(corner_at(axis, i, &rules[i]))?;
    }
    Ok(corners)
}

// From each corner the number of those in front of it among which the next is no deeper than it.
fn jumps(alloc: Global, corners: &[Corner]) -> Result<Vec<usize>, NoMemory>
    ensures jumps { IfOk result (λ jumps. AreJumps corners.now jumps.items) }
    ensures each { IfOk result (λ jumps. length jumps.items ≡ length corners.now) }
{
    let mut jumps = Vec::new(alloc);
    for i in 0..corners.len() {
        let jump = passed(corners, &jumps, i, corners[i].depth);
        jumps.push(jump)?;
    }
    Ok(jumps)
}

// How many corners are left of the first so many, once those at the end which are deeper are passed over.
fn passed(corners: &[Corner], jumps: &[usize], end: usize, depth: u128) -> usize
    requires jumps { AreJumps corners.now jumps.now }
    requires within { end ≤ length jumps.now }
    ensures down { result ≤ end }
    ensures over { AreDeeper corners.now depth result end }
{
    let mut left = end;
    while left > 0 && corners[left - 1].depth > depth {
        left = jumps[left - 1];
    }
    left
}

// How many corners lie no higher.
fn end_of(corners: &[Corner], low: u128) -> usize
    requires { IsNonDecreasingBy (λ corner. corner.low) corners.now }
    ensures within { result ≤ length corners.now }
    ensures above { (i : ℕ) (other : OneCorner) → result ≤ i → i < length corners.now → low < (slice_index_or corners.now i other).low }
{
    corners.partition_point(|corner| corner.low <= low)
}

// Whether some rule drops the rule at this place.
fn is_dropped(
    axis: Axis,
    rules: &[Rule],
    corners: &[Corner],
    jumps: &[usize],
    place: usize,
    rule: &Rule,
) -> bool
    requires corners { AreCorners axis rules.now corners.now }
    requires jumps { AreJumps corners.now jumps.now }
    requires each { length jumps.now ≡ length corners.now }
    ensures { result ≡ is_dropped rules.now (place, rule.now) }
{
    let own = corner_at(axis, place, rule);
    let end = end_of(corners, own.low);
    let mut left = passed(corners, jumps, end, own.depth);
    while left > 0 {
        if corner_drops(rules, &corners[left - 1], place, rule) {
            return true;
        }
        left = passed(corners, jumps, left - 1, own.depth);
    }
    false
}

fn corner_drops(rules: &[Rule], corner: &Corner, place: usize, other: &Rule) -> bool
    requires { corner.now.place < length rules.now }
    ensures { result ≡ corner_drops rules.now (place, other.now) corner.now }
{
    drops(corner.place, &rules[corner.place], place, other)
}

fn drops(i: usize, one: &Rule, place: usize, other: &Rule) -> bool
    ensures { result ≡ drops (i, one.now) (place, other.now) }
{
    covers(one, other) && (!covers(other, one) || i < place)
}

// The place of the first rule that covers this one, over the rules' corners.
fn first_among(
    axis: Axis,
    rules: &[Rule],
    corners: &[Corner],
    jumps: &[usize],
    rule: &Rule,
) -> usize
    requires corners { AreCorners axis rules.now corners.now }
    requires jumps { AreJumps corners.now jumps.now }
    requires each { length jumps.now ≡ length corners.now }
    ensures { result ≡ position_or_len (covering rule.now) rules.now }
{
    let own = corner_at(axis, 0, rule);
    let end = end_of(corners, own.low);
    let mut first = rules.len();
    let mut left = passed(corners, jumps, end, own.depth);
    while left > 0 {
        first = earlier(rules, corners[left - 1].place, rule, first);
        left = passed(corners, jumps, left - 1, own.depth);
    }
    first
}

// Of two places the earlier, where the rule at the one covers.
fn earlier(rules: &[Rule], place: usize, rule: &Rule, first: usize) -> usize
    requires { place < length rules.now }
    ensures within { result ≤ first }
    ensures here { covering rule.now (slice_index_or rules.now place rule.now) ≡ true → result ≤ place }
    ensures is { (result ≡ first) ⊎ ((result ≡ place) × (covering rule.now (slice_index_or rules.now place rule.now) ≡ true)) }
{
    if first <= place {
        return first;
    }
    if covers(&rules[place], rule) {
        return place;
    }
    first
}
