//! The combinations of a statement's lists (pf.conf(5), lists).
ghost use Rattle.std.specs.Prelude.{◌≡◌, ◌≤◌, ◌++◌, ◌∷◌, [], length, take, IfOk, OnOk, Some};
ghost use Rattle.std.specs.List.{list_all, list_any, slice_get};
ghost use Rattle.std.specs.Option.{option_to_list};
ghost use Rattle.pf_combine.specs.Combinations as combos;
ghost use Rattle.pf_combine.specs.Combinations.{combined, is_one};
ghost use Rattle.pf_combine.specs.Members.{names};
ghost use Rattle.pf_combine.specs.Walk as walks;

use crate::member::{Member, with_member};
use pf_base::{Family, List, NoMemory};
use pf_rule::Criteria;
use std::alloc::Global;

// Whether the families are one.
fn is_same(one: Family, other: Family) -> bool
    ensures { result ≡ combos.is_same one other }
{
    match (one, other) {
        (Family::Inet, Family::Inet) | (Family::Inet6, Family::Inet6) => true,
        (Family::Inet, Family::Inet6) | (Family::Inet6, Family::Inet) => false,
    }
}

// Whether the family so far and one that is named don't differ.
pub(crate) fn fits(chosen: Option<Family>, named: Option<Family>) -> bool
    ensures { result ≡ walks.fits chosen named }
{
    match chosen {
        None => true,
        Some(family) => match named {
            None => true,
            Some(other) => is_same(family, other),
        },
    }
}

// Whether some member fits the family.
fn some_fits(family: Family, members: &[Member]) -> bool
    ensures { result ≡ list_any (λ member. walks.fits (Some family) (names member)) members.now }
{
    members
        .iter()
        .any(|member| fits(Some(family), member.names()))
}

// Whether each list has a member that fits the family.
fn completes(family: Family, lists: &[List<Member>]) -> bool
    ensures { result ≡ walks.completes family lists.now }
{
    lists
        .iter()
        .all(|members| some_fits(family, members.items()))
}

fn is_open(chosen: Option<Family>, inet: bool, inet6: bool) -> bool
    ensures { result ≡ walks.is_open chosen inet inet6 }
{
    match chosen {
        None => inet || inet6,
        Some(Family::Inet) => inet,
        Some(Family::Inet6) => inet6,
    }
}

// The family so far behind a member, unless the member doesn't fit or nothing completes.
fn next_family(
    chosen: Option<Family>,
    named: Option<Family>,
    inet: bool,
    inet6: bool,
) -> Option<Option<Family>>
    ensures { result ≡ walks.next_family chosen named inet inet6 }
{
    let next = chosen.or(named);
    if fits(chosen, named) && is_open(next, inet, inet6) {
        Some(next)
    } else {
        None
    }
}

// Adds the criteria, where there is room for them.
pub(crate) fn push_within(
    found: &mut List<Criteria>,
    room: usize,
    criteria: &Criteria,
) -> Result<(), NoMemory>
    requires { length found.old ≤ room }
    ensures { OnOk result (found.new ≡ take room (found.old ++ criteria.now ∷ [])) }
{
    if found.items().len() < room {
        found.push_copy(criteria)
    } else {
        Ok(())
    }
}

// The criteria with a family, or none.
fn of_family(start: &Criteria, family: Option<Family>) -> Criteria
    ensures { result ≡ record start.now { family = family } }
{
    let mut criteria = *start;
    criteria.family = family;
    criteria
}

// Adds the combinations of the lists, as far as there is room, behind a family so far or none.
fn combine(
    found: &mut List<Criteria>,
    room: usize,
    chosen: Option<Family>,
    start: &Criteria,
    lists: &[List<Member>],
) -> Result<(), NoMemory>
    requires { length found.old ≤ room }
    ensures { OnOk result (found.new ≡ take room (found.old ++ combined (option_to_list chosen) start.now lists.now)) }
{
    if found.items().len() >= room {
        return Ok(());
    }
    let Some((members, rest)) = lists.split_first() else {
        return push_within(found, room, &of_family(start, chosen));
    };
    let inet = completes(Family::Inet, rest);
    let inet6 = completes(Family::Inet6, rest);
    for member in members.items() {
        let Some(next) = next_family(chosen, member.names(), inet, inet6) else {
            continue;
        };
        combine(found, room, next, &with_member(start, member), rest)?;
    }
    Ok(())
}

fn first_family(families: &[Family]) -> Option<Family>
    ensures { result ≡ slice_get families.now 0 }
{
    families.first().copied()
}

// Whether all are of this family.
fn are_of(family: Family, families: &[Family]) -> bool
    ensures { result ≡ list_all (combos.is_same family) families.now }
{
    families.iter().all(|other| is_same(family, *other))
}

// Whether no two of them differ.
fn are_one(families: &[Family]) -> bool
    ensures { result ≡ is_one families.now }
{
    match families.split_first() {
        None => true,
        Some((family, others)) => are_of(*family, others),
    }
}

/// The criteria of the first `room` combinations of one member of each list, the first list outermost, without those of which
/// two members name different families; the families that the statement names as a whole count. The family of a combination
/// is the one that it names, or none (pf.conf(5), lists).
pub fn combinations(
    alloc: Global,
    room: usize,
    families: &[Family],
    start: &Criteria,
    lists: &[List<Member>],
) -> Result<List<Criteria>, NoMemory>
    ensures { IfOk result (λ found. found ≡ take room (combined families.now start.now lists.now)) }
{
    let mut found = List::new(alloc);
    if !are_one(families) {
        return Ok(found);
    }
    combine(&mut found, room, first_family(families), start, lists)?;
    Ok(found)
}
