//! When one rule covers another.
ghost use Rattle.std.specs.Prelude.{◌≡◌};
ghost use Rattle.pf_cover.specs.Cover.{address_covers, covers, equal_covers, interface_covers, numbers_cover, other_covers, set_covers, skip_covers, stretch_of, tag_covers, lies_inside};
ghost use Rattle.pf_rule.specs.Hit.{all_hold};

use pf_addr::Stretch;
use pf_base::Same;
use pf_ops::{Op16, Op32};
use pf_parts::{IfTest, TagTest};
use pf_rule::{AddrSet, AddrTest, Criteria, Rule};

/// Whether each packet that the second rule matches is matched by the first, as their text alone tells it: each
/// criterion of the first isn't given, equals the second's, or is a set of addresses or numbers that has the second's
/// (pf.conf(5), "set ruleset-optimization"). What tables and interfaces have at the moment plays no part. Takes no memory.
pub fn covers(wide: &Rule, narrow: &Rule) -> bool
    ensures { result ≡ covers wide.now.criteria narrow.now.criteria }
{
    criteria_cover(&wide.criteria, &narrow.criteria)
}

#[tactic(auto, unfolding(crate::specs::Cover::covers))]
fn criteria_cover(wide: &Criteria, narrow: &Criteria) -> bool
    ensures { result ≡ covers wide.now narrow.now }
{
    fields_cover(wide, narrow) && others_cover(wide, narrow)
}

fn fields_cover(wide: &Criteria, narrow: &Criteria) -> bool
    ensures { result ≡ all_hold (skip_covers wide.now narrow.now) }
{
    interface_covers(&wide.iface, &narrow.iface)
        && equal_covers(&wide.direction, &narrow.direction)
        && equal_covers(&wide.family, &narrow.family)
        && equal_covers(&wide.proto, &narrow.proto)
        && address_covers(&wide.source, &narrow.source)
        && ports_cover(&wide.source_port, &narrow.source_port)
        && address_covers(&wide.target, &narrow.target)
        && ports_cover(&wide.target_port, &narrow.target_port)
}

fn others_cover(wide: &Criteria, narrow: &Criteria) -> bool
    ensures { result ≡ all_hold (other_covers wide.now narrow.now) }
{
    owners_cover(&wide.user, &narrow.user)
        && owners_cover(&wide.group, &narrow.group)
        && equal_covers(&wide.flags, &narrow.flags)
        && equal_covers(&wide.icmp, &narrow.icmp)
        && equal_covers(&wide.tos, &narrow.tos)
        && equal_covers(&wide.prio, &narrow.prio)
        && tag_covers(&wide.tagged, &narrow.tagged)
}

fn equal_covers<T: Same>(wide: &Option<T>, narrow: &Option<T>) -> bool
    ensures { result ≡ equal_covers T.equality wide.now narrow.now }
{
    match (wide, narrow) {
        (None, _) => true,
        (Some(_), None) => false,
        (Some(one), Some(other)) => one.same(other),
    }
}

fn ports_cover(wide: &Option<Op16>, narrow: &Option<Op16>) -> bool
    ensures { result ≡ numbers_cover wide.now narrow.now }
{
    match (wide, narrow) {
        (None, _) => true,
        (Some(_), None) => false,
        (Some(one), Some(other)) => one.covers(other),
    }
}

// Users and groups.
fn owners_cover(wide: &Option<Op32>, narrow: &Option<Op32>) -> bool
    ensures { result ≡ numbers_cover wide.now narrow.now }
{
    match (wide, narrow) {
        (None, _) => true,
        (Some(_), None) => false,
        (Some(one), Some(other)) => one.covers(other),
    }
}

fn interface_covers(wide: &IfTest, narrow: &IfTest) -> bool
    ensures { result ≡ interface_covers wide.now narrow.now }
{
    match wide {
        IfTest::Any => true,
        IfTest::On { .. } => wide.same(narrow),
    }
}

fn tag_covers(wide: &TagTest, narrow: &TagTest) -> bool
    ensures { result ≡ tag_covers wide.now narrow.now }
{
    match wide {
        TagTest::Any => true,
        TagTest::Is { .. } => wide.same(narrow),
    }
}

fn address_covers(wide: &AddrTest, narrow: &AddrTest) -> bool
    ensures { result ≡ address_covers wide.now narrow.now }
{
    match (wide, narrow) {
        (AddrTest::Any, _) => true,
        (AddrTest::Test { .. }, AddrTest::Any) => false,
        (
            AddrTest::Test { negated, what },
            AddrTest::Test {
                negated: turned,
                what: second,
            },
        ) => set_covers(*negated, what, *turned, second),
    }
}

fn set_covers(negated: bool, wide: &AddrSet, turned: bool, narrow: &AddrSet) -> bool
    ensures { result ≡ set_covers negated wide.now turned narrow.now }
{
    (negated.same(&turned) && wide.same(narrow))
        || (!negated && !turned && lies_inside(wide, narrow))
}

// Whether both are prefixes or ranges, and the second lies inside the first.
fn lies_inside(wide: &AddrSet, narrow: &AddrSet) -> bool
    ensures { result ≡ lies_inside (stretch_of wide.now) (stretch_of narrow.now) }
{
    match (stretch_of(wide), stretch_of(narrow)) {
        (Some(one), Some(other)) => one.encloses(&other),
        (None, _) | (Some(_), None) => false,
    }
}

pub(crate) fn stretch_of(set: &AddrSet) -> Option<Stretch>
    ensures { result ≡ stretch_of set.now }
{
    match set {
        AddrSet::Prefix(prefix) => Some(prefix.stretch()),
        AddrSet::Range(range) => Some(range.stretch()),
        AddrSet::Table(_) | AddrSet::Dynamic(_) | AddrSet::Auto(_) => None,
    }
}
