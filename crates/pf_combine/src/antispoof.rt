//! `antispoof` (pf.conf(5), "antispoof").
ghost use Rattle.std.specs.Prelude.{◌≡◌, ◌≤◌, ◌++◌, [], length, map, take, false, true, IfOk, OnOk, if◌then◌else◌};
ghost use Rattle.pf_host.specs.Queries.{in_group, is_meant, own_addresses};
ghost use Rattle.pf_combine.specs.Antispoof as says;
ghost use Rattle.pf_combine.specs.Antispoof.{from_prefix, of_written};
ghost use Rattle.pf_parts.specs.declared.matching.IfTest.TheVariants as tests;

use crate::combine::{fits, push_within};
use pf_addr::Prefix;
use pf_base::{Family, List, Name, NoMemory};
use pf_host::Facts;
use pf_parts::IfTest;
use pf_rule::{AddrSet, AddrTest, Criteria};
use std::alloc::Global;

// The criteria from a prefix, with this test of the interface.
fn from_prefix(start: &Criteria, test: &IfTest, prefix: &Prefix) -> Criteria
    ensures { result ≡ says.from_prefix start.now test.now prefix.now }
{
    let mut criteria = *start;
    criteria.iface = *test;
    criteria.family = Some(prefix.family());
    criteria.source = AddrTest::Test {
        negated: false,
        what: AddrSet::Prefix(*prefix),
    };
    criteria
}

// Adds the criteria from each prefix of the written family, as far as there is room.
fn add_prefixes(
    found: &mut List<Criteria>,
    room: usize,
    written: Option<Family>,
    start: &Criteria,
    test: &IfTest,
    prefixes: &[Prefix],
) -> Result<(), NoMemory>
    requires { length found.old ≤ room }
    ensures { OnOk result (found.new ≡ take room (found.old ++ map (from_prefix start.now test.now) (of_written written prefixes.now))) }
{
    for prefix in prefixes {
        if !fits(written, Some(prefix.family())) {
            continue;
        }
        push_within(found, room, &from_prefix(start, test, prefix))?;
    }
    Ok(())
}

// Whether it is a loopback interface.
fn is_loopback(facts: &Facts, iface: &Name) -> bool
    ensures { result ≡ in_group facts.now says.loopback iface.now }
{
    match Name::new(b"lo") {
        Some(name) => facts.in_group(&name, iface),
        None => unreachable!(),
    }
}

// Adds what an interface may not be come in from, unless it is a loopback interface.
fn add_addresses(
    found: &mut List<Criteria>,
    alloc: Global,
    room: usize,
    facts: &Facts,
    written: Option<Family>,
    start: &Criteria,
    iface: &Name,
) -> Result<(), NoMemory>
    requires { length found.old ≤ room }
    ensures { OnOk result (found.new ≡ take room (found.old ++ (if in_group facts.now says.loopback iface.now then []
        else map (from_prefix start.now tests.Any) (of_written written (own_addresses facts.now iface.now false))))) }
{
    if is_loopback(facts, iface) {
        return Ok(());
    }
    let addresses = facts.own_addresses(alloc, iface, false)?;
    add_prefixes(found, room, written, start, &IfTest::Any, addresses.items())
}

// Adds the criteria of one interface.
fn add_iface(
    found: &mut List<Criteria>,
    alloc: Global,
    room: usize,
    facts: &Facts,
    written: Option<Family>,
    start: &Criteria,
    iface: &Name,
) -> Result<(), NoMemory>
    requires { length found.old ≤ room }
    ensures { OnOk result (found.new ≡ take room (found.old ++ says.of_iface facts.now written start.now iface.now)) }
{
    let elsewhere = IfTest::On {
        name: *iface,
        negated: true,
    };
    let networks = facts.own_addresses(alloc, iface, true)?;
    add_prefixes(found, room, written, start, &elsewhere, networks.items())?;
    add_addresses(found, alloc, room, facts, written, start, iface)
}

// Whether the name means the interface.
fn is_meant(facts: &Facts, name: &Name, iface: &Name) -> bool
    ensures { result ≡ is_meant facts.now name.now iface.now }
{
    name.bytes() == b"self".as_slice() || facts.in_group(name, iface)
}

// Adds the criteria of each interface that a name means.
fn add_name(
    found: &mut List<Criteria>,
    alloc: Global,
    room: usize,
    facts: &Facts,
    written: Option<Family>,
    start: &Criteria,
    name: &Name,
) -> Result<(), NoMemory>
    requires { length found.old ≤ room }
    ensures { OnOk result (found.new ≡ take room (found.old ++ says.of_name facts.now written start.now name.now)) }
{
    for iface in facts.interfaces() {
        if !is_meant(facts, name, iface) {
            continue;
        }
        add_iface(found, alloc, room, facts, written, start, iface)?;
    }
    Ok(())
}

// Adds the criteria of a test of `antispoof for`.
fn add_test(
    found: &mut List<Criteria>,
    alloc: Global,
    room: usize,
    facts: &Facts,
    written: Option<Family>,
    start: &Criteria,
    test: &IfTest,
) -> Result<(), NoMemory>
    requires { length found.old ≤ room }
    ensures { OnOk result (found.new ≡ take room (found.old ++ says.of_test facts.now written start.now test.now)) }
{
    match test {
        IfTest::Any => Ok(()),
        IfTest::On { name, negated: _ } => {
            add_name(found, alloc, room, facts, written, start, name)
        }
    }
}

// Adds the criteria of all tests of `antispoof for`, as far as there is room.
fn add_tests(
    found: &mut List<Criteria>,
    alloc: Global,
    room: usize,
    facts: &Facts,
    written: Option<Family>,
    start: &Criteria,
    list: &[IfTest],
) -> Result<(), NoMemory>
    requires { length found.old ≤ room }
    ensures { OnOk result (found.new ≡ take room (found.old ++ says.of_tests facts.now written start.now list.now)) }
{
    for test in list {
        add_test(found, alloc, room, facts, written, start, test)?;
    }
    Ok(())
}

/// The first `room` criteria of an antispoof: for each interface that a name of the list means, from each of its networks on
/// every other interface, and then, unless it is in the group `lo`, from each of its addresses on any; both in the order of
/// the facts, and of the written family alone where there is one (pf.conf(5), "antispoof").
pub fn antispoof_criteria(
    alloc: Global,
    room: usize,
    facts: &Facts,
    written: Option<Family>,
    start: &Criteria,
    list: &[IfTest],
) -> Result<List<Criteria>, NoMemory>
    ensures { IfOk result (λ found. found ≡ take room (says.of_tests facts.now written start.now list.now)) }
{
    let mut found = List::new(alloc);
    add_tests(&mut found, alloc, room, facts, written, start, list)?;
    Ok(found)
}
