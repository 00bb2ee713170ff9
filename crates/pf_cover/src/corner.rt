//! Where a rule stands on one axis: of rules that cover one another the wider has neither the larger low end nor the
//! larger depth, so most pairs of a block need no comparison.
ghost use Rattle.std.specs.Prelude.{◌≡◌, ◌+◌, ◌*◌, ◌<◌, ◌^◌};
ghost use Rattle.pf_cover.specs.Corner.{EndsUpTo, address_ends, beside, byte_ends, corner_at, direction_ends, ends_at, exactly, family_ends, flags_ends, from_top, icmp_ends, interface_ends, mark_of, nowhere, numbers_ends, others_ends, set_ends, stretch_ends, tag_ends, test_ends};

use pf_addr::Stretch;
use pf_base::{Family, Name};
use pf_ops::{IcmpType, Numbers, Op16, Op32, TcpFlags};
use pf_parts::{Direction, IfTest, TagTest};
use pf_rule::{AddrSet, AddrTest, Criteria, Rule};

/// What rules are told apart by.
#[derive(Clone, Copy, Debug, PartialEq, Eq)]
pub(crate) enum Axis {
    Source,
    Target,
    Ports,
    /// User and group.
    Owners,
    /// The criteria that only their equals cover.
    Others,
}

/// All axes.
pub(crate) const AXES: [Axis; 5] = [
    Axis::Source,
    Axis::Target,
    Axis::Ports,
    Axis::Owners,
    Axis::Others,
];

/// How far a criterion reaches: its lowest address or number, and how far its highest is from the top. One that isn't
/// given has 0 in both.
#[derive(Clone, Copy, Debug)]
pub(crate) struct Ends {
    pub(crate) low: u128,
    pub(crate) depth: u128,
}

/// The ends of a rule on an axis, and its place in its block.
#[derive(Clone, Copy, Debug)]
pub(crate) struct Corner {
    pub(crate) low: u128,
    pub(crate) depth: u128,
    pub(crate) place: usize,
}

#[tactic(auto, unfolding(crate::specs::Corner::corner_at))]
pub(crate) fn corner_at(axis: Axis, place: usize, rule: &Rule) -> Corner
    ensures { result ≡ corner_at axis (place, rule.now) }
{
    let ends = ends_at(axis, &rule.criteria);
    Corner {
        low: ends.low,
        depth: ends.depth,
        place,
    }
}

pub(crate) fn ends_at(axis: Axis, criteria: &Criteria) -> Ends
    ensures { result ≡ ends_at axis criteria.now }
{
    match axis {
        Axis::Source => test_ends(&criteria.source),
        Axis::Target => test_ends(&criteria.target),
        Axis::Ports => beside(
            65536,
            ports_ends(&criteria.source_port),
            ports_ends(&criteria.target_port),
        ),
        Axis::Owners => beside(
            4294967296,
            owners_ends(&criteria.user),
            owners_ends(&criteria.group),
        ),
        Axis::Others => others_ends(criteria),
    }
}

// The criteria that only their equals cover, one beside the other. Each base is above the ends that it is for, and all
// of them together are below 2^116.
fn others_ends(criteria: &Criteria) -> Ends
    ensures { result ≡ others_ends criteria.now }
{
    let names = beside(
        33554432,
        interface_ends(&criteria.iface),
        tag_ends(&criteria.tagged),
    );
    let protocol = beside(512, names, byte_ends(criteria.proto));
    let tos = beside(512, protocol, byte_ends(criteria.tos));
    let prio = beside(512, tos, byte_ends(criteria.prio));
    let flags = beside(131072, prio, flags_ends(criteria.flags));
    let icmp = beside(262144, flags, icmp_ends(criteria.icmp));
    let family = beside(4, icmp, family_ends(criteria.family));
    beside(4, family, direction_ends(criteria.direction))
}

// Ends by one criterion, and among equals by another, whose ends are below the base.
fn beside(base: u64, first: Ends, second: Ends) -> Ends
    requires low { first.low * base + second.low < 2 ^ 128 }
    requires depth { first.depth * base + second.depth < 2 ^ 128 }
    ensures value { result ≡ beside base first second }
    ensures low { result.low ≡ first.low * base + second.low }
    ensures depth { result.depth ≡ first.depth * base + second.depth }
{
    Ends {
        low: first.low * u128::from(base) + second.low,
        depth: first.depth * u128::from(base) + second.depth,
    }
}

// What isn't given, and covers everything.
fn nowhere() -> Ends
    ensures { result ≡ nowhere }
{
    Ends { low: 0, depth: 0 }
}

// A number below the top that only its equal covers.
fn exactly(top: u64, number: u64) -> Ends
    requires { number < top }
    ensures value { result ≡ exactly top number }
    ensures few { EndsUpTo top result }
{
    Ends {
        low: u128::from(number) + 1,
        depth: u128::from(top - number),
    }
}

fn test_ends(test: &AddrTest) -> Ends
    ensures { result ≡ test_ends test.now }
{
    match test {
        AddrTest::Any => nowhere(),
        AddrTest::Test { what, .. } => address_ends(what),
    }
}

fn address_ends(what: &AddrSet) -> Ends
    ensures { result ≡ address_ends what.now }
{
    match what {
        AddrSet::Prefix(prefix) => stretch_ends(&prefix.stretch()),
        AddrSet::Range(range) => stretch_ends(&range.stretch()),
        AddrSet::Table(name) => exactly(16777216, mark_of(name)),
        AddrSet::Dynamic(dynamic) => exactly(16777216, mark_of(&dynamic.name)),
        AddrSet::Auto(number) => exactly(4294967296, u64::from(*number)),
    }
}

fn stretch_ends(stretch: &Stretch) -> Ends
    ensures { result ≡ stretch_ends stretch.now }
{
    Ends {
        low: stretch.low,
        depth: from_top(stretch.high),
    }
}

#[tactic(auto, unfolding(crate::specs::Corner::from_top))]
fn from_top(high: u128) -> u128
    ensures { result ≡ from_top high }
{
    u128::MAX.saturating_sub(high)
}

// The lowest number of a set, up to the top, and how far its highest is from there.
fn set_ends(numbers: Numbers, top: u32) -> Ends
    ensures value { result ≡ set_ends top numbers }
    ensures few { EndsUpTo top result }
{
    let (low, depth) = match numbers {
        Numbers::Empty => (top, top),
        Numbers::One(all) => (all.low.min(top), top.saturating_sub(all.high)),
        Numbers::Two(first, last) => (
            first.low.min(last.low).min(top),
            top.saturating_sub(first.high.max(last.high)),
        ),
    };
    Ends {
        low: u128::from(low),
        depth: u128::from(depth),
    }
}

fn ports_ends(ports: &Option<Op16>) -> Ends
    ensures value { result ≡ numbers_ends 65535 ports.now }
    ensures few { EndsUpTo 65535 result }
{
    match ports {
        None => nowhere(),
        Some(ports) => set_ends(ports.numbers(), 65535),
    }
}

// Users and groups.
fn owners_ends(owners: &Option<Op32>) -> Ends
    ensures value { result ≡ numbers_ends 4294967295 owners.now }
    ensures few { EndsUpTo 4294967295 result }
{
    match owners {
        None => nowhere(),
        Some(owners) => set_ends(owners.numbers(), u32::MAX),
    }
}

fn byte_ends(byte: Option<u8>) -> Ends
    ensures value { result ≡ byte_ends byte }
    ensures few { EndsUpTo 256 result }
{
    match byte {
        None => nowhere(),
        Some(byte) => exactly(256, u64::from(byte)),
    }
}

fn direction_ends(direction: Option<Direction>) -> Ends
    ensures value { result ≡ direction_ends direction }
    ensures few { EndsUpTo 2 result }
{
    match direction {
        None => nowhere(),
        Some(Direction::In) => exactly(2, 0),
        Some(Direction::Out) => exactly(2, 1),
    }
}

fn family_ends(family: Option<Family>) -> Ends
    ensures value { result ≡ family_ends family }
    ensures few { EndsUpTo 2 result }
{
    match family {
        None => nowhere(),
        Some(Family::Inet) => exactly(2, 0),
        Some(Family::Inet6) => exactly(2, 1),
    }
}

fn flags_ends(flags: Option<TcpFlags>) -> Ends
    ensures value { result ≡ flags_ends flags }
    ensures few { EndsUpTo 65536 result }
{
    match flags {
        None => nowhere(),
        Some(flags) => exactly(65536, u64::from(flags.set) * 256 + u64::from(flags.mask)),
    }
}

fn icmp_ends(icmp: Option<IcmpType>) -> Ends
    ensures value { result ≡ icmp_ends icmp }
    ensures few { EndsUpTo 131072 result }
{
    match icmp {
        None => nowhere(),
        Some(icmp) => match icmp.code {
            None => exactly(131072, u64::from(icmp.kind) * 512),
            Some(code) => exactly(131072, u64::from(icmp.kind) * 512 + u64::from(code) + 1),
        },
    }
}

fn interface_ends(test: &IfTest) -> Ends
    ensures value { result ≡ interface_ends test.now }
    ensures few { EndsUpTo 16777216 result }
{
    match test {
        IfTest::Any => nowhere(),
        IfTest::On { name, .. } => exactly(16777216, mark_of(name)),
    }
}

fn tag_ends(test: &TagTest) -> Ends
    ensures value { result ≡ tag_ends test.now }
    ensures few { EndsUpTo 16777216 result }
{
    match test {
        TagTest::Any => nowhere(),
        TagTest::Is { name, .. } => exactly(16777216, mark_of(name)),
    }
}

// A number of a name, which tells most names apart.
fn mark_of(name: &Name) -> u64
    ensures value { result ≡ mark_of name.now }
    ensures few { result < 16777216 }
{
    mark_of_bytes(name.bytes())
}

fn mark_of_bytes(bytes: &[u8]) -> u64
    ensures value { result ≡ mark_of bytes.now }
    ensures few { result < 16777216 }
{
    let mut mark: u64 = 0;
    for byte in bytes {
        mark = (mark * 31 + u64::from(*byte)) % 16777216;
    }
    mark
}
