//! The parts of a rule in front of its options (pf.conf(5), GRAMMAR).
ghost use Rattle.std.specs.Prelude.{◌≡◌};
ghost use Rattle.pf_form.specs.Tests.{direction, family, hosts, iface, ifaces, ports, protos, side, side_behind, where_hosts};
ghost use Rattle.pf_form.specs.Tests as says;
ghost use Rattle.pf_syntax.specs.Taking.{Takes};
ghost use Rattle.pf_syntax.specs.Words.{name};

use pf_base::{Family, List, Name};
use pf_parts::{Direction, IfTest};
use pf_syntax::host::EachHost;
use pf_syntax::list::{Take, take_list};
use pf_syntax::operator::EachOp;
use pf_syntax::{Cursor, HostItem, OpItem, Stop};
use std::alloc::Global;

/// The hosts and ports behind `from` or `to`.
#[derive(Debug, Drop)]
pub struct Side {
    pub hosts: List<HostItem>,
    pub ports: List<OpItem>,
}

/// Both sides.
#[derive(Debug, Drop)]
pub struct Hosts {
    pub sources: Side,
    pub targets: Side,
}

/// Takes the direction, where one is written.
#[tactic(auto, unfolding(crate::specs::Tests::direction))]
pub fn take_direction(cursor: &mut Cursor) -> Result<Option<Direction>, Stop>
    ensures { Takes direction cursor.old result cursor.new }
{
    if cursor.passes(b"in") {
        return Ok(Some(Direction::In));
    }
    if cursor.passes(b"out") {
        return Ok(Some(Direction::Out));
    }
    Ok(None)
}

// Takes a test of an interface.
#[tactic(auto, unfolding(crate::specs::Tests::iface))]
fn take_iface(cursor: &mut Cursor) -> Result<IfTest, Stop>
    ensures { Takes iface cursor.old result cursor.new }
{
    if cursor.passes(b"any") {
        return Ok(IfTest::Any);
    }
    let negated = cursor.passes_sign(b"!");
    let name = cursor.take_name()?;
    Ok(IfTest::On { name, negated })
}

#[derive(Clone, Copy)]
struct EachIface;

impl Take<IfTest> for EachIface {
    ghost grammar = { λ _. iface };

    fn take(&self, cursor: &mut Cursor) -> Result<IfTest, Stop> {
        take_iface(cursor)
    }
}

/// Items that are names.
#[derive(Clone, Copy)]
pub struct EachName;

impl Take<Name> for EachName {
    ghost grammar = { λ _. name };

    fn take(&self, cursor: &mut Cursor) -> Result<Name, Stop> {
        cursor.take_name()
    }
}

/// Takes the interfaces behind `on`, where they are written.
#[tactic(auto, unfolding(crate::specs::Tests::ifaces))]
pub fn take_ifaces(cursor: &mut Cursor) -> Result<List<IfTest>, Stop>
    ensures { Takes ifaces cursor.old result cursor.new }
{
    if cursor.passes(b"on") {
        return take_list(&EachIface, cursor);
    }
    Ok(List::new(cursor.alloc()))
}

/// Takes the family, where one is written.
#[tactic(auto, unfolding(crate::specs::Tests::family))]
pub fn take_family(cursor: &mut Cursor) -> Result<Option<Family>, Stop>
    ensures { Takes family cursor.old result cursor.new }
{
    if cursor.passes(b"inet") {
        return Ok(Some(Family::Inet));
    }
    if cursor.passes(b"inet6") {
        return Ok(Some(Family::Inet6));
    }
    Ok(None)
}

/// Takes the protocols behind `proto`, where they are written.
#[tactic(auto, unfolding(crate::specs::Tests::protos))]
pub fn take_protos(cursor: &mut Cursor) -> Result<List<Name>, Stop>
    ensures { Takes protos cursor.old result cursor.new }
{
    if cursor.passes(b"proto") {
        return take_list(&EachName, cursor);
    }
    Ok(List::new(cursor.alloc()))
}

// Takes the tests behind `port`, where they are written.
#[tactic(auto, unfolding(crate::specs::Tests::ports))]
fn take_ports(cursor: &mut Cursor) -> Result<List<OpItem>, Stop>
    ensures { Takes ports cursor.old result cursor.new }
{
    if cursor.passes(b"port") {
        return take_list(&EachOp, cursor);
    }
    Ok(List::new(cursor.alloc()))
}

// Takes the hosts before a `port`.
fn take_where(cursor: &mut Cursor) -> Result<List<HostItem>, Stop>
    ensures { Takes where_hosts cursor.old result cursor.new }
{
    if cursor.is_at_word(b"port") {
        return Ok(List::new(cursor.alloc()));
    }
    take_list(&EachHost, cursor)
}

// Takes hosts and ports.
#[tactic(auto, unfolding(crate::specs::Tests::side))]
fn take_side(cursor: &mut Cursor) -> Result<Side, Stop>
    ensures { Takes side cursor.old result cursor.new }
{
    let hosts = take_where(cursor)?;
    let ports = take_ports(cursor)?;
    Ok(Side { hosts, ports })
}

// Takes a side behind its keyword, where it is written.
fn take_side_behind(cursor: &mut Cursor, word: &[u8]) -> Result<Side, Stop>
    ensures { Takes (side_behind word.now) cursor.old result cursor.new }
{
    if cursor.passes(word) {
        return take_side(cursor);
    }
    Ok(no_side(cursor.alloc()))
}

fn no_side(alloc: Global) -> Side
    ensures { result ≡ says.no_side }
{
    Side {
        hosts: List::new(alloc),
        ports: List::new(alloc),
    }
}

/// Takes both sides, where they are written.
#[tactic(auto, unfolding(crate::specs::Tests::hosts))]
pub fn take_hosts(cursor: &mut Cursor) -> Result<Hosts, Stop>
    ensures { Takes hosts cursor.old result cursor.new }
{
    if cursor.passes(b"all") {
        let alloc = cursor.alloc();
        return Ok(Hosts {
            sources: no_side(alloc),
            targets: no_side(alloc),
        });
    }
    let sources = take_side_behind(cursor, b"from")?;
    let targets = take_side_behind(cursor, b"to")?;
    Ok(Hosts { sources, targets })
}
