//! Whether the queues of a load fit together (pf.conf(5), QUEUEING).
ghost use Rattle.std.specs.Prelude.{◌≡◌, List, MatchOption, Result};
ghost use Rattle.pf_decl.specs.Checks as says;
ghost use Rattle.pf_decl.specs.Checks.{HoldsOfNone, IsFirst, Judged};
ghost use Rattle.pf_decl.specs.Coming.{HasJudgement};
ghost use Rattle.pf_decl.specs.declared.check.QueueFault.{QueueFault as AnyFault};
ghost use Rattle.pf_decl.specs.declared.check.UsedQueue.{UsedQueue as AnyUse};
ghost use Rattle.pf_decl.specs.declared.form.Queue.{Queue as AnyQueue};

use crate::form::Queue;
use pf_base::{FaultKind, Name, Place};

/// A queue that a rule names, and where.
#[derive(Clone, Copy)]
pub struct UsedQueue {
    pub name: Name,
    pub place: Place,
}

/// What is wrong with queues or their uses, and where.
#[derive(Clone, Copy, Debug, PartialEq, Eq)]
pub struct QueueFault {
    /// `QueueTwice`, `QueueParent` or `QueueUnknown`.
    pub kind: FaultKind,
    pub place: Place,
}

// The same interface, or none.
fn same_iface(iface: &Option<Name>, other: &Option<Name>) -> bool
    ensures { result ≡ says.same_iface iface.now other.now }
{
    match (iface, other) {
        (None, None) => true,
        (Some(iface), Some(other)) => iface.bytes() == other.bytes(),
        _ => false,
    }
}

// Does one of these queues have this name?
fn are_named(queues: &[Queue], name: &Name) -> bool
    ensures { result ≡ says.are_named queues.now name.now }
{
    queues
        .iter()
        .any(|queue| queue.name.bytes() == name.bytes())
}

// Does an earlier queue have its name and its interface?
fn is_twice(earlier: &[Queue], queue: &Queue) -> bool
    ensures { result ≡ says.is_twice earlier.now queue.now }
{
    earlier.iter().any(|other| {
        other.name.bytes() == queue.name.bytes() && same_iface(&other.iface, &queue.iface)
    })
}

// Does it lack an interface and a parent, or a parent that is declared before it?
fn is_orphan(earlier: &[Queue], queue: &Queue) -> bool
    ensures { result ≡ says.is_orphan earlier.now queue.now }
{
    match &queue.parent {
        None => queue.iface.is_none(),
        Some(parent) => !are_named(earlier, parent),
    }
}

// The first queue that an earlier one has the name and the interface of.
fn first_twice(queues: &[Queue]) -> Option<&Queue>
    ensures { MatchOption result (HoldsOfNone says.is_twice queues.now) (λ queue. IsFirst says.is_twice queues.now queue.now) }
{
    for i in 0..queues.len() {
        if is_twice(&queues[..i], &queues[i]) {
            return Some(&queues[i]);
        }
    }
    None
}

// The first queue without a parent that it needs.
fn first_orphan(queues: &[Queue]) -> Option<&Queue>
    ensures { MatchOption result (HoldsOfNone says.is_orphan queues.now) (λ queue. IsFirst says.is_orphan queues.now queue.now) }
{
    for i in 0..queues.len() {
        if is_orphan(&queues[..i], &queues[i]) {
            return Some(&queues[i]);
        }
    }
    None
}

// The first use of a queue that isn't declared.
fn first_unknown<'a>(queues: &[Queue], used: &'a [UsedQueue]) -> Option<&'a UsedQueue>
    ensures { MatchOption result (HoldsOfNone (says.is_unknown queues.now) used.now) (λ one. IsFirst (says.is_unknown queues.now) used.now one.now) }
{
    for i in 0..used.len() {
        if !are_named(queues, &used[i].name) {
            return Some(&used[i]);
        }
    }
    None
}

// The fault of a use of a queue that isn't declared.
fn unknown_at(used: &UsedQueue) -> QueueFault
    ensures { result ≡ says.unknown_at used.now }
{
    let name = used.name;
    let place = used.place;
    QueueFault {
        kind: FaultKind::QueueUnknown(name),
        place,
    }
}

/// The first fault of a load's queues and of the queues that its rules use: `QueueTwice`, where an earlier queue has the name
/// and the interface of a queue, before `QueueParent`, where a queue has neither an interface nor a parent or a parent that
/// isn't declared before it, before `QueueUnknown` of a used queue that isn't declared. Takes no memory.
pub fn check_queues(queues: &[Queue], used: &[UsedQueue]) -> Result<(), QueueFault>
    ensures { Judged queues.now used.now result }
{
    if let Some(queue) = first_twice(queues) {
        return Err(QueueFault {
            kind: FaultKind::QueueTwice,
            place: queue.place,
        });
    }
    if let Some(queue) = first_orphan(queues) {
        return Err(QueueFault {
            kind: FaultKind::QueueParent,
            place: queue.place,
        });
    }
    if let Some(one) = first_unknown(queues, used) {
        return Err(unknown_at(one));
    }
    Ok(())
}

/// A law: queues and their uses are judged in one way alone.
pub fn queues_are_judged_once()
    ensures { (queues : List AnyQueue) (used : List AnyUse) (one two : Result (Unit {0}) AnyFault) → Judged queues used one → Judged queues used two → one ≡ two }
{}

/// A law: queues and their uses are judged in some way.
pub fn queues_are_judged()
    ensures { (queues : List AnyQueue) (used : List AnyUse) → HasJudgement queues used }
{}
