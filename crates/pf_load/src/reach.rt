//! Where the name of an anchor leads (pf.conf(5), ANCHORS).
ghost use Rattle.std.specs.Prelude.{◌≡◌, ◌<◌, ℕ, IfOk, true};
ghost use Rattle.pf_plan.specs.Numbered.{PlacesWithin};
ghost use Rattle.pf_load.specs.Anchors as says;
ghost use Rattle.pf_load.specs.Answers.{AwaitsMore};

use pf_base::{FaultKind, NoMemory, Path, Place, Text};
use pf_fault::Fault;
use pf_parts::{Base, Call};
use pf_plan::{Draft, nameless_path};
use std::alloc::Global;

/// Where what follows a statement goes.
#[derive(Clone, Copy, Debug, PartialEq, Eq)]
pub enum Reach {
    /// The statement's name is none that it may have.
    Nowhere,
    /// To the statement's own ruleset.
    Here,
    /// To the ruleset that the statement fills.
    Into(Path),
}

/// What stands as the call of rules that call nothing: no anchor rule has it, and no other rule's call is looked at.
pub(crate) fn no_call() -> Call
    ensures { result ≡ says.no_call }
{
    Call {
        base: Base::Below,
        path: Path::main(),
        children: false,
    }
}

/// What the text of an anchor's name calls.
pub(crate) fn named_call(text: &Text) -> Option<Call>
    ensures { result ≡ says.named_call text.now }
{
    match Call::parse(text.items()) {
        Ok(call) => Some(call),
        Err(_) => None,
    }
}

// What the nth anchor without a name calls.
fn nameless_call(alloc: Global, number: u64) -> Result<Call, NoMemory>
    ensures { IfOk result (λ call. call ≡ says.nameless_call number) }
{
    let path = nameless_path(alloc, number)?;
    Ok(Call {
        base: Base::Below,
        path,
        children: false,
    })
}

/// What an anchor statement calls.
pub(crate) fn call_of(
    alloc: Global,
    draft: &Draft,
    name: &Option<Text>,
) -> Result<Option<Call>, NoMemory>
    ensures { IfOk result (λ call. call ≡ says.call_of draft.now name.now) }
{
    match name {
        Some(text) => Ok(named_call(text)),
        None => match draft.here.nameless.checked_add(1) {
            Some(number) => {
                let call = nameless_call(alloc, number)?;
                Ok(Some(call))
            }
            None => Err(NoMemory),
        },
    }
}

/// The call of a statement's rules.
pub(crate) fn call_of_rules(call: &Option<Call>) -> Call
    ensures { result ≡ says.call_of_rules call.now }
{
    match call {
        Some(call) => *call,
        None => no_call(),
    }
}

// Whether it is a path of no more than 8 names, of which the `*` of a wildcard is one.
fn has_room(children: bool, target: Option<Path>) -> bool
    ensures { result ≡ says.has_room children target }
{
    match target {
        Some(path) => !children || path.names().len() < Path::MOST,
        None => false,
    }
}

// Where an anchor rule without a body leads.
fn called(draft: &Draft, call: &Call) -> Reach
    ensures { result ≡ says.called draft.now call.now }
{
    if has_room(call.children, call.target(&draft.here.own.path)) {
        Reach::Here
    } else {
        Reach::Nowhere
    }
}

// Whether a body or a file may have this call.
fn names_one(call: &Call) -> bool
    ensures { result ≡ says.names_one call.now }
{
    let is_below = match call.base {
        Base::Below => true,
        Base::Up(_) | Base::Root => false,
    };
    is_below && !call.children
}

// Into that ruleset, unless the load fills it already.
fn unless_filled(draft: &Draft, target: Option<Path>) -> Reach
    ensures { result ≡ says.unless_filled draft.now target }
{
    match target {
        Some(path) => {
            if draft.is_filled(&path) {
                Reach::Nowhere
            } else {
                Reach::Into(path)
            }
        }
        None => Reach::Nowhere,
    }
}

// Where a body or a file leads.
fn filling(draft: &Draft, call: &Call) -> Reach
    ensures { result ≡ says.filling draft.now call.now }
{
    if names_one(call) {
        unless_filled(draft, call.target(&draft.here.own.path))
    } else {
        Reach::Nowhere
    }
}

/// Where an anchor statement leads, with a body or without one.
pub(crate) fn reach_of(draft: &Draft, body: bool, call: &Option<Call>) -> Reach
    ensures { result ≡ says.reach_of draft.now body call.now }
{
    match call {
        Some(call) => {
            if body {
                filling(draft, call)
            } else {
                called(draft, call)
            }
        }
        None => Reach::Nowhere,
    }
}

/// The fault of a name that is none.
pub(crate) fn reach_fault(reach: &Reach, place: Place) -> Option<Fault>
    ensures { result ≡ says.reach_fault reach.now place }
{
    match reach {
        Reach::Nowhere => Some(Fault {
            kind: FaultKind::AnchorName,
            place,
        }),
        Reach::Here | Reach::Into(_) => None,
    }
}

/// The draft where what follows goes to the ruleset that a statement leads into.
pub(crate) fn entered(
    alloc: Global,
    draft: Draft,
    reach: &Reach,
    place: Place,
    nameless: bool,
) -> Result<Draft, NoMemory>
    ensures laid { IfOk result (λ new. new ≡ says.entered draft reach.now place nameless) }
    ensures within { (count : ℕ) → place.file < count → PlacesWithin count draft → IfOk result (PlacesWithin count) }
    ensures awaits { IfOk result (AwaitsMore draft) }
{
    match reach {
        Reach::Into(path) => draft.opened(alloc, *path, place, nameless),
        Reach::Nowhere | Reach::Here => Ok(draft),
    }
}

/// The draft where a file fills that ruleset later.
pub(crate) fn awaiting(draft: Draft, reach: &Reach, file: Text) -> Result<Draft, NoMemory>
    ensures laid { IfOk result (λ new. new ≡ says.awaiting draft reach.now file) }
    ensures within { (count : ℕ) → PlacesWithin count draft → IfOk result (PlacesWithin count) }
    ensures awaits { IfOk result (AwaitsMore draft) }
{
    match reach {
        Reach::Into(path) => draft.with_load(*path, file),
        Reach::Nowhere | Reach::Here => Ok(draft),
    }
}

/// The fault of a `load anchor` in a body.
pub(crate) fn load_fault(draft: &Draft, place: Place) -> Option<Fault>
    ensures { result ≡ says.load_fault draft.now place }
{
    if draft.is_in_body() {
        Some(Fault {
            kind: FaultKind::NotInAnchor,
            place,
        })
    } else {
        None
    }
}
