//! Tests of ports, users and groups (pf.conf(5), PARAMETERS, port, user, group).
ghost use Rattle.std.specs.Prelude.{◌≡◌, ◌≤◌, ◌++◌, ◌∷◌, length, true, OnOk, IfOk};
ghost use Rattle.std.specs.List.{list_all};
ghost use Rattle.pf_base.specs.declared.fault.FaultKind.TheVariants as kinds;
ghost use Rattle.pf_host.specs.Queries.{service_of};
ghost use Rattle.pf_word.specs.Conditions.{op_has_words};
ghost use Rattle.pf_word.specs.Numbers as says;
ghost use Rattle.pf_word.specs.Numbers.{between, id_named, id_of, id_test, id_tests, most_id, most_port, number_named, port_of, port_test, port_tests, second_end};
ghost use Rattle.pf_word.specs.Words.{joined, named};

use crate::suffix::name_of;
use crate::words::Words;
use pf_base::text::{decimal, is_digits};
use pf_base::{FaultKind, List, NoMemory, Text, named_in_fault};
use pf_host::Facts;
use pf_ops::{Op16, Op32, OpKind};
use pf_syntax::OpItem;
use std::alloc::Global;

/// The greatest port.
const MOST_PORT: u32 = 65_535;

/// The greatest number of a user or a group.
const MOST_ID: u32 = 4_294_967_295;

/// Whose numbers are tested.
#[derive(Clone, Copy, Debug, PartialEq, Eq)]
pub enum IdKind {
    /// `user`
    User,
    /// `group`
    Group,
}

// Whether the operator has two numbers.
fn has_two(kind: OpKind) -> bool
    ensures { result ≡ says.has_two kind }
{
    match kind {
        OpKind::Within | OpKind::Between | OpKind::Outside => true,
        OpKind::Equal | OpKind::Other | OpKind::Below => false,
        OpKind::UpTo | OpKind::Above | OpKind::From => false,
    }
}

// Whether it is `a:b`.
fn is_within(kind: OpKind) -> bool
    ensures { result ≡ says.is_within kind }
{
    match kind {
        OpKind::Within => true,
        OpKind::Equal | OpKind::Other | OpKind::Below | OpKind::UpTo => false,
        OpKind::Above | OpKind::From | OpKind::Between | OpKind::Outside => false,
    }
}

// The whole of `a:b`.
fn whole_of(alloc: Global, low: &[u8], high: &[u8]) -> Result<Text, NoMemory>
    ensures { IfOk result (λ whole. whole ≡ low.now ++ 58 ∷ high.now) }
{
    let mut whole = List::new(alloc);
    whole.append_copy(low)?;
    whole.push(b':')?;
    whole.append_copy(high)?;
    Ok(whole)
}

// The port of a service.
fn service(facts: &Facts, word: &[u8]) -> Option<u16>
    ensures { result ≡ number_named (service_of facts.now) word.now }
{
    match name_of(word) {
        None => None,
        Some(name) => facts.service(&name),
    }
}

// The number of a user or of a group of users.
fn id_named(facts: &Facts, kind: IdKind, word: &[u8]) -> Option<u32>
    ensures { result ≡ number_named (says.id_named facts.now kind) word.now }
{
    match name_of(word) {
        None => None,
        Some(name) => match kind {
            IdKind::User => facts.user(&name),
            IdKind::Group => facts.group(&name),
        },
    }
}

// The port that a word means; `whole` is the word of its fault.
#[tactic(auto, unfolding(crate::specs::Numbers::port_of))]
pub(crate) fn port(facts: &Facts, whole: &[u8], word: &[u8]) -> Result<u16, FaultKind>
    requires { 1 ≤ length whole.now }
    ensures { result ≡ port_of facts.now whole.now word.now }
{
    if is_digits(word) {
        match decimal(word, MOST_PORT) {
            Some(number) => Ok(number as u16),
            None => Err(FaultKind::BadPort),
        }
    } else {
        match service(facts, word) {
            Some(number) => Ok(number),
            None => Err(FaultKind::UnknownService(named_in_fault(whole))),
        }
    }
}

// The user or the group that a word means; `whole` is the word of its fault.
#[tactic(auto, unfolding(crate::specs::Numbers::id_of))]
fn id(facts: &Facts, kind: IdKind, whole: &[u8], word: &[u8]) -> Result<u32, FaultKind>
    requires { 1 ≤ length whole.now }
    ensures { result ≡ id_of facts.now kind whole.now word.now }
{
    if let Some(number) = decimal(word, MOST_ID) {
        return Ok(number);
    }
    match id_named(facts, kind, word) {
        Some(number) => Ok(number),
        None => Err(FaultKind::UnknownUser(named_in_fault(whole))),
    }
}

// Adds the set of an operator on ports whose ends mean this.
fn add_ports(
    words: &mut Words<Op16>,
    kind: OpKind,
    low: Result<u16, FaultKind>,
    high: Result<u16, FaultKind>,
) -> Result<(), NoMemory>
    ensures { OnOk result (words.new ≡ joined words.old (between most_port kinds.BadPort kind low high)) }
{
    match (low, high) {
        (Ok(low), Ok(high)) => {
            if is_within(kind) && high < low {
                words.fail(&FaultKind::BadPort)
            } else {
                words.find(&Op16::make(kind, low, high))
            }
        }
        (Ok(_), Err(fault)) => words.fail(&fault),
        (Err(fault), Ok(_)) => words.fail(&fault),
        (Err(fault), Err(second)) => {
            words.fail(&fault)?;
            words.fail(&second)
        }
    }
}

// Adds the set of an operator on users or groups whose ends mean this.
fn add_ids(
    words: &mut Words<Op32>,
    falling: &FaultKind,
    kind: OpKind,
    low: Result<u32, FaultKind>,
    high: Result<u32, FaultKind>,
) -> Result<(), NoMemory>
    ensures { OnOk result (words.new ≡ joined words.old (between most_id falling.now kind low high)) }
{
    match (low, high) {
        (Ok(low), Ok(high)) => {
            if is_within(kind) && high < low {
                words.fail(falling)
            } else {
                words.find(&Op32::make(kind, low, high))
            }
        }
        (Ok(_), Err(fault)) => words.fail(&fault),
        (Err(fault), Ok(_)) => words.fail(&fault),
        (Err(fault), Err(second)) => {
            words.fail(&fault)?;
            words.fail(&second)
        }
    }
}

// The second port, which an operator on one number doesn't have.
fn second_port(facts: &Facts, kind: OpKind, whole: &[u8], word: &[u8]) -> Result<u16, FaultKind>
    requires { says.has_two kind ≡ true → 1 ≤ length whole.now }
    ensures { result ≡ second_end kind (port_of facts.now whole.now word.now) }
{
    if has_two(kind) {
        port(facts, whole, word)
    } else {
        Ok(0)
    }
}

// The second user or group, which an operator on one number doesn't have.
fn second_id(
    facts: &Facts,
    ids: IdKind,
    kind: OpKind,
    whole: &[u8],
    word: &[u8],
) -> Result<u32, FaultKind>
    requires { says.has_two kind ≡ true → 1 ≤ length whole.now }
    ensures { result ≡ second_end kind (id_of facts.now ids whole.now word.now) }
{
    if has_two(kind) {
        id(facts, ids, whole, word)
    } else {
        Ok(0)
    }
}

// Adds what a test of a port means, with the words that faults of its ends bear.
fn add_port_shown(
    words: &mut Words<Op16>,
    item: &OpItem,
    facts: &Facts,
    low: &[u8],
    high: &[u8],
) -> Result<(), NoMemory>
    requires low { 1 ≤ length low.now }
    requires high { says.has_two item.now.kind ≡ true → 1 ≤ length high.now }
    ensures { OnOk result (words.new ≡ joined words.old (between most_port kinds.BadPort item.now.kind
        (port_of facts.now low.now item.now.low) (second_end item.now.kind (port_of facts.now high.now item.now.high)))) }
{
    let first = port(facts, low, item.low.items());
    let last = second_port(facts, item.kind, high, item.high.items());
    add_ports(words, item.kind, first, last)
}

// Adds what a test of a port means.
fn add_port(
    words: &mut Words<Op16>,
    alloc: Global,
    item: &OpItem,
    facts: &Facts,
) -> Result<(), NoMemory>
    requires { op_has_words item.now ≡ true }
    ensures { OnOk result (words.new ≡ joined words.old (port_test facts.now item.now)) }
{
    if is_within(item.kind) {
        let whole = whole_of(alloc, item.low.items(), item.high.items())?;
        add_port_shown(words, item, facts, whole.items(), whole.items())
    } else {
        add_port_shown(words, item, facts, item.low.items(), item.high.items())
    }
}

// Adds what a test of a user or a group means, with the words that faults of its ends bear.
fn add_id_shown(
    words: &mut Words<Op32>,
    item: &OpItem,
    ids: IdKind,
    facts: &Facts,
    low: &[u8],
    high: &[u8],
) -> Result<(), NoMemory>
    requires low { 1 ≤ length low.now }
    requires high { says.has_two item.now.kind ≡ true → 1 ≤ length high.now }
    ensures { OnOk result (words.new ≡ joined words.old (between most_id (kinds.UnknownUser (named low.now)) item.now.kind
        (id_of facts.now ids low.now item.now.low) (second_end item.now.kind (id_of facts.now ids high.now item.now.high)))) }
{
    let falling = FaultKind::UnknownUser(named_in_fault(low));
    let first = id(facts, ids, low, item.low.items());
    let last = second_id(facts, ids, item.kind, high, item.high.items());
    add_ids(words, &falling, item.kind, first, last)
}

// Adds what a test of a user or a group means.
fn add_id(
    words: &mut Words<Op32>,
    alloc: Global,
    item: &OpItem,
    ids: IdKind,
    facts: &Facts,
) -> Result<(), NoMemory>
    requires { op_has_words item.now ≡ true }
    ensures { OnOk result (words.new ≡ joined words.old (id_test facts.now ids item.now)) }
{
    if is_within(item.kind) {
        let whole = whole_of(alloc, item.low.items(), item.high.items())?;
        add_id_shown(words, item, ids, facts, whole.items(), whole.items())
    } else {
        add_id_shown(words, item, ids, facts, item.low.items(), item.high.items())
    }
}

/// What the tests of ports of a list mean, in order. The fault of a word that is no port is `UnknownService`; that of a number
/// above 65535 and of `a:b` with a above b is `BadPort`.
pub fn read_ports(alloc: Global, items: &[OpItem], facts: &Facts) -> Result<Words<Op16>, NoMemory>
    requires { list_all op_has_words items.now ≡ true }
    ensures { IfOk result (λ words. words ≡ port_tests facts.now items.now) }
{
    let mut words = Words::new(alloc);
    for item in items {
        add_port(&mut words, alloc, item, facts)?;
    }
    Ok(words)
}

/// What the tests of users or groups of a list mean, in order. The fault of a word that is neither a number to 4294967295 nor
/// known to the facts, and of `a:b` with a above b, is `UnknownUser`.
pub fn read_ids(
    alloc: Global,
    items: &[OpItem],
    ids: IdKind,
    facts: &Facts,
) -> Result<Words<Op32>, NoMemory>
    requires { list_all op_has_words items.now ≡ true }
    ensures { IfOk result (λ words. words ≡ id_tests facts.now ids items.now) }
{
    let mut words = Words::new(alloc);
    for item in items {
        add_id(&mut words, alloc, item, ids, facts)?;
    }
    Ok(words)
}
