//! Hosts of `from` and `to` (pf.conf(5), PARAMETERS, from).
ghost use Rattle.std.specs.Prelude.{◌≡◌, ◌≤◌, ◌++◌, length, true, OnOk, IfOk};
ghost use Rattle.std.specs.List.{list_all};
ghost use Rattle.std.specs.Option.{option_copied};
ghost use Rattle.pf_word.specs.Conditions.{host_has_words};
ghost use Rattle.pf_word.specs.Hosts.{EndsMean, HostMeans, HostsMean, IsRange, IsWord, RangeMeans, dynamic_test, prefix_tests};
ghost use Rattle.pf_word.specs.Words.{Adds, joined};

use crate::fault::ExpandFault;
use crate::host::{address, host_prefixes};
use crate::suffix::take_apart;
use crate::words::Words;
use pf_addr::range::RangeFault;
use pf_addr::{Addr, Prefix, Range};
use pf_base::{FaultKind, List, NoMemory, Text, named_in_fault};
use pf_host::Facts;
use pf_rule::{AddrSet, AddrTest};
use pf_syntax::{HostForm, HostItem};
use std::alloc::Global;

// The bytes of a mask, where there is one.
fn mask_of(mask: &Option<Text>) -> Option<&[u8]>
    ensures { option_copied result ≡ mask.now }
{
    match mask {
        None => None,
        Some(text) => Some(text.items()),
    }
}

// Adds a test of each prefix.
fn add_prefixes(
    values: &mut List<AddrTest>,
    negated: bool,
    prefixes: &[Prefix],
) -> Result<(), NoMemory>
    ensures { OnOk result (values.new ≡ values.old ++ prefix_tests negated prefixes.now) }
{
    for prefix in prefixes {
        values.push_copy(&AddrTest::Test {
            negated,
            what: AddrSet::Prefix(*prefix),
        })?;
    }
    Ok(())
}

// Adds what a word with or without a mask means.
fn add_word(
    words: &mut Words<AddrTest>,
    alloc: Global,
    negated: bool,
    word: &[u8],
    mask: Option<&[u8]>,
    facts: &Facts,
) -> Result<(), NoMemory>
    requires { 1 ≤ length word.now }
    ensures { OnOk result (Adds (IsWord facts.now negated word.now (option_copied mask.entry)) words.old words.new) }
{
    match host_prefixes(alloc, word, mask, facts) {
        Ok(prefixes) => add_prefixes(&mut words.values, negated, prefixes.items()),
        Err(ExpandFault::Kind(fault)) => words.fail(&fault),
        Err(ExpandFault::NoMemory) => Err(NoMemory),
    }
}

// Adds what a range between two addresses means.
fn add_between(
    words: &mut Words<AddrTest>,
    negated: bool,
    low: &[u8],
    first: &Addr,
    last: &Addr,
) -> Result<(), NoMemory>
    requires { 1 ≤ length low.now }
    ensures { OnOk result (Adds (RangeMeans low.now negated first.now last.now) words.old words.new) }
{
    match Range::between(first, last) {
        Ok(range) => words.find(&AddrTest::Test {
            negated,
            what: AddrSet::Range(range),
        }),
        Err(RangeFault::TwoFamilies) => words.fail(&FaultKind::FamilyMismatch),
        Err(RangeFault::LowAboveHigh) => {
            words.fail(&FaultKind::NotAnAddress(named_in_fault(low)))
        }
    }
}

// Adds what a range means whose ends mean this.
fn add_ends(
    words: &mut Words<AddrTest>,
    negated: bool,
    low: &[u8],
    first: Result<Addr, FaultKind>,
    last: Result<Addr, FaultKind>,
) -> Result<(), NoMemory>
    requires { 1 ≤ length low.now }
    ensures { OnOk result (Adds (EndsMean low.now negated first last) words.old words.new) }
{
    match (first, last) {
        (Ok(first), Ok(last)) => add_between(words, negated, low, &first, &last),
        (Ok(_), Err(fault)) => words.fail(&fault),
        (Err(fault), Ok(_)) => words.fail(&fault),
        (Err(fault), Err(second)) => {
            words.fail(&fault)?;
            words.fail(&second)
        }
    }
}

// Adds what a range means.
fn add_range(
    words: &mut Words<AddrTest>,
    negated: bool,
    low: &[u8],
    high: &[u8],
) -> Result<(), NoMemory>
    requires low { 1 ≤ length low.now }
    requires high { 1 ≤ length high.now }
    ensures { OnOk result (Adds (IsRange negated low.now high.now) words.old words.new) }
{
    add_ends(words, negated, low, address(low), address(high))
}

// Adds what `(name)` means.
fn add_dynamic(words: &mut Words<AddrTest>, negated: bool, word: &[u8]) -> Result<(), NoMemory>
    requires { 1 ≤ length word.now }
    ensures { OnOk result (words.new ≡ joined words.old (dynamic_test negated word.now)) }
{
    match take_apart(word).dynamic() {
        Some(what) => words.find(&AddrTest::Test {
            negated,
            what: AddrSet::Dynamic(what),
        }),
        None => words.fail(&FaultKind::NotAnAddress(named_in_fault(word))),
    }
}

// Adds what a host means.
fn add_host(
    words: &mut Words<AddrTest>,
    alloc: Global,
    item: &HostItem,
    facts: &Facts,
) -> Result<(), NoMemory>
    requires { host_has_words item.now ≡ true }
    ensures { OnOk result (Adds (HostMeans facts.now item.now) words.old words.new) }
{
    match &item.what {
        HostForm::Any => words.find(&AddrTest::Any),
        HostForm::Word { word, mask } => {
            add_word(
                words,
                alloc,
                item.negated,
                word.items(),
                mask_of(mask),
                facts,
            )
        }
        HostForm::Range { low, high } => {
            add_range(words, item.negated, low.items(), high.items())
        }
        HostForm::Dynamic(word) => add_dynamic(words, item.negated, word.items()),
        HostForm::Table(name) => words.find(&AddrTest::Test {
            negated: item.negated,
            what: AddrSet::Table(*name),
        }),
    }
}

/// What the hosts of a list mean, in order; each address of a word is a test for itself, negated or not.
pub fn read_hosts(
    alloc: Global,
    items: &[HostItem],
    facts: &Facts,
) -> Result<Words<AddrTest>, NoMemory>
    requires { list_all host_has_words items.now ≡ true }
    ensures { IfOk result (HostsMean facts.now items.now) }
{
    let mut words = Words::new(alloc);
    for item in items {
        add_host(&mut words, alloc, item, facts)?;
    }
    Ok(words)
}
