//! The prefixes that a host word means (pf.conf(5), PARAMETERS, from).
ghost use Rattle.std.specs.Prelude.{◌≡◌, ◌≤◌, ◌&&◌, length, map, Some, None, IfOk, if◌then◌else◌};
ghost use Rattle.std.specs.Option.{option_copied};
ghost use Rattle.pf_addr.specs.Prefix.{whole};
ghost use Rattle.pf_host.specs.Queries.{has_host, knows};
ghost use Rattle.pf_word.specs.Coming.{Comes};
ghost use Rattle.pf_word.specs.Hosts as says;
ghost use Rattle.pf_word.specs.Hosts.{AddressMeans, HostWordMeans, MaskedMeans, WordMeans, meaning_of_name};
ghost use Rattle.pf_word.specs.Words.{is_name};

use crate::fault::ExpandFault;
use crate::suffix::{Apart, name_of, take_apart};
use pf_addr::{Addr, AddrFault, DynIf, Prefix, parse_addr, parse_prefix_parts};
use pf_base::{FaultKind, List, Name, NoMemory, named_in_fault};
use pf_host::Facts;
use std::alloc::Global;

// What a word asks of an interface or a group that the facts know.
fn known(apart: &Apart, facts: &Facts) -> Option<DynIf>
    ensures { result ≡ (if is_name apart.now.name && knows facts.now apart.now.name then Some apart.now else None) }
{
    match apart.dynamic() {
        None => None,
        Some(what) => {
            if facts.knows(&what.name) {
                Some(what)
            } else {
                None
            }
        }
    }
}

// The name of a host of the facts.
fn known_host(word: &[u8], facts: &Facts) -> Option<Name>
    ensures { result ≡ (if is_name word.now && has_host facts.now word.now then Some word.now else None) }
{
    match name_of(word) {
        None => None,
        Some(name) => {
            if facts.has_host(&name) {
                Some(name)
            } else {
                None
            }
        }
    }
}

// Each address as a prefix.
fn whole_prefixes(alloc: Global, addrs: &[Addr]) -> Result<List<Prefix>, NoMemory>
    ensures { IfOk result (λ prefixes. prefixes ≡ map whole addrs.now) }
{
    let mut prefixes = List::new(alloc);
    for addr in addrs {
        prefixes.push_copy(&Prefix::of(addr))?;
    }
    Ok(prefixes)
}

// The fault of a name that stands for nothing.
fn fault_of_name(word: &[u8]) -> FaultKind
    requires { 1 ≤ length word.now }
    ensures { result ≡ says.fault_of_name word.now }
{
    if take_apart(word).has_some() {
        FaultKind::UnknownInterface(named_in_fault(word))
    } else {
        FaultKind::NotAnAddress(named_in_fault(word))
    }
}

// The prefixes of a word that is no address.
#[tactic(auto, unfolding(crate::specs::Hosts::meaning_of_name))]
fn name_prefixes(alloc: Global, word: &[u8], facts: &Facts) -> Result<List<Prefix>, ExpandFault>
    requires { 1 ≤ length word.now }
    ensures { Comes (λ answer. answer ≡ meaning_of_name facts.now word.now) result }
{
    if let Some(what) = known(&take_apart(word), facts) {
        let prefixes = facts.addresses(alloc, &what)?;
        return Ok(prefixes);
    }
    match known_host(word, facts) {
        Some(name) => {
            let addrs = facts.host(alloc, &name)?;
            let prefixes = whole_prefixes(alloc, addrs.items())?;
            Ok(prefixes)
        }
        None => Err(ExpandFault::Kind(fault_of_name(word))),
    }
}

// The prefixes of a word without a mask.
fn word_prefixes(alloc: Global, word: &[u8], facts: &Facts) -> Result<List<Prefix>, ExpandFault>
    requires { 1 ≤ length word.now }
    ensures { Comes (WordMeans facts.now word.now) result }
{
    match parse_addr(word) {
        Ok(addr) => {
            let prefixes = List::one_copy(alloc, &Prefix::of(&addr))?;
            Ok(prefixes)
        }
        Err(_) => name_prefixes(alloc, word, facts),
    }
}

/// The fault of a word that is no prefix: `MaskTooLong` where only its mask is too great, else `NotAnAddress` with the word.
pub fn mask_fault(word: &[u8], fault: AddrFault) -> FaultKind
    requires { 1 ≤ length word.now }
    ensures { result ≡ says.mask_fault word.now fault }
{
    match fault {
        AddrFault::MaskTooLong(bits) => FaultKind::MaskTooLong(bits),
        AddrFault::NotAnAddress => FaultKind::NotAnAddress(named_in_fault(word)),
    }
}

// The prefix of a word with a mask.
fn masked_prefixes(alloc: Global, word: &[u8], mask: &[u8]) -> Result<List<Prefix>, ExpandFault>
    requires { 1 ≤ length word.now }
    ensures { Comes (MaskedMeans word.now mask.now) result }
{
    match parse_prefix_parts(word, mask) {
        Ok(prefix) => {
            let prefixes = List::one_copy(alloc, &prefix)?;
            Ok(prefixes)
        }
        Err(fault) => Err(ExpandFault::Kind(mask_fault(word, fault))),
    }
}

/// The prefixes that a host word means (pf.conf(5), PARAMETERS, from, and TABLES): an address with or without a mask, else a
/// name that the facts know, with or without `:network` and `:0`, else a host of the facts. A word of no meaning is
/// `MaskTooLong` where only the mask is too great, `UnknownInterface` where `:network` or `:0` follows, else `NotAnAddress`.
pub fn host_prefixes(
    alloc: Global,
    word: &[u8],
    mask: Option<&[u8]>,
    facts: &Facts,
) -> Result<List<Prefix>, ExpandFault>
    requires { 1 ≤ length word.now }
    ensures { Comes (HostWordMeans facts.now word.now (option_copied mask.entry)) result }
{
    match mask {
        None => word_prefixes(alloc, word, facts),
        Some(mask) => masked_prefixes(alloc, word, mask),
    }
}

// The address of a word that has to be one, without a mask.
pub(crate) fn address(word: &[u8]) -> Result<Addr, FaultKind>
    requires { 1 ≤ length word.now }
    ensures { AddressMeans word.now result }
{
    match parse_addr(word) {
        Ok(addr) => Ok(addr),
        Err(_) => Err(FaultKind::NotAnAddress(named_in_fault(word))),
    }
}
