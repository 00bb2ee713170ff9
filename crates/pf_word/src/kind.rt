//! Protocols and ICMP types (pf.conf(5), PARAMETERS, proto, icmp-type).
ghost use Rattle.std.specs.Prelude.{◌≡◌, OnOk, IfOk};
ghost use Rattle.pf_word.specs.Kinds as says;
ghost use Rattle.pf_word.specs.Kinds.{icmp, icmps, proto, protos};
ghost use Rattle.pf_word.specs.Words.{joined};

use crate::words::Words;
use pf_base::text::decimal;
use pf_base::{FaultKind, Name, NoMemory, Text};
use pf_ops::{IcmpType, icmp_of, proto_of};
use pf_syntax::IcmpItem;
use std::alloc::Global;

const MOST: u32 = 255;

// Adds what the name of a protocol means.
fn add_proto(words: &mut Words<u8>, name: &Name) -> Result<(), NoMemory>
    ensures { OnOk result (words.new ≡ joined words.old (proto name.now)) }
{
    match proto_of(name.bytes()) {
        Some(number) => words.find(&number),
        None => words.fail(&FaultKind::UnknownProto(*name)),
    }
}

/// What the protocols of a list mean, in order. The fault of a name that is no number to 255 and no protocol's is
/// `UnknownProto`.
pub fn read_protos(alloc: Global, names: &[Name]) -> Result<Words<u8>, NoMemory>
    ensures { IfOk result (λ words. words ≡ protos names.now) }
{
    let mut words = Words::new(alloc);
    for name in names {
        add_proto(&mut words, name)?;
    }
    Ok(words)
}

// The code, where one is written; None where it is no number to 255.
fn code_of(code: &Option<Text>) -> Option<Option<u8>>
    ensures { result ≡ says.code_of code.now }
{
    match code {
        None => Some(None),
        Some(word) => match decimal(word.items(), MOST) {
            Some(number) => Some(Some(number as u8)),
            None => None,
        },
    }
}

// Adds what an ICMP type means.
fn add_icmp(words: &mut Words<IcmpType>, item: &IcmpItem) -> Result<(), NoMemory>
    ensures { OnOk result (words.new ≡ joined words.old (icmp item.now)) }
{
    match (icmp_of(item.family, item.word.items()), code_of(&item.code)) {
        (Some(kind), Some(code)) => words.find(&IcmpType {
            family: item.family,
            kind,
            code,
        }),
        (Some(_), None) => words.fail(&FaultKind::BadIcmpType),
        (None, _) => words.fail(&FaultKind::BadIcmpType),
    }
}

/// What the ICMP types of a list mean, in order. The fault of a type that is no number to 255 and no name of its family, and
/// of a code that is no number to 255, is `BadIcmpType`.
pub fn read_icmp(alloc: Global, items: &[IcmpItem]) -> Result<Words<IcmpType>, NoMemory>
    ensures { IfOk result (λ words. words ≡ icmps items.now) }
{
    let mut words = Words::new(alloc);
    for item in items {
        add_icmp(&mut words, item)?;
    }
    Ok(words)
}
