//! Targets of translations (pf.conf(5), TRANSLATION).
ghost use Rattle.std.specs.Prelude.{◌≡◌, true, OnOk, IfOk};
ghost use Rattle.pf_word.specs.Conditions.{port_has_bytes, target_has_words};
ghost use Rattle.pf_word.specs.Targets as says;
ghost use Rattle.pf_word.specs.Targets.{TargetMeans, target_of};
ghost use Rattle.pf_word.specs.Words.{joined};

use crate::host::address;
use crate::number::port;
use crate::words::Words;
use pf_addr::Addr;
use pf_base::{FaultKind, NoMemory, Text};
use pf_host::Facts;
use pf_rule::Target;
use pf_syntax::TargetWords;
use std::alloc::Global;

// The port, where one is written.
fn target_port(facts: &Facts, word: &Option<Text>) -> Result<Option<u16>, FaultKind>
    requires { port_has_bytes word.now ≡ true }
    ensures { result ≡ says.target_port facts.now word.now }
{
    match word {
        None => Ok(None),
        Some(word) => match port(facts, word.items(), word.items()) {
            Ok(number) => Ok(Some(number)),
            Err(fault) => Err(fault),
        },
    }
}

// Adds the target of an address and a port that mean this.
fn add_target(
    words: &mut Words<Target>,
    addr: Result<Addr, FaultKind>,
    port: Result<Option<u16>, FaultKind>,
) -> Result<(), NoMemory>
    ensures { OnOk result (words.new ≡ joined words.old (target_of addr port)) }
{
    match (addr, port) {
        (Ok(addr), Ok(port)) => words.find(&Target { addr, port }),
        (Ok(_), Err(fault)) => words.fail(&fault),
        (Err(fault), Ok(_)) => words.fail(&fault),
        (Err(fault), Err(second)) => {
            words.fail(&fault)?;
            words.fail(&second)
        }
    }
}

/// What the address behind `nat-to` or `rdr-to` means, with its port where one is written. The fault of what is no address
/// without a mask is `NotAnAddress`, and those of the port are `UnknownService` and `BadPort`.
pub fn read_target(
    alloc: Global,
    target: &TargetWords,
    facts: &Facts,
) -> Result<Words<Target>, NoMemory>
    requires { target_has_words target.now ≡ true }
    ensures { IfOk result (TargetMeans facts.now target.now) }
{
    let mut words = Words::new(alloc);
    let port = target_port(facts, &target.port);
    add_target(&mut words, address(target.addr.items()), port)?;
    Ok(words)
}
