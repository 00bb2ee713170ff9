//! Reads a facts file.
ghost use Rattle.std.specs.Prelude.{◌<◌, IfOk, IfErr};
ghost use Rattle.pf_host.specs.Meaning.{IsFactsText, IsFaultAt};
ghost use Rattle.pf_host.specs.Reading.{IfLine};

use crate::facts::Facts;
use crate::fault::FactsFault;
use crate::lists::Lists;
use pf_base::text::next_line;
use std::alloc::Global;

/// Reads a facts file: lines of words between single spaces, where empty lines and lines that begin with `#`
/// are passed over. The fault is the first line outside the form, with its first cause; every line counts.
pub fn read_facts(alloc: Global, text: &[u8]) -> Result<Facts, FactsFault>
    ensures read { IfOk result (IsFactsText text.now) }
    ensures fault { IfErr result (λ fault. IfLine fault (IsFaultAt text.now)) }
{
    let mut lists = Lists::new(alloc);
    let mut rest = text;
    let mut number = 0u64;
    while let Some((line, behind)) = next_line(rest) {
        number += 1;
        if let Err(fault) = lists.add_line(alloc, line) {
            return Err(fault.at(number));
        }
        rest = behind;
    }
    Ok(Facts { lists })
}
