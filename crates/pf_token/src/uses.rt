//! The use of a macro, pf.conf(5), MACROS: `$` and a name.
ghost use Rattle.std.specs.Prelude.{◌≡◌, ◌<◌, ◌^◌, ◌+◌, IfOk, IsSomeAnd};
ghost use Rattle.pf_base.specs.declared.fault.Place.{Place};
ghost use Rattle.pf_token.specs.Bytes.{class_of};
ghost use Rattle.pf_token.specs.Cells.{first_cell, has_dollar};
ghost use Rattle.pf_token.specs.Macros.{value_of};
ghost use Rattle.pf_token.specs.declared.byte.ByteClass.TheVariants.{Dollar};
ghost use Rattle.pf_token.specs.Reading.{step, macro_step, use_step, weight, IsPlainUse, IsUseOf};

use crate::cells::FileCells;
use crate::macros::Macros;
use crate::token::Cause;
use pf_base::{NoMemory, Place, named_in_fault};
use std::alloc::Global;

/// What stands behind a `$`.
#[derive(Debug, Drop)]
pub enum MacroUse {
    /// No macro that can be used. The rest of the word is passed.
    Refused(Cause),
    /// A macro's value, which takes the place of `$` and the name.
    Value(Vec<u8>),
}

/// Whether a `$` stands in a value.
fn has_dollar(value: &[u8]) -> bool
    ensures { result ≡ has_dollar value.now }
{
    value.iter().any(|byte| *byte == b'$')
}

/// What the name behind a `$` stands for.
fn look_up(alloc: Global, name: &[u8], macros: &Macros) -> Result<MacroUse, NoMemory>
    ensures found { IfOk result (λ found. IsUseOf found name.now (value_of macros.now name.now)) }
    ensures plain { IfOk result IsPlainUse }
{
    if name.is_empty() {
        return Ok(MacroUse::Refused(Cause::MacroName));
    }
    match macros.find(name) {
        None => Ok(MacroUse::Refused(Cause::MacroUndefined(named_in_fault(name)))),
        Some(value) => {
            if has_dollar(value) {
                Ok(MacroUse::Refused(Cause::Syntax))
            } else {
                let value = Vec::from_slice(alloc, value)?;
                Ok(MacroUse::Value(value))
            }
        }
    }
}

/// Reads a macro's name behind `$`, and finds its value.
fn read_use(alloc: Global, file: &mut FileCells, macros: &Macros) -> Result<MacroUse, NoMemory>
    ensures step { IfOk result (λ found. (place : Place) → macro_step (value_of macros.now) place file.old ≡ use_step place found file.new) }
    ensures plain { IfOk result IsPlainUse }
    ensures lighter { IfOk result (λ found. (place : Place) → weight (use_step place found file.new).1 < 2 ^ 64 + weight file.old) }
{
    let name = file.take_name(alloc)?;
    let found = look_up(alloc, &name, macros)?;
    match &found {
        MacroUse::Refused(_) => file.skip_word(),
        MacroUse::Value(_) => {}
    }
    Ok(found)
}

/// Reads what begins with a `$` in a file: the place of the `$`, and what stands behind it.
pub fn read_macro(
    alloc: Global,
    file: &mut FileCells,
    macros: &Macros,
) -> Result<(Place, MacroUse), NoMemory>
    requires { IsSomeAnd (first_cell file.old) (λ cell. class_of cell.byte ≡ Dollar) }
    ensures step { IfOk result (λ found. step (value_of macros.now) file.old ≡ use_step found.0 found.1 file.new) }
    ensures plain { IfOk result (λ found. IsPlainUse found.1) }
    ensures lighter { IfOk result (λ found. weight (use_step found.0 found.1 file.new).1 < weight file.old) }
{
    match file.peek() {
        None => unreachable!(),
        Some(dollar) => {
            file.advance();
            let found = read_use(alloc, file, macros)?;
            Ok((dollar.place, found))
        }
    }
}
