//! The flags of a rule (pf.conf(5), GRAMMAR, `flags`).
ghost use Rattle.std.specs.Prelude.{◌≡◌};
ghost use Rattle.pf_form.specs.Flags as says;
ghost use Rattle.pf_form.specs.Flags.{flags, flag_set};
ghost use Rattle.pf_syntax.specs.Taking.{Takes};

use crate::form::FlagsForm;
use pf_base::{List, Text};
use pf_ops::{TcpFlags, flag_bit, flag_bits};
use pf_syntax::{Cursor, Stop};

/// The flags, and whether a letter is no flag's.
#[derive(Clone, Copy, Debug, PartialEq, Eq)]
pub struct ReadFlags {
    pub flags: FlagsForm,
    pub unknown: bool,
}

// Whether each letter is a flag's.
fn are_flags(letters: &[u8]) -> bool
    ensures { result ≡ says.are_flags letters.now }
{
    letters.iter().all(|letter| flag_bit(*letter).is_some())
}

// The flags of these letters.
fn flags_read(set: &[u8], mask: &[u8]) -> ReadFlags
    ensures { result ≡ says.flags_read set.now mask.now }
{
    ReadFlags {
        flags: FlagsForm::Test(TcpFlags {
            set: flag_bits(set),
            mask: flag_bits(mask),
        }),
        unknown: !(are_flags(set) && are_flags(mask)),
    }
}

// Takes the letters before the `/`, where some are written.
fn take_flag_set(cursor: &mut Cursor) -> Result<Text, Stop>
    ensures { Takes flag_set cursor.old result cursor.new }
{
    if cursor.is_at_sign(b"/") {
        return Ok(List::new(cursor.alloc()));
    }
    cursor.take_word()
}

/// Takes the flags.
#[tactic(auto, unfolding(crate::specs::Flags::flags))]
pub fn take_flags(cursor: &mut Cursor) -> Result<ReadFlags, Stop>
    ensures { Takes flags cursor.old result cursor.new }
{
    if cursor.passes(b"any") {
        return Ok(ReadFlags {
            flags: FlagsForm::Any,
            unknown: false,
        });
    }
    let set = take_flag_set(cursor)?;
    cursor.take_sign(b"/")?;
    let mask = cursor.take_word()?;
    Ok(flags_read(set.items(), mask.items()))
}
