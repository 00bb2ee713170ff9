//! Texts of long numbers and of paths.
ghost use Rattle.std.specs.Prelude.{◌≡◌, ◌++◌, OnOk, decimal};
ghost use Rattle.pf_base.specs.Path.{path_text};
ghost use Rattle.pf_parts.specs.Appending.{Extends};
ghost use Rattle.pf_reply.specs.Texts.{numbered};

use itoa::Buffer;
use pf_base::{NoMemory, Path};
use pf_parts::{Base, Call, put, put_call};

/// Appends a number in decimal. What stood in the buffer before still stands in front, also without memory.
pub fn put_count(out: &mut Vec<u8>, number: u64) -> Result<(), NoMemory>
    ensures ok { OnOk result (out.new.items ≡ out.old.items ++ decimal number) }
    ensures kept { Extends out.old.items out.new.items }
{
    let mut digits = Buffer::new();
    put(out, digits.format(number).as_bytes())?;
    Ok(())
}

/// Appends a word and a number in decimal.
pub(crate) fn put_numbered(out: &mut Vec<u8>, word: &[u8], number: u64) -> Result<(), NoMemory>
    ensures ok { OnOk result (out.new.items ≡ out.old.items ++ numbered word.now number) }
    ensures kept { Extends out.old.items out.new.items }
{
    put(out, word)?;
    put_count(out, number)?;
    Ok(())
}

/// Appends two words.
pub(crate) fn put_both(out: &mut Vec<u8>, word: &[u8], other: &[u8]) -> Result<(), NoMemory>
    ensures ok { OnOk result (out.new.items ≡ out.old.items ++ (word.now ++ other.now)) }
    ensures kept { Extends out.old.items out.new.items }
{
    put(out, word)?;
    put(out, other)?;
    Ok(())
}

/// Appends the text of a path: `/` for the main ruleset, else its names with `/` between them.
pub fn put_path(out: &mut Vec<u8>, path: &Path) -> Result<(), NoMemory>
    ensures ok { OnOk result (out.new.items ≡ out.old.items ++ path_text path.now) }
    ensures kept { Extends out.old.items out.new.items }
{
    let below = Call {
        base: Base::Below,
        path: *path,
        children: false,
    };
    if path.names().is_empty() {
        put(out, b"/")
    } else {
        put_call(out, &below)
    }
}
