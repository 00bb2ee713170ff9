//! Texts of names and numbers, appended to a buffer.
ghost use Rattle.std.specs.Prelude.{◌≡◌, ◌++◌, OnOk, decimal};
ghost use Rattle.std.specs.List.{list_all};
ghost use Rattle.pf_parts.specs.Appending.{Extends};
ghost use Rattle.pf_parts.specs.NameText as names;

use itoa::Buffer;
use pf_base::{Name, NoMemory};

/// Appends these bytes. What stood in the buffer before still stands in front, also without memory.
pub fn put(out: &mut Vec<u8>, bytes: &[u8]) -> Result<(), NoMemory>
    ensures ok { OnOk result (out.new.items ≡ out.old.items ++ bytes.now) }
    ensures kept { Extends out.old.items out.new.items }
{
    out.extend_from_slice(bytes)?;
    Ok(())
}

/// Appends a number in decimal.
pub fn put_number(out: &mut Vec<u8>, number: u32) -> Result<(), NoMemory>
    ensures ok { OnOk result (out.new.items ≡ out.old.items ++ decimal number) }
    ensures kept { Extends out.old.items out.new.items }
{
    let mut digits = Buffer::new();
    put(out, digits.format(number).as_bytes())?;
    Ok(())
}

// A byte of the words of a configuration.
fn is_word_byte(byte: u8) -> bool
    ensures { result ≡ names.is_word_byte byte }
{
    matches!(byte, 33..=126)
        && !matches!(
            byte,
            b'"' | b'\''
                | b'#'
                | b'('
                | b')'
                | b'{'
                | b'}'
                | b'<'
                | b'>'
                | b'!'
                | b'='
                | b'/'
                | b','
        )
}

fn are_word_bytes(bytes: &[u8]) -> bool
    ensures { result ≡ list_all names.is_word_byte bytes.now }
{
    bytes.iter().all(|byte| is_word_byte(*byte))
}

// Does it begin as the use of a macro?
fn begins_use(name: &[u8]) -> bool
    ensures { result ≡ names.begins_use name.now }
{
    matches!(name, [b'$', ..])
}

// May the name stand without quotes?
#[tactic(auto, unfolding(crate::specs::NameText::is_bare))]
fn is_bare(name: &[u8]) -> bool
    ensures { result ≡ names.is_bare name.now }
{
    are_word_bytes(name) && !begins_use(name) && name != b"any".as_slice()
}

/// Appends the bytes in double quotes.
pub fn put_quoted(out: &mut Vec<u8>, bytes: &[u8]) -> Result<(), NoMemory>
    ensures ok { OnOk result (out.new.items ≡ out.old.items ++ names.quoted bytes.now) }
    ensures kept { Extends out.old.items out.new.items }
{
    put(out, b"\"")?;
    put(out, bytes)?;
    put(out, b"\"")?;
    Ok(())
}

/// Appends a name, in double quotes where it isn't read back as itself without them.
pub fn put_name(out: &mut Vec<u8>, name: &Name) -> Result<(), NoMemory>
    ensures ok { OnOk result (out.new.items ≡ out.old.items ++ names.name_text name.now) }
    ensures kept { Extends out.old.items out.new.items }
{
    if is_bare(name.bytes()) {
        put(out, name.bytes())?;
    } else {
        put_quoted(out, name.bytes())?;
    }
    Ok(())
}

/// Appends these bytes and a name.
pub fn put_named(out: &mut Vec<u8>, before: &[u8], name: &Name) -> Result<(), NoMemory>
    ensures ok { OnOk result (out.new.items ≡ out.old.items ++ (before.now ++ names.name_text name.now)) }
    ensures kept { Extends out.old.items out.new.items }
{
    put(out, before)?;
    put_name(out, name)?;
    Ok(())
}

/// Appends these bytes and a number in decimal.
pub fn put_numbered(out: &mut Vec<u8>, before: &[u8], number: u32) -> Result<(), NoMemory>
    ensures ok { OnOk result (out.new.items ≡ out.old.items ++ (before.now ++ decimal number)) }
    ensures kept { Extends out.old.items out.new.items }
{
    put(out, before)?;
    put_number(out, number)?;
    Ok(())
}
