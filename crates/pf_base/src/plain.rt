//! Names of the bytes that anchors, interfaces and tags may have.
ghost use Rattle.std.specs.Prelude.{◌≡◌};
ghost use Rattle.std.specs.List.{list_all};
ghost use Rattle.pf_base.specs.Name as names;

use crate::name::Name;

/// Is the byte a letter, a digit or one of `_ - . : + @`?
#[tactic(auto, unfolding(crate::specs::Name::is_plain_byte))]
pub fn is_plain_byte(byte: u8) -> bool
    ensures { result ≡ names.is_plain_byte byte }
{
    byte.is_ascii_alphanumeric() || matches!(byte, b'_' | b'-' | b'.' | b':' | b'+' | b'@')
}

/// Are all bytes such ones?
pub fn are_plain_bytes(text: &[u8]) -> bool
    ensures { result ≡ list_all names.is_plain_byte text.now }
{
    text.iter().all(|byte| is_plain_byte(*byte))
}

/// The name of this text: 1 to 63 such bytes. None exactly where it has other bytes, none or more.
#[tactic(auto, unfolding(crate::specs::Name::is_plain_name))]
pub fn plain_name(text: &[u8]) -> Option<Name>
    ensures { result ≡ names.plain_name text.now }
{
    if !are_plain_bytes(text) {
        return None;
    }
    Name::new(text)
}
