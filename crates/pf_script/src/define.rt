//! The macro that a word NAME=VALUE gives (pfctl(8), -D).
ghost use Rattle.std.specs.Prelude.{◌≡◌, true, false, None, Some, IfOk, IfSome, IfNone, length, nat_le, position, ◌==◌};
ghost use Rattle.std.specs.List.{list_all};
ghost use Rattle.pf_token.specs.Bytes.{is_name_byte};
ghost use Rattle.pf_script.specs.Word.{define_of, is_macro_name, most_value, name_in, value_in};

use pf_base::{List, Name, NoMemory};
use pf_token::Define;
use pf_token::byte::is_name_byte;
use std::alloc::Global;

/// A macro's value may have this many bytes.
const MOST_VALUE: usize = 8_192;

// The first place of `=`.
fn place_of_equals(word: &[u8]) -> Option<usize>
    ensures { result ≡ position (λ byte. byte == 61) word.now }
{
    word.iter().position(|byte| *byte == b'=')
}

// The name before the first `=`, and the value behind it; None where there is no `=`.
fn split_definition(word: &[u8]) -> Option<(&[u8], &[u8])>
    ensures name { IfSome result (λ parts. name_in word.now ≡ parts.0.now) }
    ensures value { IfSome result (λ parts. value_in word.now ≡ Some parts.1.now) }
    ensures none { IfNone result (value_in word.now ≡ None) }
{
    let end = place_of_equals(word)?;
    Some((&word[..end], &word[end + 1..]))
}

// May a macro's name have all these bytes?
fn are_name_bytes(text: &[u8]) -> bool
    ensures { result ≡ list_all is_name_byte text.now }
{
    text.iter().all(|byte| is_name_byte(*byte))
}

// The text as the name of a macro, where it is one.
fn macro_name(text: &[u8]) -> Option<Name>
    ensures some { IfSome result (λ name. (name ≡ text.now) × (is_macro_name text.now ≡ true)) }
    ensures none { IfNone result (is_macro_name text.now ≡ false) }
{
    if !are_name_bytes(text) {
        return None;
    }
    Name::new(text)
}

// Is it short enough for a macro's value?
fn is_value(text: &[u8]) -> bool
    ensures { result ≡ nat_le (length text.now) most_value }
{
    text.len() <= MOST_VALUE
}

// The macro of a word.
pub(crate) fn read_definition(alloc: Global, word: &[u8]) -> Result<Option<Define>, NoMemory>
    ensures { IfOk result (λ define. define ≡ define_of word.now) }
{
    let Some((name, value)) = split_definition(word) else {
        return Ok(None);
    };
    let Some(name) = macro_name(name) else {
        return Ok(None);
    };
    if !is_value(value) {
        return Ok(None);
    }
    let value = List::copy_of(alloc, value)?;
    Ok(Some(Define { name, value }))
}
