//! What single words of a line say.
ghost use Rattle.std.specs.Prelude.{◌≡◌, true, false};
ghost use Rattle.std.specs.List.{list_all};
ghost use Rattle.std.specs.Option.{option_copied};
ghost use Rattle.pf_script.specs.Word as says;

use pf_base::text::is_blank_byte;
use pf_base::{Level, Name, Path};
use pf_token::byte::is_name_byte;

// Is the byte one of 32 to 126 or a tab?
fn is_plain_byte(byte: u8) -> bool
    ensures { result ≡ says.is_plain byte }
{
    (32..=126).contains(&byte) || byte == b'\t'
}

// Has the text plain bytes alone?
pub(crate) fn is_plain(text: &[u8]) -> bool
    ensures { result ≡ list_all says.is_plain text.now }
{
    text.iter().all(|byte| is_plain_byte(*byte))
}

// The text behind its blanks.
pub(crate) fn skip_blanks(text: &[u8]) -> &[u8]
    ensures { result.now ≡ says.behind_blanks text.now }
{
    let mut rest = text;
    while let Some((byte, behind)) = rest.split_first() {
        if !is_blank_byte(*byte) {
            break;
        }
        rest = behind;
    }
    rest
}

// The text behind its first word.
pub(crate) fn skip_word(text: &[u8]) -> &[u8]
    ensures { result.now ≡ says.behind_word text.now }
{
    let mut rest = text;
    while let Some((byte, behind)) = rest.split_first() {
        if is_blank_byte(*byte) {
            break;
        }
        rest = behind;
    }
    rest
}

// Does the word begin with `-`?
fn begins_with_dash(word: &[u8]) -> bool
    ensures { result ≡ says.begins_with_dash word.now }
{
    matches!(word, [b'-', ..])
}

// The name of a file.
pub(crate) fn file_of(word: &[u8]) -> Option<&[u8]>
    ensures { option_copied result ≡ says.file_of word.now }
{
    if begins_with_dash(word) {
        None
    } else {
        Some(word)
    }
}

// The name of a table.
pub(crate) fn table_of(word: &[u8]) -> Option<Name>
    ensures { result ≡ says.table_of word.now }
{
    Name::new(word)
}

// May a session's name have the byte?
fn is_session_byte(byte: u8) -> bool
    ensures { result ≡ says.is_session_byte byte }
{
    is_name_byte(byte) || byte == b'-'
}

// May a session's name have all these bytes?
fn are_session_bytes(word: &[u8]) -> bool
    ensures { result ≡ list_all says.is_session_byte word.now }
{
    word.iter().all(|byte| is_session_byte(*byte))
}

// The name of a session.
pub(crate) fn session_of(word: &[u8]) -> Option<Name>
    ensures { result ≡ says.session_of word.now }
{
    if !are_session_bytes(word) {
        return None;
    }
    Name::new(word)
}

// How far rulesets are optimised.
#[tactic(auto, unfolding(crate::specs::Word::level_of))]
pub(crate) fn level_of(word: &[u8]) -> Option<Level>
    ensures { result ≡ says.level_of word.now }
{
    if word == b"none".as_slice() {
        Some(Level::None)
    } else if word == b"basic".as_slice() {
        Some(Level::Basic)
    } else if word == b"profile".as_slice() {
        Some(Level::Profile)
    } else {
        None
    }
}

// The path of a ruleset, of which no name begins with `_`.
pub(crate) fn path_of(word: &[u8]) -> Option<Path>
    ensures { result ≡ says.path_of false word.now }
{
    Path::parse(word).ok()
}

// The path of a ruleset.
pub(crate) fn any_path_of(word: &[u8]) -> Option<Path>
    ensures { result ≡ says.path_of true word.now }
{
    Path::parse_any(word).ok()
}
