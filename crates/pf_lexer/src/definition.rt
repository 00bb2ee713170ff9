//! Macro definitions and includes, pf.conf(5), and which fault of a statement decides.
ghost use Rattle.std.specs.Prelude.{◌≡◌, ◌<◌, ◌++◌, Some, IfOk, OnOk, length, nat_lt};
ghost use Rattle.std.specs.List.{list_all, list_any};
ghost use Rattle.std.specs.Option.{option_map};
ghost use Rattle.pf_token.specs.Bytes.{is_name_byte};
ghost use Rattle.pf_lexer.specs.Faults.{decided, definition_faults, definition_of, faults_of, file_named, has_form, include_faults, include_of, is_file_name, is_large, is_macro_name, joined, most_bytes, names_file, or_earlier};
ghost use Rattle.pf_token.specs.Kinds.{is_fault, is_text, rank};
ghost use Rattle.pf_lexer.specs.Taking.{spaced};

use crate::statement::Close;
use pf_base::{NoMemory, Place};
use pf_token::byte::is_name_byte;
use pf_token::{Cause, Fault, Lexeme, Token, TokenKind};
use std::alloc::Global;

/// The most bytes of a macro's value.
const MOST_BYTES: usize = 8192;

/// The most bytes of a file's name.
const MOST_NAME: usize = 255;

/// The most includes that are open, one inside the other.
const MOST_INCLUDES: usize = 16;

/// The name of a definition, and what follows its `=`. None where the statement doesn't begin with a word and `=`.
pub fn definition(lexemes: &[Lexeme]) -> Option<(&Token, &[Lexeme])>
    ensures { option_map (λ parts. record { name = parts.0.now; values = parts.1.now }) result ≡ definition_of lexemes.now }
{
    match lexemes {
        [Lexeme::Token(name), sign, values @ ..] => {
            if name.kind == TokenKind::Word && sign.is_sign(b'=') {
                Some((name, values))
            } else {
                None
            }
        }
        _ => None,
    }
}

/// What follows the word of an include, and where it stands. None where the statement is a definition, or doesn't begin
/// with the word `include`.
pub fn include(lexemes: &[Lexeme]) -> Option<(Place, &[Lexeme])>
    ensures { option_map (λ parts. record { place = parts.0; names = parts.1.now }) result ≡ include_of lexemes.now }
{
    if definition(lexemes).is_some() {
        return None;
    }
    match lexemes {
        [first, names @ ..] if first.is_bare(b"include") => Some((first.place(), names)),
        _ => None,
    }
}

/// Whether it may name a file. A token with a fault may.
fn is_file_name(lexeme: &Lexeme) -> bool
    ensures { result ≡ is_file_name lexeme.now }
{
    match lexeme {
        Lexeme::Token(_) => {
            let length = lexeme.text().len();
            lexeme.is_text() && length >= 1 && length <= MOST_NAME
        }
        Lexeme::Fault(_) => true,
    }
}

/// Whether what follows the word of an include is one file's name.
fn names_file(names: &[Lexeme]) -> bool
    ensures { result ≡ names_file names.now }
{
    match names {
        [name] => is_file_name(name),
        _ => false,
    }
}

/// The name of the file that a statement includes, if it is an include.
pub fn include_name(lexemes: &[Lexeme]) -> Option<&[u8]>
    ensures { option_map (λ name. name.now) result ≡ option_map file_named (include_of lexemes.now) }
{
    let (_, names) = include(lexemes)?;
    match names {
        [name, ..] => Some(name.text()),
        [] => Some(&[]),
    }
}

/// Whether all bytes may stand in a macro's name.
fn are_name_bytes(text: &[u8]) -> bool
    ensures { result ≡ list_all is_name_byte text.now }
{
    text.iter().all(|byte| is_name_byte(*byte))
}

/// Whether a macro may have this name.
fn is_macro_name(text: &[u8]) -> bool
    ensures { result ≡ is_macro_name text.now }
{
    if text.is_empty() || text.len() > 63 {
        return false;
    }
    are_name_bytes(text)
}

/// Whether all are words and strings.
fn are_texts(values: &[Lexeme]) -> bool
    ensures { result ≡ list_all is_text values.now }
{
    values.iter().all(|lexeme| lexeme.is_text())
}

/// Whether a token has a fault.
fn has_fault(values: &[Lexeme]) -> bool
    ensures { result ≡ list_any is_fault values.now }
{
    values.iter().any(|lexeme| lexeme.is_fault())
}

/// Whether a definition's value is one or more words and strings.
fn has_form(values: &[Lexeme], close: Close) -> bool
    ensures { result ≡ has_form values.now close }
{
    if values.is_empty() || close.is_body() {
        return false;
    }
    are_texts(values)
}

/// Whether the texts with a space between them are more than a value may have.
fn exceeds(values: &[Lexeme]) -> bool
    ensures { result ≡ nat_lt most_bytes (length (joined values.now)) }
{
    let mut length = 0;
    for value in values {
        let text = value.text();
        if text.len() > MOST_BYTES {
            return true;
        }
        length += text.len() + 1;
        if length > MOST_BYTES + 1 {
            return true;
        }
    }
    false
}

/// Whether a definition has a value that is too large.
fn is_large(values: &[Lexeme], close: Close) -> bool
    ensures { result ≡ is_large values.now close }
{
    has_form(values, close) && !has_fault(values) && exceeds(values)
}

/// Adds texts, each behind a space.
fn add_texts(value: &mut Vec<u8>, rest: &[Lexeme]) -> Result<(), NoMemory>
    ensures { OnOk result (value.new.items ≡ value.old.items ++ spaced rest.now) }
{
    for lexeme in rest {
        value.push(b' ')?;
        value.extend_from_slice(lexeme.text())?;
    }
    Ok(())
}

/// The value of a definition: the texts with a space between them.
pub fn joined(alloc: Global, values: &[Lexeme]) -> Result<Vec<u8>, NoMemory>
    ensures { IfOk result (λ value. value.items ≡ joined values.now) }
{
    let mut value = Vec::new(alloc);
    if let Some((first, rest)) = values.split_first() {
        value.extend_from_slice(first.text())?;
        add_texts(&mut value, rest)?;
    }
    Ok(value)
}

/// The fault of a definition that decides.
fn definition_fault(lexemes: &[Lexeme], close: Close) -> Option<Fault>
    ensures { result ≡ decided (definition_faults (definition_of lexemes.now) close) }
{
    let (name, values) = definition(lexemes)?;
    let place = name.place;
    if !is_macro_name(name.text.items()) {
        return Some(Fault {
            cause: Cause::MacroName,
            place,
        });
    }
    if is_large(values, close) {
        return Some(Fault {
            cause: Cause::TooLarge,
            place,
        });
    }
    if !has_form(values, close) {
        return Some(Fault {
            cause: Cause::Syntax,
            place,
        });
    }
    None
}

/// The fault of an include inside so many includes that decides.
fn include_fault(lexemes: &[Lexeme], includes: usize) -> Option<Fault>
    ensures { result ≡ decided (include_faults includes (include_of lexemes.now)) }
{
    let (place, names) = include(lexemes)?;
    if includes >= MOST_INCLUDES {
        return Some(Fault {
            cause: Cause::IncludeDepth,
            place,
        });
    }
    if !names_file(names) {
        return Some(Fault {
            cause: Cause::Syntax,
            place,
        });
    }
    None
}

/// The fault that decides among one so far and a later one.
fn or_earlier(so_far: Option<Fault>, fault: Fault) -> Fault
    ensures { Some result ≡ or_earlier so_far (Some fault) }
{
    match so_far {
        None => fault,
        Some(earlier) => {
            if earlier.cause.rank() <= fault.cause.rank() {
                earlier
            } else {
                fault
            }
        }
    }
}

/// The fault of a definition or an include that decides. No statement is both.
fn form_fault(lexemes: &[Lexeme], close: Close, includes: usize) -> Option<Fault>
    ensures { result ≡ decided (definition_faults (definition_of lexemes.now) close ++ include_faults includes (include_of lexemes.now)) }
{
    match definition_fault(lexemes, close) {
        Some(fault) => Some(fault),
        None => include_fault(lexemes, includes),
    }
}

/// The fault of a statement inside so many includes that decides, or None where it has none.
pub fn decided_fault(lexemes: &[Lexeme], close: Close, includes: usize) -> Option<Fault>
    ensures { result ≡ decided (faults_of includes lexemes.now close) }
{
    let mut decided = form_fault(lexemes, close, includes);
    for lexeme in lexemes {
        match lexeme {
            Lexeme::Token(_) => {}
            Lexeme::Fault(fault) => decided = Some(or_earlier(decided, *fault)),
        }
    }
    if close.is_long() {
        if let Some(last) = lexemes.last() {
            let long = Fault {
                cause: Cause::TooLarge,
                place: last.place(),
            };
            decided = Some(or_earlier(decided, long));
        }
    }
    decided
}
