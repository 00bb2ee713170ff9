//! One line of a facts file, by its words.
ghost use Rattle.std.specs.Prelude.{◌≡◌, [], ◌∷◌, true, false, IfSome, IfNone, Some, None};
ghost use Rattle.std.specs.List.{list_all};
ghost use Rattle.std.specs.Option.{option_copied};
ghost use Rattle.pf_base.specs.Name.{is_plain_name};
ghost use Rattle.pf_base.specs.Text.{fields_of, is_nothing};
ghost use Rattle.pf_host.specs.Line.{is_one, is_passed_over, is_rest, line_of};
ghost use Rattle.pf_host.specs.Reading.{IsFit, IsRead, fields_left, line_read};

use crate::kind::{Kind, kind_of};
use pf_base::text::split_field;
use pf_base::{Name, plain_name};

// A line: its name and what stands behind it.
#[derive(Drop)]
pub(crate) enum Statement<'a> {
    Interface(Name, Option<&'a [u8]>),
    Address(Name, &'a [u8]),
    Host(Name, &'a [u8]),
    User(Name, &'a [u8]),
    Group(Name, &'a [u8]),
    Service(Name, &'a [u8]),
}

// Are all words of what is left names?
fn are_names(rest: Option<&[u8]>) -> bool
    ensures { result ≡ list_all is_plain_name (fields_left (option_copied rest.entry)) }
{
    let mut next = rest;
    while let Some(text) = next {
        let (word, behind) = split_field(text);
        if plain_name(word).is_none() {
            return false;
        }
        next = behind;
    }
    true
}

// The one word of what is left, which isn't empty.
fn only_word(rest: Option<&[u8]>) -> Option<&[u8]>
    ensures some { IfSome result (λ word. fields_left (option_copied rest.entry) ≡ word.now ∷ []) }
    ensures filled { IfSome result (λ word. is_nothing word.now ≡ false) }
    ensures none { IfNone result (is_one (fields_left (option_copied rest.entry)) ≡ false) }
{
    let text = rest?;
    let (word, behind) = split_field(text);
    match behind {
        None if word.is_empty() => None,
        None => Some(word),
        Some(_) => None,
    }
}

// The line of a kind and a name, with what stands behind the name.
fn statement_of<'a>(kind: Kind, name: Name, rest: Option<&'a [u8]>) -> Option<Statement<'a>>
    ensures fits { IfSome result IsFit }
    ensures some { IfSome result (λ statement. IsRead statement kind name (fields_left (option_copied rest.entry))) }
    ensures none { IfNone result (is_rest kind (fields_left (option_copied rest.entry)) ≡ false) }
{
    Some(match kind {
        Kind::Interface => {
            if !are_names(rest) {
                return None;
            }
            Statement::Interface(name, rest)
        }
        Kind::Address => Statement::Address(name, only_word(rest)?),
        Kind::Host => Statement::Host(name, only_word(rest)?),
        Kind::User => Statement::User(name, only_word(rest)?),
        Kind::Group => Statement::Group(name, only_word(rest)?),
        Kind::Service => Statement::Service(name, only_word(rest)?),
    })
}

// The line of this text, or None where its words have no form of one.
pub(crate) fn read_statement(text: &[u8]) -> Option<Statement<'_>>
    ensures some { IfSome result (λ statement. line_of (fields_of text.now) ≡ Some (line_read statement)) }
    ensures fits { IfSome result IsFit }
    ensures none { IfNone result (line_of (fields_of text.now) ≡ None) }
{
    let (keyword, rest) = split_field(text);
    let kind = kind_of(keyword)?;
    let (name, rest) = split_field(rest?);
    statement_of(kind, plain_name(name)?, rest)
}

// Does the line say nothing?
pub(crate) fn passes_over(text: &[u8]) -> bool
    ensures { result ≡ is_passed_over text.now }
{
    match text {
        [] => true,
        [byte, ..] => *byte == b'#',
    }
}
