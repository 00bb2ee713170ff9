//! What the next statement of a file does: macro definitions act on the statements after them, includes name a file, and all
//! other statements are handed out.
ghost use Rattle.std.specs.Prelude.{◌≡◌, ℕ, IfOk, OnOk, OnErr, true};
ghost use Rattle.pf_token.specs.Cells.{are_in};
ghost use Rattle.pf_token.specs.Macros.{with_definition};
ghost use Rattle.pf_token.specs.Reading.{weight};
ghost use Rattle.pf_lexer.specs.Deeds.{tokens_in, Does};
ghost use Rattle.pf_lexer.specs.Faults.{is_macro_name, joined};
ghost use Rattle.pf_lexer.specs.Going.{rest_behind, DeedStaysIn, IsLighter};

use crate::definition::{decided_fault, definition, include_name, joined};
use crate::statement::read_statement;
use pf_base::{List, Name, NoMemory, Text};
use pf_token::{Fault, Lexeme, Macros, Reader, Token, next_stays_in};
use std::alloc::Global;

/// A statement. Where it opens a body, the `{` isn't among its tokens.
#[derive(Debug, Drop)]
pub struct Statement {
    pub tokens: List<Token>,
    pub body: bool,
}

/// What a statement does.
#[derive(Debug, Drop)]
pub enum Deed {
    /// It hands nothing out: a definition, or no token.
    Nothing,
    /// It is handed out.
    Hands(Statement),
    /// It is replaced by the statements of the file with this name.
    Includes(Text),
    /// The file ends.
    Ends,
    /// It has a fault.
    Fails(Fault),
}

/// The tokens without the faults.
fn tokens_in(alloc: Global, lexemes: Vec<Lexeme>) -> Result<List<Token>, NoMemory>
    ensures { IfOk result (λ tokens. tokens ≡ tokens_in lexemes.items) }
{
    let mut tokens = Vec::new(alloc);
    for lexeme in lexemes {
        match lexeme {
            Lexeme::Token(token) => tokens.push(token)?,
            Lexeme::Fault(_) => {}
        }
    }
    Ok(List::of(tokens))
}

/// Adds a definition to the macros.
fn define(
    alloc: Global,
    macros: &mut Macros,
    name: &Token,
    values: &[Lexeme],
) -> Result<(), NoMemory>
    requires { is_macro_name name.now.text ≡ true }
    ensures ok { OnOk result (macros.new ≡ with_definition macros.old name.now.text (joined values.now)) }
    ensures err { OnErr result (macros.new ≡ macros.old) }
{
    let value = joined(alloc, values)?;
    match Name::new(name.text.items()) {
        Some(name) => macros.define(alloc, name, &value)?,
        None => unreachable!(),
    }
    Ok(())
}

/// The next statement of a file, which stands inside so many includes, is read and judged. A definition is carried out.
pub fn take_statement(
    alloc: Global,
    reader: &mut Reader,
    macros: &mut Macros,
    includes: usize,
) -> Result<Deed, NoMemory>
    ensures does { IfOk result (λ deed. Does includes macros.old reader.old deed macros.new (rest_behind deed reader.new)) }
    ensures places { IfOk result (λ deed. (count : ℕ) → are_in count reader.old ≡ true → DeedStaysIn count deed (rest_behind deed reader.new)) }
    ensures lighter { IfOk result (λ deed. IsLighter deed (weight reader.new) (weight reader.old)) }
{
    next_stays_in();
    let raw = read_statement(alloc, reader, macros)?;
    if let Some(fault) = decided_fault(&raw.lexemes, raw.close, includes) {
        return Ok(Deed::Fails(fault));
    }
    if let Some((name, values)) = definition(&raw.lexemes) {
        define(alloc, macros, name, values)?;
        return Ok(Deed::Nothing);
    }
    if let Some(name) = include_name(&raw.lexemes) {
        let name = Vec::from_slice(alloc, name)?;
        return Ok(Deed::Includes(List::of(name)));
    }
    if !raw.lexemes.is_empty() {
        let tokens = tokens_in(alloc, raw.lexemes)?;
        return Ok(Deed::Hands(Statement {
            tokens,
            body: raw.close.is_body(),
        }));
    }
    if raw.close.is_end() {
        return Ok(Deed::Ends);
    }
    Ok(Deed::Nothing)
}
