//! The tokens of a text, piece by piece, pf.conf(5): blanks, comments, signs, strings, words and macros.
ghost use Rattle.std.specs.Prelude.{◌≡◌, ◌<◌, ℕ, List, Option, Some, true, IfOk, OnSome, MatchOption, []};
ghost use Rattle.pf_token.specs.declared.cell.Cell.{Cell};
ghost use Rattle.pf_token.specs.declared.token.Lexeme.{Lexeme};
ghost use Rattle.pf_token.specs.Cells.{are_in, first_cell};
ghost use Rattle.pf_token.specs.Coming.{Comes, Descends, HasTokens};
ghost use Rattle.pf_token.specs.Macros.{value_of};
ghost use Rattle.pf_token.specs.Pieces.{token, Next, NextIsOne, NoMore, StaysIn};
ghost use Rattle.pf_token.specs.Reading.{step, weight};

use crate::byte::{ByteClass, class_of};
use crate::cell::Cell;
use crate::macros::Macros;
use crate::reader::Reader;
use crate::strings::read_string;
use crate::token::{Cause, Fault, Lexeme, Token, TokenKind};
use pf_base::{List, NoMemory, Place};
use std::alloc::Global;

/// A token with these bytes.
fn token(kind: TokenKind, text: Vec<u8>, place: Place) -> Lexeme
    ensures { result ≡ token kind text.items place }
{
    Lexeme::Token(Token {
        kind,
        text: List::of(text),
        place,
    })
}

/// Reads the piece that begins with this cell: a token, a fault in its place, or nothing.
fn read_piece(
    alloc: Global,
    reader: &mut Reader,
    macros: &Macros,
    cell: Cell,
) -> Result<Option<Lexeme>, NoMemory>
    requires { Some cell ≡ first_cell reader.old }
    ensures step { IfOk result (λ found. step (value_of macros.now) reader.old ≡ (found, reader.new)) }
    ensures lighter { IfOk result (λ _. weight reader.new < weight reader.old) }
{
    let class = class_of(cell.byte);
    if class == ByteClass::Dollar {
        let found = reader.read_macro(alloc, macros)?;
        return Ok(found);
    }
    reader.advance();
    match class {
        ByteClass::Blank => Ok(None),
        ByteClass::Hash => {
            reader.skip_line();
            Ok(None)
        }
        ByteClass::Newline => Ok(Some(token(TokenKind::Newline, Vec::new(alloc), cell.place))),
        ByteClass::Sign => {
            let text = Vec::from_slice(alloc, &[cell.byte])?;
            Ok(Some(token(TokenKind::Sign, text, cell.place)))
        }
        ByteClass::Quote => {
            let lexeme = read_string(alloc, reader, cell.byte, cell.place)?;
            Ok(Some(lexeme))
        }
        ByteClass::Plain => {
            let mut text = Vec::from_slice(alloc, &[cell.byte])?;
            reader.take_word(&mut text)?;
            Ok(Some(token(TokenKind::Word, text, cell.place)))
        }
        ByteClass::Bad => Ok(Some(Lexeme::Fault(Fault {
            cause: Cause::BadByte,
            place: cell.place,
        }))),
        ByteClass::Dollar => unreachable!(),
    }
}

/// Reads the next token, or the fault in its place. None at the end.
pub fn next_lexeme(
    alloc: Global,
    reader: &mut Reader,
    macros: &Macros,
) -> Result<Option<Lexeme>, NoMemory>
    ensures next { IfOk result (λ found. MatchOption found
        (NoMore (value_of macros.now) reader.old × (reader.new ≡ []))
        (λ lexeme. Next (value_of macros.now) reader.old lexeme reader.new)) }
    ensures only { IfOk result (λ found. (lexeme : Lexeme) (after : List Cell) →
        Next (value_of macros.now) reader.old lexeme after → (found ≡ Some lexeme) × (reader.new ≡ after)) }
    ensures lighter { IfOk result (λ found. OnSome found (weight reader.new < weight reader.old)) }
{
    while let Some(cell) = reader.peek() {
        let found = read_piece(alloc, reader, macros, cell)?;
        if let Some(lexeme) = found {
            return Ok(Some(lexeme));
        }
    }
    Ok(None)
}

/// What comes next of the cells is one thing.
pub fn next_is_one()
    ensures { (values : List ℕ → Option (List ℕ)) → NextIsOne values }
{}

/// What comes next stands in the files of the cells.
pub fn next_stays_in()
    ensures { (values : List ℕ → Option (List ℕ)) (count : ℕ) (cells after : List Cell) (lexeme : Lexeme) →
        Next values cells lexeme after → are_in count cells ≡ true → StaysIn count lexeme after }
{}

/// Something comes next of any cells: a token, with less left behind it, or nothing any more.
pub fn something_comes_next()
    ensures { (values : List ℕ → Option (List ℕ)) (cells : List Cell) → Comes values cells }
{}

/// A text has tokens.
pub fn a_text_has_tokens()
    ensures { (values : List ℕ → Option (List ℕ)) (cells : List Cell) → HasTokens values cells }
{}

/// Each descent of pairs of numbers ends.
pub fn descents_end()
    ensures { (a b : ℕ) → Descends a b }
{}
