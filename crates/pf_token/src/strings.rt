//! Strings in quotes, pf.conf(5): what stands between the quotes, and whether it may stand there.
ghost use Rattle.std.specs.Prelude.{◌≡◌, ◌≤◌, ◌∷◌, length, IfOk};
ghost use Rattle.pf_token.specs.Bytes.{class_of};
ghost use Rattle.pf_token.specs.Pieces.{is_escapable};
ghost use Rattle.pf_token.specs.Reading.{quoted_from, part_then, quoted_step};
ghost use Rattle.pf_token.specs.declared.byte.ByteClass.TheVariants.{Quote};

use crate::byte::class_of;
use crate::cell::Cell;
use crate::reader::Reader;
use crate::token::{Cause, Fault, Lexeme, Token, TokenKind};
use pf_base::{List, NoMemory, Place};
use std::alloc::Global;

/// What a cell between quotes does, with what follows it.
#[derive(Clone, Copy, Debug)]
pub enum StringPart {
    /// It ends the string.
    Closed,
    /// It is dropped.
    Dropped,
    /// It stands for this byte.
    Byte(u8),
}

/// A string that was read: what it stands for, whether each byte may stand there, and whether it has an end.
#[derive(Debug, Drop)]
struct QuotedText {
    text: Vec<u8>,
    known: bool,
    closed: bool,
}

/// Whether a backslash between such quotes stands for the byte behind it.
fn is_escapable(quote: u8, byte: u8) -> bool
    ensures { result ≡ is_escapable quote byte }
{
    byte == quote || byte == b' ' || byte == b'\t'
}

/// What a cell does that was passed between quotes. A byte behind a backslash is passed with it.
fn string_part(reader: &mut Reader, quote: u8, cell: Cell) -> StringPart
    requires { class_of quote ≡ Quote }
    ensures goes_on { quoted_from quote (cell ∷ reader.old) ≡ part_then quote result reader.new }
    ensures shorter { length reader.new ≤ length reader.old }
{
    if cell.byte == quote {
        return StringPart::Closed;
    }
    if cell.byte == b'\n' {
        return StringPart::Dropped;
    }
    if cell.byte == b'\\' {
        if let Some(next) = reader.peek() {
            if is_escapable(quote, next.byte) {
                reader.advance();
                return StringPart::Byte(next.byte);
            }
        }
    }
    StringPart::Byte(cell.byte)
}

/// Reads what stands behind an opening quote.
fn take_string(alloc: Global, reader: &mut Reader, quote: u8) -> Result<QuotedText, NoMemory>
    requires { class_of quote ≡ Quote }
    ensures { IfOk result (λ q. quoted_from quote reader.old ≡ record { text = q.text.items; known = q.known; closed = q.closed; after = reader.new }) }
{
    let mut text = Vec::new(alloc);
    let mut known = true;
    while let Some(cell) = reader.peek() {
        reader.advance();
        match string_part(reader, quote, cell) {
            StringPart::Closed => {
                return Ok(QuotedText {
                    text,
                    known,
                    closed: true,
                });
            }
            StringPart::Dropped => {}
            StringPart::Byte(byte) => {
                known &= class_of(byte).is_known();
                text.push(byte)?;
            }
        }
    }
    Ok(QuotedText {
        text,
        known,
        closed: false,
    })
}

/// The token of a string whose opening quote was passed, or its fault.
pub fn read_string(
    alloc: Global,
    reader: &mut Reader,
    quote: u8,
    place: Place,
) -> Result<Lexeme, NoMemory>
    requires { class_of quote ≡ Quote }
    ensures { IfOk result (λ lexeme. quoted_step place (quoted_from quote reader.old) ≡ (Some lexeme, reader.new)) }
{
    let quoted = take_string(alloc, reader, quote)?;
    if !quoted.known {
        return Ok(Lexeme::Fault(Fault {
            cause: Cause::BadByte,
            place,
        }));
    }
    if !quoted.closed {
        return Ok(Lexeme::Fault(Fault {
            cause: Cause::Unterminated,
            place,
        }));
    }
    Ok(Lexeme::Token(Token {
        kind: TokenKind::Quoted,
        text: List::of(quoted.text),
        place,
    }))
}
