//! The tokens of a whole text.
ghost use Rattle.std.specs.Prelude.{◌≡◌, ◌+◌, ◌<◌, ◌^◌, IfOk, length, List};
ghost use Rattle.pf_token.specs.declared.token.Lexeme.{Lexeme};
ghost use Rattle.pf_token.specs.Cells.{cells_from};
ghost use Rattle.pf_token.specs.Macros.{value_of};
ghost use Rattle.pf_token.specs.Pieces.{Reads};

use crate::macros::Macros;
use crate::pieces::next_lexeme;
use crate::reader::Reader;
use crate::token::Lexeme;
use pf_base::{NoMemory, Text};
use std::alloc::Global;

/// The tokens of a text from its first line on, with a fault in place of each that can't be read. `file` is the number
/// that their places have.
pub fn tokens_of(
    alloc: Global,
    text: Text,
    file: u64,
    macros: &Macros,
) -> Result<Vec<Lexeme>, NoMemory>
    requires { length text + 1 < 2 ^ 32 }
    ensures reads { IfOk result (λ found. Reads (value_of macros.now) (cells_from (record { file = file; line = 1 }) text) found.items) }
    ensures only { IfOk result (λ found. (others : List Lexeme) →
        Reads (value_of macros.now) (cells_from (record { file = file; line = 1 }) text) others → found.items ≡ others) }
{
    let mut found = Vec::new(alloc);
    let mut reader = Reader::new(alloc, text, file);
    while let Some(lexeme) = next_lexeme(alloc, &mut reader, macros)? {
        found.push(lexeme)?;
    }
    Ok(found)
}
