//! The bytes that are still to be read of a file and of a macro's value that is in use.
ghost use Rattle.std.specs.Prelude.{◌≡◌, ◌++◌, ◌+◌, ◌^◌, ◌<◌, length, drop, IfOk, OnOk, IsSomeAnd};
ghost use Rattle.pf_token.specs.Bytes.{class_of, is_word_byte};
ghost use Rattle.pf_token.specs.Cells.{bytes_of, cells_from, first_cell};
ghost use Rattle.pf_token.specs.Macros.{value_of};
ghost use Rattle.pf_token.specs.Pieces.{is_in_line};
ghost use Rattle.pf_token.specs.Reading.{front, beyond, step, weight};
ghost use Rattle.pf_token.specs.declared.byte.ByteClass.TheVariants.{Dollar};

use crate::byte::is_word_byte;
use crate::cell::Cell;
use crate::cells::FileCells;
use crate::macros::Macros;
use crate::token::{Fault, Lexeme};
use crate::uses::{MacroUse, read_macro};
use pf_base::{NoMemory, Place, Text};
use std::alloc::Global;
use std::marker::Model;

/// What is still to be read: the rest of a macro's value, and then the rest of the file. Clauses see the cells.
#[derive(Drop)]
pub struct Reader {
    value: Vec<u8>,
    at: usize,
    used: Place,
    file: FileCells,
}

impl Model for Reader {
    ghost use Rattle.std.specs.Prelude.{List, drop, ◌++◌};
    ghost use Rattle.pf_token.specs.declared.cell.Cell.{Cell};
    ghost use Rattle.pf_token.specs.Cells.{cells_at, IsValueRest};

    ghost Value = { List Cell };

    ghost view = { λ a. cells_at a.used (drop a.at a.value.items) ++ a.file };

    ghost invariant = { λ a. IsValueRest a.value.items a.at };
}

impl Reader {
    /// All of a file.
    pub fn new(alloc: Global, text: Text, file: u64) -> Reader
        requires { length text + 1 < 2 ^ 32 }
        ensures { result ≡ cells_from (record { file = file; line = 1 }) text }
    {
        Reader {
            value: Vec::new(alloc),
            at: 0,
            used: Place { file, line: 1 },
            file: FileCells::new(text, file),
        }
    }

    /// The next cell.
    pub fn peek(&self) -> Option<Cell>
        ensures { result ≡ first_cell self.now }
    {
        if self.at < self.value.len() {
            Some(Cell {
                byte: self.value[self.at],
                place: self.used,
            })
        } else {
            self.file.peek()
        }
    }

    /// Passes the next cell.
    pub fn advance(&mut self)
        ensures { self.new ≡ drop 1 self.old }
    {
        if self.at < self.value.len() {
            self.at += 1;
        } else {
            self.file.advance();
        }
    }

    /// Takes the rest of a word.
    pub fn take_word(&mut self, text: &mut Vec<u8>) -> Result<(), NoMemory>
        ensures text { OnOk result (text.new.items ≡ text.old.items ++ bytes_of (front is_word_byte self.old)) }
        ensures rest { OnOk result (self.new ≡ beyond is_word_byte self.old) }
    {
        while let Some(cell) = self.peek() {
            if !is_word_byte(cell.byte) {
                break;
            }
            text.push(cell.byte)?;
            self.advance();
        }
        Ok(())
    }

    /// Passes the rest of a line.
    pub fn skip_line(&mut self)
        ensures { self.new ≡ beyond is_in_line self.old }
    {
        while let Some(cell) = self.peek() {
            if cell.byte == b'\n' {
                break;
            }
            self.advance();
        }
    }

    /// Reads what begins with a `$`: a fault, or a value that is put in.
    pub fn read_macro(&mut self, alloc: Global, macros: &Macros) -> Result<Option<Lexeme>, NoMemory>
        requires { IsSomeAnd (first_cell self.old) (λ cell. class_of cell.byte ≡ Dollar) }
        ensures step { IfOk result (λ found. step (value_of macros.now) self.old ≡ (found, self.new)) }
        ensures lighter { IfOk result (λ _. weight self.new < weight self.old) }
    {
        // A value in use has no `$`, so this one stands in the file.
        let (place, found) = read_macro(alloc, &mut self.file, macros)?;
        match found {
            MacroUse::Refused(cause) => Ok(Some(Lexeme::Fault(Fault { cause, place }))),
            MacroUse::Value(value) => {
                self.value = value;
                self.at = 0;
                self.used = place;
                Ok(None)
            }
        }
    }
}
