//! The bytes of a file that are still to be read, each with its place. Continued lines are joined.
ghost use Rattle.std.specs.Prelude.{◌≡◌, ◌≤◌, ◌+◌, ◌<◌, ◌^◌, length, drop, IfOk};
ghost use Rattle.pf_token.specs.Bytes.{is_name_byte, is_word_byte};
ghost use Rattle.pf_token.specs.Cells.{cells_from, bytes_of, first_cell, is_continued, place_after, CountsLines, StandsIn};
ghost use Rattle.pf_token.specs.Reading.{front, beyond};

use crate::byte::{is_name_byte, is_word_byte};
use crate::cell::Cell;
use pf_base::{NoMemory, Place, Text};
use std::alloc::Global;
use std::marker::Model;

/// The rest of a file. Clauses see its cells.
#[derive(Debug, Drop)]
pub struct FileCells {
    text: Text,
    at: usize,
    place: Place,
}

impl Model for FileCells {
    ghost use Rattle.std.specs.Prelude.{List, drop};
    ghost use Rattle.pf_token.specs.declared.cell.Cell.{Cell};
    ghost use Rattle.pf_token.specs.Cells.{cells_from, StandsIn};

    ghost Value = { List Cell };

    ghost view = { λ a. cells_from a.place (drop a.at a.text) };

    ghost invariant = { λ a. StandsIn a.text a.at a.place.line };
}

/// Whether a backslash and a newline stand there.
fn is_continued(text: &[u8], at: usize) -> bool
    requires { at ≤ length text.now }
    ensures { result ≡ is_continued (drop at text.now) }
{
    match &text[at..] {
        [byte, next, ..] => *byte == b'\\' && *next == b'\n',
        _ => false,
    }
}

/// Where reading goes on behind all continuations that stand there.
fn past_continuations(text: &[u8], at: usize, place: Place) -> (usize, Place)
    requires { CountsLines text.now at place.line }
    ensures same { cells_from result.1 (drop result.0 text.now) ≡ cells_from place (drop at text.now) }
    ensures stands { StandsIn text.now result.0 result.1.line }
{
    let mut at = at;
    let mut place = place;
    while is_continued(text, at) {
        at += 2;
        place.line += 1;
    }
    (at, place)
}

/// Where the byte after this one stands.
fn place_after(place: Place, byte: u8) -> Place
    requires { place.line + 1 < 2 ^ 32 }
    ensures { result ≡ place_after place byte }
{
    if byte == b'\n' {
        Place {
            file: place.file,
            line: place.line + 1,
        }
    } else {
        place
    }
}

impl FileCells {
    /// All of a file.
    pub fn new(text: Text, file: u64) -> FileCells
        requires { length text + 1 < 2 ^ 32 }
        ensures { result ≡ cells_from (record { file = file; line = 1 }) text }
    {
        let (at, place) = past_continuations(text.items(), 0, Place { file, line: 1 });
        FileCells { text, at, place }
    }

    /// The next cell.
    pub fn peek(&self) -> Option<Cell>
        ensures { result ≡ first_cell self.now }
    {
        let text = self.text.items();
        if self.at < text.len() {
            Some(Cell {
                byte: text[self.at],
                place: self.place,
            })
        } else {
            None
        }
    }

    /// Passes the next cell.
    pub fn advance(&mut self)
        ensures { self.new ≡ drop 1 self.old }
    {
        let text = self.text.items();
        if self.at < text.len() {
            let next = place_after(self.place, text[self.at]);
            let (at, place) = past_continuations(text, self.at + 1, next);
            self.at = at;
            self.place = place;
        }
    }

    /// Takes the bytes of a macro's name.
    pub fn take_name(&mut self, alloc: Global) -> Result<Vec<u8>, NoMemory>
        ensures name { IfOk result (λ name. name.items ≡ bytes_of (front is_name_byte self.old)) }
        ensures rest { IfOk result (λ _. self.new ≡ beyond is_name_byte self.old) }
    {
        let mut name = Vec::new(alloc);
        while let Some(cell) = self.peek() {
            if !is_name_byte(cell.byte) {
                break;
            }
            name.push(cell.byte)?;
            self.advance();
        }
        Ok(name)
    }

    /// Passes the rest of a word.
    pub fn skip_word(&mut self)
        ensures { self.new ≡ beyond is_word_byte self.old }
    {
        while let Some(cell) = self.peek() {
            if !is_word_byte(cell.byte) {
                break;
            }
            self.advance();
        }
    }
}
