//! Words of a line, and a piece of a line, both borrowed from it.
ghost use Rattle.std.specs.Prelude.{◌≡◌, ◌∷◌, [], IfSome, IfNone};
ghost use Rattle.pf_base.specs.Text.{words_of};

use pf_base::text::split_word;
use std::marker::Model;

/// Words of a line, between blanks. Clauses see the list of the words.
#[derive(Drop)]
pub struct Words<'a> {
    text: &'a [u8],
}

impl<'a> Model for Words<'a> {
    ghost use Rattle.std.specs.Prelude.{List, ℕ};
    ghost use Rattle.pf_base.specs.Text.{words_of};

    ghost Value = { List (List ℕ) };

    ghost view = { λ a. words_of a.text.now };
}

impl<'a> Words<'a> {
    /// The words of this text.
    pub fn of(text: &'a [u8]) -> Words<'a>
        ensures { result ≡ words_of text.now }
    {
        Words { text }
    }

    /// Takes the first word; None where no word is left. Takes no memory.
    pub fn next_word(&mut self) -> Option<&'a [u8]>
        ensures some { IfSome result (λ word. self.old ≡ word.now ∷ self.new) }
        ensures none { IfNone result (self.old ≡ []) }
        ensures empty { IfNone result (self.new ≡ []) }
    {
        let (word, rest) = split_word(self.text)?;
        self.text = rest;
        Some(word)
    }

    /// The words that are left, which stay. Takes no memory.
    pub fn left(&self) -> Words<'a>
        ensures { result ≡ self.now }
    {
        Words { text: self.text }
    }
}

/// The record of a packet, as the rest of a line has it. Clauses see the list of its bytes.
#[derive(Drop)]
pub struct Record<'a> {
    text: &'a [u8],
}

impl<'a> Model for Record<'a> {
    ghost use Rattle.std.specs.Prelude.{List, ℕ};

    ghost Value = { List ℕ };

    ghost view = { λ a. a.text.now };
}

impl<'a> Record<'a> {
    /// The record of this text.
    pub fn of(text: &'a [u8]) -> Record<'a>
        ensures { result ≡ text.now }
    {
        Record { text }
    }

    /// Its bytes.
    pub fn bytes(&self) -> &'a [u8]
        ensures { result.now ≡ self.now }
    {
        self.text
    }
}
