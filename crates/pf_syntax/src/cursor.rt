//! A place among the tokens of a statement, and what is taken there: words, names, numbers and signs.
ghost use Rattle.std.specs.Prelude.{◌≡◌, ◌≤◌, length, Some, IfOk, IfSome};
ghost use Rattle.std.specs.Bool.{OnTrue, OnFalse};
ghost use Rattle.pf_syntax.specs.Grammar.{sign, word};
ghost use Rattle.pf_syntax.specs.Lists.{at_sign};
ghost use Rattle.pf_syntax.specs.Symbols.{is_end, is_word, next_is, next_are, is_mark, is_string, symbol_of, symbols};
ghost use Rattle.pf_syntax.specs.Taking.{Takes};
ghost use Rattle.std.specs.Option.{option_and_then, option_copied};
ghost use Rattle.pf_syntax.specs.KeyTable.{behind, next_word};
ghost use Rattle.pf_base.specs.Decimal.{decimal_of};
ghost use Rattle.pf_syntax.specs.Words as says;
ghost use Rattle.pf_syntax.specs.Words.{any_word, bare_text, in_range, name, number};

use crate::fault::Stop;
use crate::texts::is_name_text;
use pf_base::text::decimal;
use pf_base::{List, Name, Text};
use pf_token::{Token, TokenKind};
use std::alloc::Global;
use std::marker::Model;

/// The tokens of a statement that are still to be read. Clauses see their symbols.
#[derive(Drop)]
pub struct Cursor<'a> {
    alloc: Global,
    tokens: &'a [Token],
}

impl<'a> Model for Cursor<'a> {
    ghost use Rattle.pf_syntax.specs.Symbols.{Symbols, symbols};

    ghost Value = { Symbols };

    ghost view = { λ a. symbols a.tokens.now };
}

impl<'a> Cursor<'a> {
    /// At the first of these tokens. Takes no memory.
    pub fn new(alloc: Global, tokens: &'a [Token]) -> Cursor<'a>
        ensures { result ≡ symbols tokens.now }
    {
        Cursor { alloc, tokens }
    }

    /// The allocator of the texts that are taken.
    pub fn alloc(&self) -> Global {
        self.alloc
    }

    /// How many tokens are left.
    pub fn len(&self) -> usize
        ensures { result ≡ length self.now }
    {
        self.tokens.len()
    }

    /// Whether no token is left.
    pub fn is_at_end(&self) -> bool
        ensures { result ≡ is_end self.now }
    {
        self.tokens.is_empty()
    }

    /// The word without quotes that stands next.
    pub fn next_word(&self) -> Option<&[u8]>
        ensures { option_copied result ≡ next_word self.now }
    {
        let token = self.tokens.first()?;
        if token.kind == TokenKind::Word {
            Some(token.text.items())
        } else {
            None
        }
    }

    /// Whether a string in quotes stands next.
    pub fn is_at_string(&self) -> bool
        ensures { result ≡ next_is is_string self.now }
    {
        match self.tokens.first() {
            None => false,
            Some(token) => token.kind == TokenKind::Quoted,
        }
    }

    /// Passes the next token.
    pub fn pass(&mut self)
        ensures { self.new ≡ behind self.old }
    {
        if let Some((_, rest)) = self.tokens.split_first() {
            self.tokens = rest;
        }
    }

    /// Whether this sign stands next.
    pub fn is_at_sign(&self, text: &[u8]) -> bool
        ensures { result ≡ at_sign text.now self.now }
    {
        match self.tokens.first() {
            None => false,
            Some(token) => is_sign(token, text),
        }
    }

    /// Whether this keyword stands next.
    pub fn is_at_word(&self, text: &[u8]) -> bool
        ensures { result ≡ next_is (is_word text.now) self.now }
    {
        match self.tokens.first() {
            None => false,
            Some(token) => is_keyword(token, text),
        }
    }

    /// Whether these two signs stand next.
    pub fn is_at_signs(&self, first: &[u8], second: &[u8]) -> bool
        ensures { result ≡ next_are (is_mark first.now) (is_mark second.now) self.now }
    {
        match self.tokens {
            [one, two, ..] => is_sign(one, first) && is_sign(two, second),
            _ => false,
        }
    }

    /// Takes a sign.
    pub fn take_sign(&mut self, text: &[u8]) -> Result<(), Stop>
        ensures { Takes (sign text.now) self.old result self.new }
    {
        match self.tokens.split_first() {
            None => Err(Stop::Outside),
            Some((token, rest)) => {
                if !is_sign(token, text) {
                    return Err(Stop::Outside);
                }
                self.tokens = rest;
                Ok(())
            }
        }
    }

    /// Takes a keyword.
    pub fn take_keyword(&mut self, text: &[u8]) -> Result<(), Stop>
        ensures { Takes (word text.now) self.old result self.new }
    {
        match self.tokens.split_first() {
            None => Err(Stop::Outside),
            Some((token, rest)) => {
                if !is_keyword(token, text) {
                    return Err(Stop::Outside);
                }
                self.tokens = rest;
                Ok(())
            }
        }
    }

    /// Whether this sign stands next; it is taken where it does.
    pub fn passes_sign(&mut self, text: &[u8]) -> bool
        ensures next { result ≡ at_sign text.now self.old }
        ensures taken { OnTrue result ((sign text.now).reads self.old ≡ Some (tt, self.new)) }
        ensures left { OnFalse result (self.new ≡ self.old) }
    {
        match self.tokens.split_first() {
            None => false,
            Some((token, rest)) => {
                if !is_sign(token, text) {
                    return false;
                }
                self.tokens = rest;
                true
            }
        }
    }

    /// Whether this keyword stands next; it is taken where it does.
    pub fn passes(&mut self, text: &[u8]) -> bool
        ensures next { result ≡ next_is (is_word text.now) self.old }
        ensures taken { OnTrue result ((word text.now).reads self.old ≡ Some (tt, self.new)) }
        ensures left { OnFalse result (self.new ≡ self.old) }
    {
        match self.tokens.split_first() {
            None => false,
            Some((token, rest)) => {
                if !is_keyword(token, text) {
                    return false;
                }
                self.tokens = rest;
                true
            }
        }
    }

    /// Takes a word without quotes.
    pub fn take_word(&mut self) -> Result<Text, Stop>
        ensures { Takes any_word self.old result self.new }
    {
        match self.tokens.split_first() {
            None => Err(Stop::Outside),
            Some((token, rest)) => {
                if token.kind != TokenKind::Word {
                    return Err(Stop::Outside);
                }
                let mut text = List::new(self.alloc);
                text.append_copy(token.text.items())?;
                self.tokens = rest;
                Ok(text)
            }
        }
    }

    /// Takes a name: a word or a string of 1 to 63 bytes without `"` and `\`.
    #[tactic(auto, unfolding(crate::specs::Words::name_of))]
    pub fn take_name(&mut self) -> Result<Name, Stop>
        ensures { Takes name self.old result self.new }
    {
        match self.tokens.split_first() {
            None => Err(Stop::Outside),
            Some((token, rest)) => match name_of(token) {
                None => Err(Stop::Outside),
                Some(name) => {
                    self.tokens = rest;
                    Ok(name)
                }
            },
        }
    }

    /// Takes a decimal number from `least` to `most`, which is at most 255.
    pub fn take_byte(&mut self, least: u32, most: u8) -> Result<u8, Stop>
        ensures { Takes (number least most) self.old result self.new }
    {
        let number = self.take_number(least, u32::from(most))?;
        Ok(number as u8)
    }

    /// Takes a decimal number from `least` to `most`.
    pub fn take_number(&mut self, least: u32, most: u32) -> Result<u32, Stop>
        ensures takes { Takes (number least most) self.old result self.new }
        ensures bound { IfOk result (λ n. n ≤ most) }
    {
        match self.tokens.split_first() {
            None => Err(Stop::Outside),
            Some((token, rest)) => match number_of(token, least, most) {
                None => Err(Stop::Outside),
                Some(number) => {
                    self.tokens = rest;
                    Ok(number)
                }
            },
        }
    }
}

// Whether it is this sign.
fn is_sign(token: &Token, text: &[u8]) -> bool
    ensures { result ≡ is_mark text.now (symbol_of token.now) }
{
    token.kind == TokenKind::Sign && token.text.items() == text
}

// Whether it is this word without quotes.
fn is_keyword(token: &Token, text: &[u8]) -> bool
    ensures { result ≡ is_word text.now (symbol_of token.now) }
{
    token.kind == TokenKind::Word && token.text.items() == text
}

// The name that it is.
#[tactic(auto, unfolding(crate::specs::Words::name_of))]
fn name_of(token: &Token) -> Option<Name>
    ensures { result ≡ says.name_of (symbol_of token.now) }
{
    match token.kind {
        TokenKind::Word | TokenKind::Quoted => {
            if is_name_text(token.text.items()) {
                Name::new(token.text.items())
            } else {
                None
            }
        }
        TokenKind::Sign | TokenKind::Newline => None,
    }
}

// The number that it is.
fn number_of(token: &Token, least: u32, most: u32) -> Option<u32>
    ensures bound { IfSome result (λ n. n ≤ most) }
    ensures value { result ≡ option_and_then (λ word. in_range least (decimal_of most word)) (bare_text (symbol_of token.now)) }
{
    if token.kind != TokenKind::Word {
        return None;
    }
    match decimal(token.text.items(), most) {
        None => None,
        Some(number) => { if least <= number { Some(number) } else { None } }
    }
}
