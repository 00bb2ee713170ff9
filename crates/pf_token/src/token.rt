//! The tokens of a configuration, pf.conf(5).
ghost use Rattle.std.specs.Prelude.{◌≡◌};
ghost use Rattle.pf_token.specs.Kinds.{is_bare, is_fault, is_newline, is_sign, is_text, place_of, rank, text_of};

use pf_base::{Name, Place, Text};

/// What kind of token it is.
#[derive(Clone, Copy, Debug, PartialEq, Eq)]
pub enum TokenKind {
    /// A word without quotes.
    Word,
    /// A string in quotes.
    Quoted,
    /// One of `( ) { } < > ! = / ,`.
    Sign,
    /// The end of a line.
    Newline,
}

/// A token. The text of a string is what its quotes stand for, that of a newline is empty. A token that comes from a
/// macro's value stands where the macro is used.
#[derive(Debug, Drop)]
pub struct Token {
    pub kind: TokenKind,
    pub text: Text,
    pub place: Place,
}

/// A lexical fault.
#[derive(Clone, Copy, Debug)]
pub enum Cause {
    /// A byte outside comments that is no tab, newline or carriage return and not from 32 to 126.
    BadByte,
    /// A string that the file's end cuts off.
    Unterminated,
    /// A macro that has no value. A longer name is cut to 63 bytes.
    MacroUndefined(Name),
    /// A `$` that no name follows, or a definition of a name that no macro may have.
    MacroName,
    /// An include inside 16 includes.
    IncludeDepth,
    /// A file that is too large, a value of more than 8,192 bytes, or a statement of more than 16,384 tokens.
    TooLarge,
    /// A macro whose value has a `$`, or a definition or an include outside its form.
    Syntax,
}

impl Cause {
    /// Its place in the order in which the kinds of faults are tried.
    pub fn rank(&self) -> u8
        ensures { result ≡ rank self.now }
    {
        match self {
            Cause::BadByte => 0,
            Cause::Unterminated => 1,
            Cause::MacroUndefined(_) => 2,
            Cause::MacroName => 3,
            Cause::IncludeDepth => 4,
            Cause::TooLarge => 5,
            Cause::Syntax => 6,
        }
    }
}

/// A fault in place of a token.
#[derive(Clone, Copy, Debug)]
pub struct Fault {
    pub cause: Cause,
    pub place: Place,
}

/// A token, or the fault in its place.
#[derive(Debug, Drop)]
pub enum Lexeme {
    Token(Token),
    Fault(Fault),
}

impl Lexeme {
    /// Whether it is a newline.
    pub fn is_newline(&self) -> bool
        ensures { result ≡ is_newline self.now }
    {
        match self {
            Lexeme::Token(token) => token.kind == TokenKind::Newline,
            Lexeme::Fault(_) => false,
        }
    }

    /// Whether it is this sign.
    pub fn is_sign(&self, byte: u8) -> bool
        ensures { result ≡ is_sign byte self.now }
    {
        match self {
            Lexeme::Token(token) => {
                token.kind == TokenKind::Sign && token.text.items() == [byte].as_slice()
            }
            Lexeme::Fault(_) => false,
        }
    }

    /// Whether it is this word, without quotes.
    pub fn is_bare(&self, word: &[u8]) -> bool
        ensures { result ≡ is_bare word.now self.now }
    {
        match self {
            Lexeme::Token(token) => token.kind == TokenKind::Word && token.text.items() == word,
            Lexeme::Fault(_) => false,
        }
    }

    /// Whether it is a word or a string. A token with a fault counts as one.
    pub fn is_text(&self) -> bool
        ensures { result ≡ is_text self.now }
    {
        match self {
            Lexeme::Token(token) => {
                token.kind == TokenKind::Word || token.kind == TokenKind::Quoted
            }
            Lexeme::Fault(_) => true,
        }
    }

    /// Whether it is a fault in the place of a token.
    pub fn is_fault(&self) -> bool
        ensures { result ≡ is_fault self.now }
    {
        match self {
            Lexeme::Token(_) => false,
            Lexeme::Fault(_) => true,
        }
    }

    /// Its text. A fault has none.
    pub fn text(&self) -> &[u8]
        ensures { result.now ≡ text_of self.now }
    {
        match self {
            Lexeme::Token(token) => token.text.items(),
            Lexeme::Fault(_) => &[],
        }
    }

    /// Where it stands.
    pub fn place(&self) -> Place
        ensures { result ≡ place_of self.now }
    {
        match self {
            Lexeme::Token(token) => token.place,
            Lexeme::Fault(fault) => fault.place,
        }
    }
}
