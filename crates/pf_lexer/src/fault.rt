//! Why a unit isn't read to its end.
ghost use Rattle.std.specs.Prelude.{◌≡◌, ℕ, List};
ghost use Rattle.pf_lexer.specs.Calls.{IsAgain};
ghost use Rattle.pf_lexer.specs.Units.{answered};
ghost use Rattle.pf_lexer.specs.declared.fault.LexFault.TheVariants.{NoMemory as no_memory};

use pf_base::{List, Name, NoMemory, Place, Text};
use pf_token::{Cause, Fault};
use std::alloc::Global;
use thiserror::Error;

/// The first lexical fault of a unit, pf.conf(5), or why its files weren't read.
#[derive(Debug, Drop, Error)]
pub enum LexFault {
    /// A byte outside comments that is no tab, newline or carriage return and not from 32 to 126.
    #[error("a byte that may not stand there")]
    BadByte(Place),
    /// A string that the file's end cuts off.
    #[error("a string without an end")]
    Unterminated(Place),
    /// A macro that has no value. A longer name is cut to 63 bytes.
    #[error("a macro without a definition")]
    MacroUndefined(Place, Name),
    /// A `$` that no name follows, or a definition of a name that no macro may have.
    #[error("no name for a macro")]
    MacroName(Place),
    /// An include inside 16 includes.
    #[error("an include inside 16 includes")]
    IncludeDepth(Place),
    /// A file of more bytes than may be read, at its line 0; a value of more than 8,192 bytes; a statement of more than
    /// 16,384 tokens.
    #[error("too large")]
    TooLarge(Place),
    /// A macro whose value has a `$`, or a definition or an include outside its form.
    #[error("outside the form")]
    Syntax(Place),
    /// The file of this name is absent, or the read failed.
    #[error("a file that can't be read")]
    CannotRead(Text),
    /// No memory was found.
    #[error("no memory")]
    NoMemory,
}

impl From<NoMemory> for LexFault {
    ghost from_gives = { λ _ fault. fault ≡ no_memory };

    fn from(_error: NoMemory) -> LexFault {
        LexFault::NoMemory
    }
}

impl LexFault {
    /// The fault of a statement, as it is answered.
    pub fn answered(fault: &Fault) -> LexFault
        ensures { result ≡ answered fault.now }
    {
        let place = fault.place;
        match &fault.cause {
            Cause::BadByte => LexFault::BadByte(place),
            Cause::Unterminated => LexFault::Unterminated(place),
            Cause::MacroUndefined(name) => LexFault::MacroUndefined(place, *name),
            Cause::MacroName => LexFault::MacroName(place),
            Cause::IncludeDepth => LexFault::IncludeDepth(place),
            Cause::TooLarge => LexFault::TooLarge(place),
            Cause::Syntax => LexFault::Syntax(place),
        }
    }

    /// The same fault. Where a file can't be read, `name` is a copy of its name.
    pub fn twin(&self, name: Text) -> LexFault
        requires { (other : List ℕ) → self.now ≡ LexFault.CannotRead other → name ≡ other }
        ensures { result ≡ self.now }
    {
        match self {
            LexFault::BadByte(place) => LexFault::BadByte(*place),
            LexFault::Unterminated(place) => LexFault::Unterminated(*place),
            LexFault::MacroUndefined(place, macro_name) => {
                LexFault::MacroUndefined(*place, *macro_name)
            }
            LexFault::MacroName(place) => LexFault::MacroName(*place),
            LexFault::IncludeDepth(place) => LexFault::IncludeDepth(*place),
            LexFault::TooLarge(place) => LexFault::TooLarge(*place),
            LexFault::Syntax(place) => LexFault::Syntax(*place),
            LexFault::CannotRead(_) => LexFault::CannotRead(name),
            LexFault::NoMemory => LexFault::NoMemory,
        }
    }

    /// The same fault again. Only for the name of a file is memory needed.
    pub fn again(&self, alloc: Global) -> LexFault
        ensures { IsAgain self.now result }
    {
        match self {
            LexFault::CannotRead(name) => match List::copy_of(alloc, name.items()) {
                Ok(copy) => LexFault::CannotRead(copy),
                Err(_) => LexFault::NoMemory,
            },
            _ => self.twin(List::of(Vec::new(alloc))),
        }
    }
}
