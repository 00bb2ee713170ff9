//! Declarations as they are read from the tokens of a statement.
ghost use Rattle.std.specs.Prelude.{◌≡◌, ◌⊎◌, Bool, List, Ok, Err, IfOk, IfErr};
ghost use Rattle.pf_token.specs.declared.token.Token.{Token as AnyToken};
ghost use Rattle.pf_syntax.specs.Taking.{Takes};
ghost use Rattle.pf_decl.specs.declared.form.Decl.{Decl as AnyDecl};
ghost use Rattle.pf_decl.specs.Coming.{DeclaresOrNot};
ghost use Rattle.pf_decl.specs.Decls as says;
ghost use Rattle.pf_decl.specs.Decls.{IsDecl, RefusesDecl};

use crate::form::Decl;
use crate::keyword::DeclWord;
use crate::queue::take_queue;
use crate::setting::take_setting;
use crate::table::take_table;
use pf_base::Place;
use pf_syntax::keyword::{Key, take_key};
use pf_syntax::{Cursor, FormFault, Stop, form_fault};
use pf_token::Token;
use std::alloc::Global;

const DECL_WORDS: [Key<DeclWord>; 3] = [
    Key(b"set", DeclWord::Set),
    Key(b"table", DeclWord::Table),
    Key(b"queue", DeclWord::Queue),
];

// Takes what stands behind the first word.
#[tactic(auto, unfolding(crate::specs::Decls::decl_behind))]
fn take_decl_behind(cursor: &mut Cursor, word: DeclWord, place: Place) -> Result<Decl, Stop>
    ensures { Takes (says.decl_behind word place) cursor.old result cursor.new }
{
    match word {
        DeclWord::Set => {
            let lines = take_setting(cursor)?;
            Ok(Decl::Set(lines))
        }
        DeclWord::Table => {
            let table = take_table(cursor)?;
            Ok(Decl::Table(table))
        }
        DeclWord::Queue => {
            let queue = take_queue(cursor, place)?;
            Ok(Decl::Queue(queue))
        }
    }
}

// Takes a declaration, which has no body, in a statement at this place.
#[tactic(auto, unfolding(crate::specs::Decls::declaration, crate::specs::Decls::decl_words))]
fn take_declaration(cursor: &mut Cursor, body: bool, place: Place) -> Result<Decl, Stop>
    ensures { Takes (says.declaration body place) cursor.old result cursor.new }
{
    if body {
        return Err(Stop::Outside);
    }
    let word = take_key(&DECL_WORDS, cursor)?;
    take_decl_behind(cursor, word, place)
}

// Where a statement begins.
fn place_of(tokens: &[Token]) -> Place
    ensures { result ≡ says.place_of tokens.now }
{
    match tokens.first() {
        None => Place { file: 0, line: 0 },
        Some(token) => token.place,
    }
}

/// The declaration that the tokens of a statement, with a body behind them or not, are: `set`, `table` or `queue`. The faults are
/// `Unsupported` and `Syntax`, where they are none, and `NoMemory` (pf.conf(5), GRAMMAR).
pub fn parse_decl(alloc: Global, tokens: &[Token], body: bool) -> Result<Decl, FormFault>
    ensures found { IfOk result (λ decl. IsDecl tokens.now body decl) }
    ensures only { (decl : AnyDecl) → IsDecl tokens.now body decl → (result ≡ Ok decl) ⊎ (result ≡ Err FormFault.NoMemory) }
    ensures fault { IfErr result (λ fault. RefusesDecl tokens.now body fault) }
{
    let mut cursor = Cursor::new(alloc, tokens);
    match take_declaration(&mut cursor, body, place_of(tokens)) {
        Err(Stop::NoMemory) => Err(FormFault::NoMemory),
        Err(Stop::Outside) => Err(form_fault(tokens)),
        Ok(decl) => {
            if cursor.is_at_end() {
                Ok(decl)
            } else {
                Err(form_fault(tokens))
            }
        }
    }
}

/// A law: tokens have at most one declaration.
pub fn tokens_have_one_declaration()
    ensures { (tokens : List AnyToken) (body : Bool) (decl other : AnyDecl) → IsDecl tokens body decl → IsDecl tokens body other → decl ≡ other }
{}

/// A law: tokens declare something, or they declare nothing and are refused.
pub fn tokens_declare_or_are_refused()
    ensures { (tokens : List AnyToken) (body : Bool) → DeclaresOrNot tokens body }
{}
