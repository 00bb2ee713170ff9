//! How a statement is read, by its first word (pf.conf(5), GRAMMAR).
ghost use Rattle.std.specs.Prelude.{◌≡◌};
ghost use Rattle.pf_load.specs.Statements as says;

use pf_lexer::{Token, TokenKind};

/// How a statement is read.
#[derive(Clone, Copy, Debug, PartialEq, Eq)]
pub enum Way {
    /// It has no tokens.
    Nothing,
    /// It is a `}` alone.
    Closes,
    /// As a setting, a table or a queue.
    Declares,
    /// As a rule, an antispoof, an anchor or the load of one.
    Rules,
}

// Whether a declaration begins with this token.
#[tactic(auto, unfolding(crate::specs::Statements::begins_declaration))]
fn begins_declaration(token: &Token) -> bool
    ensures { result ≡ says.begins_declaration token.now }
{
    let text = token.text.items();
    token.kind == TokenKind::Word
        && (text == b"set".as_slice() || text == b"table".as_slice() || text == b"queue".as_slice())
}

// A `}` alone.
#[tactic(auto, unfolding(crate::specs::Statements::is_close))]
fn is_close(token: &Token, behind: &[Token]) -> bool
    ensures { result ≡ says.is_close token.now behind.now }
{
    behind.is_empty() && token.kind == TokenKind::Sign && token.text.items() == b"}".as_slice()
}

/// How a statement of these tokens is read.
pub(crate) fn way_of(tokens: &[Token]) -> Way
    ensures { result ≡ says.way_of tokens.now }
{
    match tokens.split_first() {
        None => Way::Nothing,
        Some((token, behind)) => {
            if is_close(token, behind) {
                Way::Closes
            } else if begins_declaration(token) {
                Way::Declares
            } else {
                Way::Rules
            }
        }
    }
}
