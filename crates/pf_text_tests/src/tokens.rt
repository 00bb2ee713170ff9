//! The tokens of a short text, without macros.
use pf_base::List;
use pf_token::{Lexeme, Macros, Token, tokens_of};
use std::alloc::Global;
use std::process::Abort;
use std::test::Fail;

pub fn tokens(rt: &impl Abort, alloc: Global, text: &str) -> Result<Vec<Token>, Fail> {
    let text = List::of(Vec::from_slice(alloc, text.as_bytes())?);
    assert!(rt; text.items().len() < 1000);
    let macros = Macros::new(alloc, &[])?;
    let mut found = Vec::new(alloc);
    for lexeme in tokens_of(alloc, text, 1, &macros)? {
        if let Lexeme::Token(token) = lexeme {
            found.push(token)?;
        }
    }
    Ok(found)
}
