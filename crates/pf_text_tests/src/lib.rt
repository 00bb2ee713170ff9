//! Tests of the crates that read texts: the statements of a unit with its includes and definitions, the parts and the whole of their
//! grammar, the lines of a script, the words of the program; and of the generator of a text. Each module has the tests of one crate,
//! of its public calls alone.
//! It stands on pf_lexer, pf_syntax, pf_form, pf_grammar, pf_decl, pf_script, pf_words and pf_gen, and on pf_base, pf_source and
//! pf_token, by which it makes what they read. It has no code of its own, and no layer stands on it: in the tested crates these tests
//! would have each of them proved a second time.
#![tactic(auto)]

#[cfg(test)]
mod decl;
#[cfg(test)]
mod form;
#[cfg(test)]
mod generator;
#[cfg(test)]
mod grammar;
#[cfg(test)]
mod lexer;
#[cfg(test)]
mod script;
#[cfg(test)]
mod syntax;
#[cfg(test)]
mod tokens;
#[cfg(test)]
mod words;
