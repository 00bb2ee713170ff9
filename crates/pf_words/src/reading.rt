//! Reading the words.
ghost use Rattle.std.specs.Prelude.{◌≡◌, ◌≢◌, Err, IfOk, None, Some, map, string_bytes, option_map};
ghost use Rattle.std.specs.List.{list_all};
ghost use Rattle.clap.specs.Words.{first_value, found_of, kind_of};
ghost use Rattle.pf_words.specs.Said.{given_by, is_visible, is_word, is_word_if_given, number_of, said_by, task_of, text_if, words_read};

use crate::command::command;
use crate::said::{LoadWords, Said, WordsFault};
use clap::error::ErrorKind;
use clap::{ArgMatches, Error};
use pf_base::text::decimal;
use std::alloc::Global;

// Is the byte one of 33 to 126?
fn is_visible_byte(byte: u8) -> bool
    ensures { result ≡ is_visible byte }
{
    (33..=126).contains(&byte)
}

// Has the text visible bytes alone?
fn is_visible_text(text: &[u8]) -> bool
    ensures { result ≡ list_all is_visible text.now }
{
    text.iter().all(|byte| is_visible_byte(*byte))
}

// Is it one or more visible bytes?
fn is_word(text: &str) -> bool
    ensures { result ≡ is_word text.now }
{
    !text.is_empty() && is_visible_text(text.as_bytes())
}

// Is the value a word, where one is given?
fn is_word_if_given(value: Option<&str>) -> bool
    ensures { result ≡ is_word_if_given (text_if value.entry) }
{
    match value {
        Some(text) => is_word(text),
        None => true,
    }
}

// The number of -g: 1 to 1000, without a leading zero.
fn number_of(text: &str) -> Option<u32>
    ensures { result ≡ number_of text.now }
{
    match text.as_bytes() {
        [b'0', ..] => None,
        digits => decimal(digits, 1_000),
    }
}

// The values as they were given.
#[derive(Clone, Copy)]
struct Values<'a> {
    file: Option<&'a str>,
    script: bool,
    generate: Option<&'a str>,
    hosts: Option<&'a str>,
    level: Option<&'a str>,
    path: Option<&'a str>,
    profile: Option<&'a str>,
    define: Option<&'a str>,
}

impl<'a> Values<'a> {
    ghost use Rattle.pf_words.specs.Said.{are_words, chosen, given_of, is_bare, load_of, load_words};

    // The values that clap found.
    fn found_in(matches: &ArgMatches<'a>) -> Values<'a>
        ensures { given_of result ≡ given_by (first_value (found_of matches.now)) }
    {
        Values {
            file: matches.get_str("file"),
            script: matches.get_str("script") == Some("true"),
            generate: matches.get_str("generate"),
            hosts: matches.get_str("hosts"),
            level: matches.get_str("level"),
            path: matches.get_str("path"),
            profile: matches.get_str("profile"),
            define: matches.get_str("define"),
        }
    }

    // Is each value a word?
    fn are_words(self) -> bool
        ensures { result ≡ are_words (given_of self.entry) }
    {
        is_word_if_given(self.file)
            && is_word_if_given(self.generate)
            && is_word_if_given(self.hosts)
            && is_word_if_given(self.level)
            && is_word_if_given(self.path)
            && is_word_if_given(self.profile)
            && is_word_if_given(self.define)
    }

    // Is no option of a load given?
    fn is_bare(self) -> bool
        ensures { result ≡ is_bare (given_of self.entry) }
    {
        self.hosts.is_none()
            && self.level.is_none()
            && self.path.is_none()
            && self.profile.is_none()
            && self.define.is_none()
    }

    // The words of a load of this file.
    fn load_words(self, file: &'a str) -> LoadWords<'a>
        ensures { load_of result ≡ load_words (given_of self.entry) file.now }
    {
        LoadWords {
            file,
            hosts: self.hosts,
            level: self.level,
            path: self.path,
            profile: self.profile,
            define: self.define,
        }
    }

    // What is chosen by them, whose values are words.
    fn chosen(self) -> Option<Said<'a>>
        ensures { option_map task_of result ≡ chosen (given_of self.entry) (given_of self.entry).file (given_of self.entry).script (given_of self.entry).generate }
    {
        match (self.file, self.script, self.generate) {
            (Some(file), false, None) => Some(Said::Load(self.load_words(file))),
            (None, true, None) if self.is_bare() => Some(Said::Script),
            (None, false, Some(text)) if self.is_bare() => Some(Said::Generate(number_of(text)?)),
            _ => None,
        }
    }

    // What they say.
    fn said(self) -> Option<Said<'a>>
        ensures { option_map task_of result ≡ said_by (given_of self.entry) }
    {
        if self.are_words() {
            self.chosen()
        } else {
            None
        }
    }
}

// What the values that clap found say.
fn said_in<'a>(matches: &ArgMatches<'a>) -> Result<Said<'a>, WordsFault>
    ensures read { IfOk result (λ said. said_by (given_by (first_value (found_of matches.now))) ≡ Some (task_of said)) }
    ensures refused { result ≡ Err WordsFault.Words → said_by (given_by (first_value (found_of matches.now))) ≡ None }
{
    match Values::found_in(matches).said() {
        Some(said) => Ok(said),
        None => Err(WordsFault::Words),
    }
}

// What clap's refusal says.
fn fault_of(error: &Error) -> WordsFault
    ensures { result ≡ WordsFault.Words → kind_of error.now ≢ ErrorKind.OutOfMemory }
{
    match error.kind() {
        ErrorKind::OutOfMemory => WordsFault::NoMemory,
        _ => WordsFault::Words,
    }
}

/// Reads the words behind the program's name (pfctl(8)). Words where clap refuses them, where not exactly one of -f, -S
/// and -g is given, where another option stands without -f, where a value is empty or has a byte outside 33 to 126, or
/// where that of -g isn't 1 to 1000 without a leading zero.
pub fn read_words<'a>(alloc: Global, words: &'a [String]) -> Result<Said<'a>, WordsFault>
    ensures read { IfOk result (λ said. words_read (map string_bytes words.now) ≡ Some (task_of said)) }
    ensures refused { result ≡ Err WordsFault.Words → words_read (map string_bytes words.now) ≡ None }
{
    let Ok(command) = command(alloc) else {
        return Err(WordsFault::NoMemory);
    };
    match command.try_get_matches_from(words) {
        Ok(matches) => said_in(&matches),
        Err(error) => Err(fault_of(&error)),
    }
}
