//! The entries of a table's file (pf.conf(5), TABLES, file).
ghost use Rattle.std.specs.Prelude.{◌≡◌, ◌<◌, ◌-◌, ◌^◌, ◌∷◌, [], length, map, OnOk, IfSome, IfNone, not, position};
ghost use Rattle.std.specs.List.{list_any};
ghost use Rattle.pf_entries.specs.FileWords as says;
ghost use Rattle.pf_entries.specs.FileWords.{unsigned, visible, words_in};
ghost use Rattle.pf_entries.specs.Tables.{Gathers, file_in, line_at, word_at};
ghost use Rattle.pf_host.specs.Facts.{HostFacts};

use crate::gathered::{Gathered, add_entry, add_fault};
use pf_addr::parse_prefix;
use pf_base::text::next_line;
use pf_base::{FaultKind, NoMemory, Place};
use pf_lexer::ReadFile;
use pf_word::mask_fault;

// A space, a tab or a carriage return.
fn is_gap(byte: u8) -> bool
    ensures { result ≡ says.is_gap byte }
{
    byte == b' ' || byte == b'\t' || byte == b'\r'
}

// A byte that may stand in comments alone.
fn is_bad(byte: u8) -> bool
    ensures { result ≡ says.is_bad byte }
{
    !(is_gap(byte) || (33 <= byte && byte <= 126))
}

fn has_bad(line: &[u8]) -> bool
    ensures { result ≡ list_any says.is_bad line.now }
{
    line.iter().any(|byte| is_bad(*byte))
}

// Where a comment begins.
fn place_of_hash(line: &[u8]) -> Option<usize>
    ensures { result ≡ position says.is_hash line.now }
{
    line.iter().position(|byte| *byte == b'#')
}

// A line without its comment.
fn visible(line: &[u8]) -> &[u8]
    ensures { result.now ≡ visible line.now }
{
    match place_of_hash(line) {
        None => line,
        Some(end) => &line[..end],
    }
}

fn place_of_gap(text: &[u8]) -> Option<usize>
    ensures { result ≡ position says.is_gap text.now }
{
    text.iter().position(|byte| is_gap(*byte))
}

fn place_of_word(text: &[u8]) -> Option<usize>
    ensures { result ≡ position (λ byte. not (says.is_gap byte)) text.now }
{
    text.iter().position(|byte| !is_gap(*byte))
}

// The first word, and what stands behind it; None where no word is left.
fn next_word(text: &[u8]) -> Option<(&[u8], &[u8])>
    ensures word { IfSome result (λ cut. words_in text.now ≡ cut.0.now ∷ words_in cut.1.now) }
    ensures some { IfSome result (λ cut. 0 < length cut.0.now) }
    ensures shorter { IfSome result (λ cut. length cut.1.now < length text.now) }
    ensures none { IfNone result (words_in text.now ≡ []) }
{
    let start = place_of_word(text)?;
    let word = &text[start..];
    match place_of_gap(word) {
        None => Some((word, &[])),
        Some(end) => Some((&word[..end], &word[end..])),
    }
}

// Whether a `!` stands right before something, and what stands behind it.
fn without_sign(text: &[u8]) -> (bool, &[u8])
    ensures value { unsigned text.now ≡ record { negated = result.0; word = result.1.now } }
    ensures some { 0 < length text.now → 0 < length result.1.now }
{
    if text.len() > 1 && text[0] == b'!' {
        (true, &text[1..])
    } else {
        (false, text)
    }
}

// Adds what a word means.
fn add_word(gathered: &mut Gathered, text: &[u8], place: Place) -> Result<(), NoMemory>
    requires { 0 < length text.now }
    ensures { OnOk result ((facts : HostFacts) → Gathers facts (word_at place text.now ∷ []) gathered.old gathered.new) }
{
    let (negated, word) = without_sign(text);
    match parse_prefix(word) {
        Ok(prefix) => add_entry(gathered, &prefix, negated, place),
        Err(fault) => {
            add_fault(gathered, mask_fault(word, fault), place);
            Ok(())
        }
    }
}

// Adds what the words of a line mean.
fn add_words(gathered: &mut Gathered, line: &[u8], place: Place) -> Result<(), NoMemory>
    ensures { OnOk result ((facts : HostFacts) → Gathers facts (map (word_at place) (words_in line.now)) gathered.old gathered.new) }
{
    let mut rest = line;
    while let Some((word, behind)) = next_word(rest) {
        add_word(gathered, word, place)?;
        rest = behind;
    }
    Ok(())
}

// Adds what a line means.
fn add_line(gathered: &mut Gathered, line: &[u8], place: Place) -> Result<(), NoMemory>
    ensures { OnOk result ((facts : HostFacts) → Gathers facts (line_at place line.now) gathered.old gathered.new) }
{
    let line = visible(line);
    if has_bad(line) {
        add_fault(gathered, FaultKind::BadByte, place);
    }
    add_words(gathered, line, place)
}

/// Adds what a file means.
pub(crate) fn add_file(gathered: &mut Gathered, file: &ReadFile) -> Result<(), NoMemory>
    requires { length file.now.text < 2 ^ 32 - 1 }
    ensures { OnOk result ((facts : HostFacts) → Gathers facts (file_in file.now) gathered.old gathered.new) }
{
    let mut rest = file.text.items();
    let mut line = 0;
    while let Some((text, behind)) = next_line(rest) {
        line += 1;
        let place = Place {
            file: file.number,
            line,
        };
        add_line(gathered, text, place)?;
        rest = behind;
    }
    Ok(())
}
