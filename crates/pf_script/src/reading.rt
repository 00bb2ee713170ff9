//! Reads a line of a script.
ghost use Rattle.std.specs.Prelude.{◌≡◌, [], IfOk, Some};
ghost use Rattle.pf_script.specs.Command as says;

use crate::action::read_table;
use crate::command::Command;
use crate::keyword::{Keyword, keyword_of};
use crate::line::{one_word, read_flush, read_show, session_alone};
use crate::loading::read_load;
use crate::single::{file_of, is_plain, session_of, skip_blanks, skip_word};
use crate::words::{Record, Words};
use pf_base::{List, NoMemory};
use std::alloc::Global;

// A session's name, and how its file is loaded.
fn read_open<'a>(alloc: Global, words: &mut Words<'a>) -> Result<Option<Command<'a>>, NoMemory>
    ensures { IfOk result (λ command. command ≡ says.open_of words.old) }
{
    let Some(word) = words.next_word() else {
        return Ok(None);
    };
    let Some(name) = session_of(word) else {
        return Ok(None);
    };
    match read_load(alloc, words)? {
        None => Ok(None),
        Some(line) => Ok(Some(Command::Open(name, line))),
    }
}

// The file of the host facts.
fn read_hosts<'a>(alloc: Global, words: &mut Words<'a>) -> Result<Option<Command<'a>>, NoMemory>
    ensures { IfOk result (λ command. command ≡ says.command_with (Some Keyword.Hosts) words.old []) }
{
    let Some(word) = one_word(words) else {
        return Ok(None);
    };
    match file_of(word) {
        None => Ok(None),
        Some(file) => Ok(Some(Command::Hosts(List::copy_of(alloc, file)?))),
    }
}

// The record of a `test` line.
fn read_test<'a>(line: &'a [u8]) -> Option<Command<'a>>
    ensures { result ≡ says.test_of (says.behind_first_word line.now) }
{
    let text = skip_blanks(skip_word(skip_blanks(line)));
    match text {
        [] => None,
        [_, ..] => Some(Command::Test(Record::of(text))),
    }
}

// How a file is loaded at once.
fn read_load_line<'a>(alloc: Global, words: &mut Words<'a>) -> Result<Option<Command<'a>>, NoMemory>
    ensures { IfOk result (λ command. command ≡ says.command_with (Some Keyword.Load) words.old []) }
{
    match read_load(alloc, words)? {
        None => Ok(None),
        Some(line) => Ok(Some(Command::Load(line))),
    }
}

// How a file would be loaded.
fn read_check<'a>(alloc: Global, words: &mut Words<'a>) -> Result<Option<Command<'a>>, NoMemory>
    ensures { IfOk result (λ command. command ≡ says.command_with (Some Keyword.Check) words.old []) }
{
    match read_load(alloc, words)? {
        None => Ok(None),
        Some(line) => Ok(Some(Command::Check(line))),
    }
}

// The session that is committed.
fn read_commit<'a>(words: &mut Words<'a>) -> Option<Command<'a>>
    ensures { result ≡ says.command_with (Some Keyword.Commit) words.old [] }
{
    Some(Command::Commit(session_alone(words)?))
}

// The session that is given up.
fn read_rollback<'a>(words: &mut Words<'a>) -> Option<Command<'a>>
    ensures { result ≡ says.command_with (Some Keyword.Rollback) words.old [] }
{
    Some(Command::Rollback(session_alone(words)?))
}

// The ruleset that is flushed.
fn read_flush_line<'a>(words: &mut Words<'a>) -> Option<Command<'a>>
    ensures { result ≡ says.command_with (Some Keyword.Flush) words.old [] }
{
    Some(Command::Flush(read_flush(words)?))
}

// What is shown.
fn read_show_line<'a>(words: &mut Words<'a>) -> Option<Command<'a>>
    ensures { result ≡ says.command_with (Some Keyword.Show) words.old [] }
{
    Some(Command::Show(read_show(words)?))
}

// The command of a keyword and the words behind it.
fn read_behind<'a>(
    alloc: Global,
    keyword: Keyword,
    words: &mut Words<'a>,
    line: &'a [u8],
) -> Result<Option<Command<'a>>, NoMemory>
    ensures { IfOk result (λ command. command ≡ says.command_with (Some keyword) words.old (says.behind_first_word line.now)) }
{
    match keyword {
        Keyword::Load => read_load_line(alloc, words),
        Keyword::Check => read_check(alloc, words),
        Keyword::Open => read_open(alloc, words),
        Keyword::Commit => Ok(read_commit(words)),
        Keyword::Rollback => Ok(read_rollback(words)),
        Keyword::Flush => Ok(read_flush_line(words)),
        Keyword::Table => Ok(read_table(words)),
        Keyword::Show => Ok(read_show_line(words)),
        Keyword::Hosts => read_hosts(alloc, words),
        Keyword::Test => Ok(read_test(line)),
    }
}

/// The command that a line says (pfctl(8)); None exactly where the line has no form of one.
#[tactic(auto, unfolding(crate::specs::Command::command_of))]
pub fn read_command<'a>(alloc: Global, line: &'a [u8]) -> Result<Option<Command<'a>>, NoMemory>
    ensures { IfOk result (λ command. command ≡ says.command_of line.now) }
{
    if !is_plain(line) {
        return Ok(None);
    }
    let mut words = Words::of(line);
    let Some(word) = words.next_word() else {
        return Ok(None);
    };
    match keyword_of(word) {
        None => Ok(None),
        Some(keyword) => read_behind(alloc, keyword, &mut words, line),
    }
}
