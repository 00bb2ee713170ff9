//! What a line does with a table (pfctl(8), Tables).
ghost use Rattle.std.specs.Prelude.{◌≡◌};
ghost use Rattle.pf_script.specs.Command as says;

use crate::command::{Command, TableAction};
use crate::keyword::{ActionWord, action_word_of};
use crate::single::{path_of, table_of};
use crate::words::Words;

// The words that are left, where there is one.
fn some_words<'a>(words: &mut Words<'a>) -> Option<Words<'a>>
    ensures { result ≡ says.some_words words.old }
{
    let all = words.left();
    match words.next_word() {
        None => None,
        Some(_) => Some(all),
    }
}

// What is done, where no word is left.
fn at_end<'a>(act: TableAction<'a>, words: &mut Words) -> Option<TableAction<'a>>
    ensures { result ≡ says.at_end act.entry words.old }
{
    match words.next_word() {
        None => Some(act),
        Some(_) => None,
    }
}

// What is to be done.
fn read_action<'a>(words: &mut Words<'a>) -> Option<TableAction<'a>>
    ensures { result ≡ says.action_of words.old }
{
    match action_word_of(words.next_word()?)? {
        ActionWord::Add => Some(TableAction::Add(some_words(words)?)),
        ActionWord::Delete => Some(TableAction::Delete(some_words(words)?)),
        ActionWord::Replace => Some(TableAction::Replace(some_words(words)?)),
        ActionWord::Flush => at_end(TableAction::Flush, words),
        ActionWord::Show => at_end(TableAction::Show, words),
        ActionWord::Test => Some(TableAction::Test(some_words(words)?)),
    }
}

// A path, a table's name, and what is to be done with it.
pub(crate) fn read_table<'a>(words: &mut Words<'a>) -> Option<Command<'a>>
    ensures { result ≡ says.table_line_of words.old }
{
    let path = words.next_word()?;
    let name = words.next_word()?;
    let act = read_action(words)?;
    Some(Command::Table(path_of(path)?, table_of(name)?, act))
}
