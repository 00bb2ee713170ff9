//! What stands behind the first words of lines.
ghost use Rattle.std.specs.Prelude.{◌≡◌, Some};
ghost use Rattle.std.specs.Option.{option_and_then, option_copied};
ghost use Rattle.pf_script.specs.Command as says;
ghost use Rattle.pf_script.specs.Word as single;

use crate::command::Show;
use crate::keyword::{ShowWord, show_word_of};
use crate::single::{any_path_of, path_of, session_of};
use crate::words::Words;
use pf_base::{Name, Path};

// The one word that is left.
pub(crate) fn one_word<'a>(words: &mut Words<'a>) -> Option<&'a [u8]>
    ensures { option_copied result ≡ says.one_word words.old }
{
    let word = words.next_word()?;
    match words.next_word() {
        None => Some(word),
        Some(_) => None,
    }
}

// The name of a session, and nothing more.
pub(crate) fn session_alone(words: &mut Words) -> Option<Name>
    ensures { result ≡ option_and_then single.session_of (says.one_word words.old) }
{
    session_of(one_word(words)?)
}

// `rules` and a path, and nothing more.
pub(crate) fn read_flush(words: &mut Words) -> Option<Path>
    ensures { result ≡ says.flushed words.old }
{
    let what = words.next_word()?;
    if what != b"rules".as_slice() {
        return None;
    }
    path_of(one_word(words)?)
}

// Any path, and nothing more.
fn path_alone(words: &mut Words) -> Option<Path>
    ensures { result ≡ says.path_alone words.old }
{
    any_path_of(one_word(words)?)
}

// What is shown, where no word is left.
fn at_end(show: Show, words: &mut Words) -> Option<Show>
    ensures { result ≡ says.at_end show words.old }
{
    match words.next_word() {
        None => Some(show),
        Some(_) => None,
    }
}

// What is to be shown.
pub(crate) fn read_show(words: &mut Words) -> Option<Show>
    ensures { result ≡ says.show_of words.old }
{
    match show_word_of(words.next_word()?)? {
        ShowWord::Rules => Some(Show::Rules(path_alone(words)?)),
        ShowWord::Written => Some(Show::Written(path_alone(words)?)),
        ShowWord::Tables => Some(Show::Tables(path_alone(words)?)),
        ShowWord::Anchors => Some(Show::Anchors(path_alone(words)?)),
        ShowWord::Skips => Some(Show::Skips(path_alone(words)?)),
        ShowWord::Queues => at_end(Show::Queues, words),
        ShowWord::Options => at_end(Show::Options, words),
    }
}
