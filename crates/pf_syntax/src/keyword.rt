//! Tables of keywords.
ghost use Rattle.std.specs.Prelude.{◌≡◌};
ghost use Rattle.pf_syntax.specs.KeyTable.{keys_of};
ghost use Rattle.pf_syntax.specs.Taking.{Takes};
ghost use Rattle.pf_syntax.specs.Words.{at_key, keyword, meaning_in};

use crate::cursor::Cursor;
use crate::fault::Stop;

/// A keyword, and what it stands for.
#[derive(Clone, Copy, Debug)]
pub struct Key<K>(pub &'static [u8], pub K);

/// What the first row with this word stands for.
pub fn find_key<K: Copy>(rows: &[Key<K>], word: &[u8]) -> Option<K>
    ensures { result ≡ meaning_in (keys_of rows.now) word.now }
{
    for Key(known, meaning) in rows {
        if word == *known {
            return Some(*meaning);
        }
    }
    None
}

/// Takes one of these keywords.
pub fn take_key<K: Copy>(rows: &[Key<K>], cursor: &mut Cursor) -> Result<K, Stop>
    ensures { Takes (keyword (keys_of rows.now)) cursor.old result cursor.new }
{
    match cursor.next_word() {
        None => Err(Stop::Outside),
        Some(word) => match find_key(rows, word) {
            None => Err(Stop::Outside),
            Some(meaning) => {
                cursor.pass();
                Ok(meaning)
            }
        },
    }
}

/// Whether one of these keywords stands next.
pub fn is_at_key<K: Copy>(rows: &[Key<K>], cursor: &Cursor) -> bool
    ensures { result ≡ at_key (keys_of rows.now) cursor.now }
{
    match cursor.next_word() {
        None => false,
        Some(word) => find_key(rows, word).is_some(),
    }
}
