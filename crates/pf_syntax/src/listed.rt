//! Lists of words.
ghost use Rattle.std.specs.Prelude.{◌≡◌};
ghost use Rattle.pf_syntax.specs.Fault.{is_one_of};
ghost use Rattle.pf_syntax.specs.LeftOut.{texts_of};

/// A word of a list.
#[derive(Clone, Copy, Debug)]
pub struct Listed(pub &'static [u8]);

/// Whether it is one of these words. Takes no memory.
pub fn is_one_of(words: &[Listed], word: &[u8]) -> bool
    ensures { result ≡ is_one_of (texts_of words.now) word.now }
{
    for Listed(known) in words {
        if word == *known {
            return true;
        }
    }
    false
}
