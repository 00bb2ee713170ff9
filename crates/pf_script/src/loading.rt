//! OPTS FILE: what a line that loads says.
ghost use Rattle.std.specs.Prelude.{◌≡◌, IfOk};
ghost use Rattle.pf_script.specs.Options.{load_line_of};

use crate::command::LoadLine;
use crate::given::Given;
use crate::words::Words;
use pf_base::NoMemory;
use std::alloc::Global;

// How these words load a file; None where they have no such form.
pub(crate) fn read_load(alloc: Global, words: &mut Words) -> Result<Option<LoadLine>, NoMemory>
    ensures { IfOk result (λ line. line ≡ load_line_of words.old) }
{
    let mut given = Given::new(alloc);
    while let Some(word) = words.next_word() {
        let Some(value) = words.next_word() else {
            return given.line_of(alloc, word);
        };
        if !given.add(alloc, word, value)? {
            return Ok(None);
        }
    }
    Ok(None)
}
