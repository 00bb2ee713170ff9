//! The options of a line that loads, laid one on another as they are read.
ghost use Rattle.std.specs.Prelude.{◌≡◌, IfOk};
ghost use Rattle.std.specs.Option.{option_map};
ghost use Rattle.pf_script.specs.Options as says;
ghost use Rattle.pf_script.specs.Word as words;

use crate::command::LoadLine;
use crate::define::read_definition;
use crate::keyword::{Flag, flag_of};
use crate::single::{file_of, level_of, path_of};
use pf_base::{Level, List, Name, NoMemory, Path, Text};
use pf_token::Define;
use std::alloc::Global;

/// A line may define this many macros.
const MOST_DEFINES: usize = 32;

// What options say together.
#[derive(Drop)]
pub(crate) struct Given {
    pub level: Option<Level>,
    pub path: Option<Path>,
    pub profile: Option<Text>,
    pub defines: List<Define>,
}

// Is a macro of this name among them?
fn has_name(name: &Name, defines: &[Define]) -> bool
    ensures { result ≡ says.has_name name.now defines.now }
{
    defines.iter().any(|other| *name == other.name)
}

impl Given {
    ghost use Rattle.pf_script.specs.Laying.{laid_on, nothing_given, where_laid, with_define, with_level, with_path, with_profile};

    // No option.
    pub(crate) fn new(alloc: Global) -> Given
        ensures { result ≡ nothing_given }
    {
        Given {
            level: None,
            path: None,
            profile: None,
            defines: List::new(alloc),
        }
    }

    // Lays on a level; false where one is given already.
    fn set_level(&mut self, level: Level) -> bool
        ensures { with_level self.old level ≡ where_laid result self.new }
    {
        if self.level.is_some() {
            return false;
        }
        self.level = Some(level);
        true
    }

    // Lays on a path; false where one is given already.
    fn set_path(&mut self, path: Path) -> bool
        ensures { with_path self.old path ≡ where_laid result self.new }
    {
        if self.path.is_some() {
            return false;
        }
        self.path = Some(path);
        true
    }

    // Lays on a profile; false where one is given already.
    fn set_profile(&mut self, alloc: Global, file: &[u8]) -> Result<bool, NoMemory>
        ensures { IfOk result (λ laid. with_profile self.old file.now ≡ where_laid laid self.new) }
    {
        if self.profile.is_some() {
            return Ok(false);
        }
        self.profile = Some(List::copy_of(alloc, file)?);
        Ok(true)
    }

    // Lays on a macro; false where its name is given already, or there is no room for one.
    fn add_define(&mut self, define: Define) -> Result<bool, NoMemory>
        ensures { IfOk result (λ laid. with_define self.old define ≡ where_laid laid self.new) }
    {
        let defines = self.defines.items();
        if defines.len() >= MOST_DEFINES || has_name(&define.name, defines) {
            return Ok(false);
        }
        self.defines.push(define)?;
        Ok(true)
    }

    // Lays on the option of these two words; false where they are none, or it may not stand.
    pub(crate) fn add(&mut self, alloc: Global, word: &[u8], value: &[u8]) -> Result<bool, NoMemory>
        ensures { IfOk result (λ laid. laid_on self.old (says.option_of word.now value.now) ≡ where_laid laid self.new) }
    {
        match flag_of(word) {
            None => Ok(false),
            Some(Flag::Level) => match level_of(value) {
                None => Ok(false),
                Some(level) => Ok(self.set_level(level)),
            },
            Some(Flag::Path) => match path_of(value) {
                None => Ok(false),
                Some(path) => Ok(self.set_path(path)),
            },
            Some(Flag::Profile) => match file_of(value) {
                None => Ok(false),
                Some(file) => self.set_profile(alloc, file),
            },
            Some(Flag::Define) => match read_definition(alloc, value)? {
                None => Ok(false),
                Some(define) => self.add_define(define),
            },
        }
    }

    // The line that loads this file.
    fn into_line(self, file: Text) -> LoadLine
        ensures { result ≡ says.line_with file self }
    {
        LoadLine {
            level: self.level,
            path: self.path.unwrap_or(Path::main()),
            profile: self.profile,
            defines: self.defines,
            file,
        }
    }

    // The line that loads the file of this word, where it names one.
    pub(crate) fn line_of(self, alloc: Global, word: &[u8]) -> Result<Option<LoadLine>, NoMemory>
        ensures { IfOk result (λ line. line ≡ option_map (λ file. says.line_with file self) (words.file_of word.now)) }
    {
        match file_of(word) {
            None => Ok(None),
            Some(file) => Ok(Some(self.into_line(List::copy_of(alloc, file)?))),
        }
    }
}
