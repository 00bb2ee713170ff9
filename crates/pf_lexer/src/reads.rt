//! What one load reads: its files, numbered in the order of their first readings, and the bytes that it may still read.
ghost use Rattle.std.specs.Prelude.{◌≡◌, ◌<◌, ◌≤◌, ◌-◌, [], Some, length, slice_get, min, position, IfOk, IfSome, OnOk, OnErr};
ghost use Rattle.std.proofs.Common.{rules};
ghost use Rattle.std.specs.Cmp.Rules.{comparing, hashing};
ghost use Rattle.std.specs.Hash as fed;
ghost use Rattle.std.specs.Str.{bytes_eq};
ghost use Rattle.pf_source.specs.Asks.{Asks};
ghost use Rattle.pf_source.specs.Told.{Told, file_of};
ghost use Rattle.pf_lexer.specs.declared.reads.ReadsFault.TheVariants.{NoMemory as no_memory};
ghost use Rattle.pf_lexer.specs.Reads.{GoesOn, IfNamed, IfNumbered, IsLook, after_answer, failed_read, look_up, number_of, read_limit, with_name};

use indexmap::IndexSet;
use pf_base::{List, NoMemory, Text};
use pf_source::{Files, FilesFault};
use std::alloc::Global;
use std::hash::{Hash, Hasher};
use std::marker::Model;

/// The most bytes of one file.
const MOST: u64 = 4_194_304;

// The name of a file, as a key. Clauses see its bytes.
#[derive(Debug, Drop)]
struct FileName {
    text: Text,
}

impl Model for FileName {
    ghost use Rattle.std.specs.Prelude.{List, ℕ};

    ghost Value = { List ℕ };

    ghost view = { λ a. a.text };
}

impl PartialEq for FileName {
    ghost eq = { bytes_eq };

    ghost laws = { Prim.search (comparing, rules) };

    fn eq(&self, other: &FileName) -> bool {
        self.text.items() == other.text.items()
    }
}

impl Eq for FileName {
    ghost laws = { Prim.search (comparing, rules) };
}

impl Hash for FileName {
    ghost hash_input = { fed.slice fed.u8 };

    ghost respects_eq = { Prim.search (hashing, rules) };

    fn hash<H: Hasher>(&self, state: &mut H) {
        self.text.items().hash(state);
    }
}

// A copy of a file's name.
fn copy_of(alloc: Global, name: &Text) -> Result<FileName, NoMemory>
    ensures { IfOk result (λ copy. copy ≡ name.now) }
{
    let text = List::copy_of(alloc, name.items())?;
    Ok(FileName { text })
}

// The number of the name, which is added last where it is new.
fn number_name(names: &mut IndexSet<FileName>, name: FileName) -> Result<u64, NoMemory>
    ensures number { IfOk result (λ number. number ≡ number_of names.old.keys name) }
    ensures named { IfOk result (λ number. slice_get names.new.keys number ≡ Some name) }
    ensures added { OnOk result (names.new.keys ≡ with_name names.old.keys name) }
    ensures same { OnErr result (names.new.keys ≡ names.old.keys) }
{
    let (number, _) = names.insert_full(name)?;
    Ok(number as u64)
}

// The number of the name, where it has one.
fn position_of(names: &IndexSet<FileName>, name: &[u8]) -> Option<usize>
    ensures { result ≡ position (bytes_eq name.now) names.now.keys }
{
    names.iter().position(|file| name == file.text.items())
}

/// A file that was read.
#[derive(Debug, Drop)]
pub struct ReadFile {
    /// Its number, from 0, in the order in which the load first read its files.
    pub number: u64,
    /// All that it holds.
    pub text: Text,
}

/// Why a file wasn't read.
#[derive(Clone, Copy, Debug, PartialEq, Eq)]
pub enum ReadsFault {
    /// It is absent, or the read failed.
    Failed,
    /// It is longer than the limit; it has a number.
    TooLarge { number: u64 },
    /// No memory was found.
    NoMemory,
}

impl From<NoMemory> for ReadsFault {
    ghost from_gives = { λ _ fault. fault ≡ no_memory };

    fn from(_error: NoMemory) -> ReadsFault {
        ReadsFault::NoMemory
    }
}

/// The files of one load by name, each at the place of its first reading, which is its number; and how many bytes are
/// left to be read.
#[derive(Debug, Drop)]
pub struct Reads {
    names: IndexSet<FileName>,
    left: u64,
}

impl Model for Reads {
    ghost use Rattle.pf_lexer.specs.ReadSoFar.{ReadSoFar};

    ghost Value = { ReadSoFar };

    ghost view = { λ a. record { names = a.names.keys; left = a.left } };
}

impl Reads {
    /// No file has been read, and this many bytes may be.
    pub fn new(alloc: Global, left: u64) -> Reads
        ensures { result ≡ record { names = []; left = left } }
    {
        Reads {
            names: IndexSet::new(alloc),
            left,
        }
    }

    /// Reads a whole file of at most 4,194,304 bytes and at most the bytes that are left, which it takes. A new name
    /// gets the next number. `Failed` comes only where the files' count of faults rose, and changes nothing;
    /// `TooLarge` where the file is longer: its name has its number, and nothing is taken.
    pub fn read<F: Files>(
        &mut self,
        alloc: Global,
        files: &mut F,
        name: &Text,
    ) -> Result<ReadFile, ReadsFault>
        ensures look { Told (F.tells files.old).held (λ held. IsLook (look_up (file_of held) self.old name.now) result) }
        ensures after { self.new ≡ after_answer self.old name.now result }
        ensures number { IfNumbered (number_of self.old.names name.now) result }
        ensures named { IfNamed self.new.names name.now result }
        ensures grows { GoesOn self.old.names self.new.names }
        ensures within { IfOk result (λ file. length file.text ≤ read_limit self.old.left) }
        ensures asks { Asks (failed_read name.now result) (F.tells files.old) (F.tells files.new) }
    {
        let key = copy_of(alloc, name)?;
        let limit = MOST.min(self.left);
        match files.read(alloc, name, limit) {
            Ok(text) => {
                let number = number_name(&mut self.names, key)?;
                self.left -= text.items().len() as u64;
                Ok(ReadFile { number, text })
            }
            Err(FilesFault::TooLarge { .. }) => {
                let number = number_name(&mut self.names, key)?;
                Err(ReadsFault::TooLarge { number })
            }
            Err(FilesFault::Failed) => Err(ReadsFault::Failed),
            Err(FilesFault::NoMemory) => Err(ReadsFault::NoMemory),
        }
    }

    /// The number of the file with this name, or None where it has none.
    pub fn number(&self, name: &Text) -> Option<u64>
        ensures number { result ≡ position (bytes_eq name.now) self.now.names }
        ensures named { IfSome result (λ number. slice_get self.now.names number ≡ Some name.now) }
    {
        let number = position_of(&self.names, name.items())?;
        Some(number as u64)
    }

    /// How many files have a number.
    pub(crate) fn count(&self) -> u64
        ensures { result ≡ length self.now.names }
    {
        self.names.len() as u64
    }

    /// The name of the file with this number.
    pub fn name(&self, number: u64) -> &Text
        requires { number < length self.now.names }
        ensures { slice_get self.now.names number ≡ Some result.now }
    {
        &self.names[number as usize].text
    }
}
