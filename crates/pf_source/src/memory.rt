//! Objects in memory, of which chosen calls fail.
ghost use Rattle.std.specs.Prelude.{◌≡◌, ◌≤◌, [], false, Some, take, min, length, find, option_copied, option_map, ◌==◌};
ghost use Rattle.std.specs.List.{list_any};
ghost use Rattle.pf_source.specs.Told.{file_among, is_none_at_all};
ghost use Rattle.pf_source.specs.Memory.{CopiesWithin, CountsFailure};
ghost use Rattle.pf_source.specs.Streams.{no_read};

use crate::fault::{Failed, FilesFault, SinkFault};
use crate::files::{Files, HeldFile};
use crate::sink::Sink;
use crate::source::{LastRead, Source};
use pf_base::{List, Text};
use std::alloc::{AllocError, Global};

/// Is the call with this number, from 1, one of those that are to fail?
fn is_failing(fail: &[u64], call: u64) -> bool
    ensures value { result ≡ list_any (λ number. number == call) fail.now }
    ensures none { fail.now ≡ [] → result ≡ false }
{
    fail.contains(&call)
}

/// The bytes of the first file with this name.
pub(crate) fn find_file<'a>(files: &'a [HeldFile], name: &[u8]) -> Option<&'a [u8]>
    ensures { option_copied result ≡ file_among files.now name.now }
{
    for file in files {
        if file.name.items() == name {
            return Some(file.bytes.items());
        }
    }
    None
}

/// A copy of the bytes, where they are no more than the limit.
pub(crate) fn copy_within(alloc: Global, bytes: &[u8], limit: u64) -> Result<Text, FilesFault>
    ensures { CopiesWithin bytes.now limit result }
{
    let seen = bytes.len() as u64;
    if seen > limit {
        return Err(FilesFault::TooLarge { seen });
    }
    let copy = Vec::from_slice(alloc, bytes)?;
    Ok(List::of(copy))
}

/// Files in memory. An absent name fails, and so do the calls whose numbers are given.
#[derive(Debug, Drop)]
pub struct MemoryFiles {
    content: List<HeldFile>,
    fail: List<u64>,
    calls: u64,
    faults: u64,
    failed: Vec<Text>,
}

impl MemoryFiles {
    ghost use Rattle.pf_source.specs.Calls.{files_calls};

    /// Files with this content, of which the reads with these numbers, from 1, are to fail.
    /// A later file of a name that stands before is never read.
    pub fn new(alloc: Global, content: Vec<HeldFile>, fail: Vec<u64>) -> MemoryFiles
        ensures told { ⟦<MemoryFiles as Files>⟧.tells result ≡ record { held = Some (record { files = content.items; sure = false }); steady = is_none_at_all fail.items; faults = 0; failed = Some [] } }
        ensures calls { files_calls result ≡ record { made = 0; fail = fail.items } }
    {
        MemoryFiles {
            content: List::of(content),
            fail: List::of(fail),
            calls: 0,
            faults: 0,
            failed: Vec::new(alloc),
        }
    }

    /// The names of the reads that failed, in order.
    pub fn failed(&self) -> &[Text]
        ensures { (⟦<MemoryFiles as Files>⟧.tells self.now).failed ≡ Some result.now }
    {
        self.failed.as_slice()
    }

    // Counts a failed read, with its name.
    fn fail_read(&mut self, alloc: Global, name: &[u8]) -> Result<Text, FilesFault>
        ensures same { (self.new.content ≡ self.old.content) × (self.new.fail ≡ self.old.fail) }
        ensures calls { self.new.calls ≡ self.old.calls }
        ensures counted { CountsFailure name.now result self.old.faults self.new.faults self.old.failed.items self.new.failed.items }
    {
        let name = Vec::from_slice(alloc, name)?;
        self.failed.push(List::of(name)).map_err(AllocError::from)?;
        self.faults = self.faults.saturating_add(1);
        Err(FilesFault::Failed)
    }
}

impl Files for MemoryFiles {
    ghost use Rattle.std.specs.Prelude.{◌≡◌, ◌≤◌, length, IfOk, Some};
    ghost use Rattle.pf_source.specs.Asks.{Asks};
    ghost use Rattle.pf_source.specs.Told.{Told, file_of};
    ghost use Rattle.pf_source.specs.Files.{IfTooLarge, failed_names};
    ghost use Rattle.pf_source.specs.Calls.{FailsWhere, and_one, files_calls, files_told, is_read_to_fail};

    ghost tells = { files_told };

    /// Its call fails exactly where its number is one of those that are to fail, or where the name is absent.
    fn read(&mut self, alloc: Global, name: &Text, limit: u64) -> Result<Text, FilesFault>
        ensures content { IfOk result (λ text. Told (files_told self.old).held (λ held. file_of held name.now ≡ Some text)) }
        ensures within { IfOk result (λ text. length text ≤ limit) }
        ensures too_large { IfTooLarge (files_told self.old) name.now limit result }
        ensures asks { Asks (failed_names name.now result) (files_told self.old) (files_told self.new) }
        ensures counted { files_calls self.new ≡ and_one (files_calls self.old) }
        ensures fails { FailsWhere (is_read_to_fail self.old name.now) result }
    {
        self.calls = self.calls.saturating_add(1);
        let fails = is_failing(self.fail.items(), self.calls);
        let found = if fails {
            None
        } else {
            find_file(self.content.items(), name.items())
        };
        match found {
            Some(bytes) => copy_within(alloc, bytes, limit),
            None => self.fail_read(alloc, name.items()),
        }
    }
}

/// An input in memory, of which the reads with chosen numbers fail.
#[derive(Debug, Drop)]
pub struct MemorySource {
    content: Text,
    at: usize,
    fail: List<u64>,
    calls: u64,
    faults: u64,
    last: LastRead,
    ghost inside: { at ≤ length content },
}

impl MemorySource {
    ghost use Rattle.pf_source.specs.Calls.{source_calls};

    /// An input with this content, of which the reads with these numbers, from 1, are to fail.
    pub fn new(content: Text, fail: Vec<u64>) -> MemorySource
        ensures told { ⟦<MemorySource as Source>⟧.tells result ≡ record { left = Some content; given = 0; faults = 0; last = no_read } }
        ensures calls { source_calls result ≡ record { made = 0; fail = fail.items } }
    {
        MemorySource {
            content,
            at: 0,
            fail: List::of(fail),
            calls: 0,
            faults: 0,
            last: LastRead::none(),
        }
    }
}

impl Source for MemorySource {
    ghost use Rattle.std.specs.Prelude.{◌≡◌, ◌+◌, ◌<◌, ◌≤◌, length, take, IfOk, OnErr};
    ghost use Rattle.std.specs.Io.KnownBytes.{Consumes, IsAtEnd, Keeps};
    ghost use Rattle.pf_source.specs.Causes.{RoseBy};
    ghost use Rattle.pf_source.specs.Streams.{after_read, count_given, read_failures};
    ghost use Rattle.pf_source.specs.Calls.{and_one, is_failed, is_next_to_fail, source_calls, source_told};

    ghost tells = { source_told };

    /// Its call fails exactly where its number is one of those that are to fail.
    fn read(&mut self, buf: &mut [u8]) -> Result<usize, Failed>
        ensures within { IfOk result (λ n. n ≤ length buf.old) }
        ensures bytes { IfOk result (λ n. Consumes (source_told self.old).left (source_told self.new).left (take n buf.new)) }
        ensures end { IfOk result (λ n. n ≡ 0 → 0 < length buf.old → IsAtEnd (source_told self.new).left) }
        ensures given { (source_told self.new).given ≡ (source_told self.old).given + count_given result }
        ensures last { (source_told self.new).last ≡ after_read (source_told self.old).last (count_given result) }
        ensures err { OnErr result (Keeps (source_told self.old).left (source_told self.new).left) }
        ensures faults { RoseBy (read_failures result) (source_told self.old).faults (source_told self.new).faults }
        ensures counted { source_calls self.new ≡ and_one (source_calls self.old) }
        ensures fails { is_failed result ≡ is_next_to_fail (source_calls self.old) }
    {
        self.calls = self.calls.saturating_add(1);
        if is_failing(self.fail.items(), self.calls) {
            self.faults = self.faults.saturating_add(1);
            self.last = self.last.after(0);
            return Err(Failed);
        }
        let count = copy_front(&self.content.items()[self.at..], buf);
        self.at += count;
        self.last = self.last.after(count);
        Ok(count)
    }
}

/// Copies as many bytes as fit into the front of `buf`, and says how many.
pub(crate) fn copy_front(from: &[u8], buf: &mut [u8]) -> usize
    ensures count { result ≡ min (length from.now) (length buf.old) }
    ensures bytes { take result buf.new ≡ take result from.now }
{
    let count = from.len().min(buf.len());
    buf[..count].copy_from_slice(&from[..count]);
    count
}

/// The number of a write that is to fail, from 1, and how many bytes it still takes.
#[derive(Clone, Copy, Debug, PartialEq, Eq)]
pub struct FailedWrite {
    /// Which write, from 1.
    pub call: u64,
    /// How many bytes of its piece it still takes, at most the piece.
    pub taken: u64,
}

/// An output in memory, of which the writes with chosen numbers fail.
#[derive(Debug, Drop)]
pub struct MemorySink {
    written: Vec<u8>,
    fail: List<FailedWrite>,
    calls: u64,
    faults: u64,
}

impl MemorySink {
    ghost use Rattle.pf_source.specs.Calls.{sink_calls};

    /// An empty output, of which these writes are to fail.
    pub fn new(alloc: Global, fail: Vec<FailedWrite>) -> MemorySink
        ensures told { ⟦<MemorySink as Sink>⟧.tells result ≡ record { written = Some []; calls = 0; faults = 0 } }
        ensures calls { sink_calls result ≡ record { made = 0; fail = fail.items } }
    {
        MemorySink {
            written: Vec::new(alloc),
            fail: List::of(fail),
            calls: 0,
            faults: 0,
        }
    }

    /// The bytes that were written.
    pub fn written(&self) -> &[u8]
        ensures { (⟦<MemorySink as Sink>⟧.tells self.now).written ≡ Some result.now }
    {
        self.written.as_slice()
    }

    // How many bytes the write of this number takes, where it is to fail.
    fn cut_of(&self, call: u64) -> Option<u64>
        ensures { result ≡ option_map (λ write. write.taken) (find (λ write. write.call == call) self.now.fail) }
    {
        for write in self.fail.items() {
            if write.call == call {
                return Some(write.taken);
            }
        }
        None
    }
}

impl Sink for MemorySink {
    ghost use Rattle.std.specs.Prelude.{◌≡◌, OnOk};
    ghost use Rattle.std.specs.Io.KnownBytes.{Appends};
    ghost use Rattle.pf_source.specs.Causes.{CountsOn, RoseBy};
    ghost use Rattle.pf_source.specs.Streams.{IfCutShort, IfNotWritten, write_failures};
    ghost use Rattle.pf_source.specs.Calls.{WritesUnless, and_one, next_failing, sink_calls, sink_told};

    ghost tells = { sink_told };

    /// Its call fails exactly where its number is one of those that are to fail, and takes as many bytes as that
    /// one still takes, at most the piece. Of two failing writes of one number the first counts.
    fn write(&mut self, piece: &[u8]) -> Result<(), SinkFault>
        ensures ok { OnOk result (Appends (sink_told self.old).written (sink_told self.new).written piece.now) }
        ensures failed { IfCutShort result (sink_told self.old).written (sink_told self.new).written piece.now }
        ensures no_memory { IfNotWritten result (sink_told self.old).written (sink_told self.new).written }
        ensures calls { CountsOn 1 (sink_told self.old).calls (sink_told self.new).calls }
        ensures faults { RoseBy (write_failures result) (sink_told self.old).faults (sink_told self.new).faults }
        ensures counted { sink_calls self.new ≡ and_one (sink_calls self.old) }
        ensures fails { WritesUnless (next_failing (sink_calls self.old)) piece.now (sink_told self.old).written (sink_told self.new).written result }
    {
        self.calls = self.calls.saturating_add(1);
        let Some(taken) = self.cut_of(self.calls) else {
            self.written.extend_from_slice(piece)?;
            return Ok(());
        };
        let front = front_of(piece, taken);
        self.written.extend_from_slice(front)?;
        self.faults = self.faults.saturating_add(1);
        Err(SinkFault::Failed)
    }
}

// As many bytes of the piece as it has, at most `taken`.
fn front_of(piece: &[u8], taken: u64) -> &[u8]
    ensures { result.now ≡ take (min taken (length piece.now)) piece.now }
{
    let count = taken.min(piece.len() as u64);
    &piece[..count as usize]
}
