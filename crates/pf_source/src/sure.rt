//! Objects in memory that never fail.
ghost use Rattle.std.specs.Prelude.{◌≡◌, ◌≤◌, [], true, Some, drop, length};
ghost use Rattle.pf_source.specs.Streams.{no_read};

use crate::fault::{Failed, FilesFault, SinkFault};
use crate::files::{Files, HeldFile};
use crate::memory::{copy_front, copy_within, find_file};
use crate::sink::Sink;
use crate::source::{LastRead, Source};
use pf_base::{List, Text};
use std::alloc::Global;

/// Files in memory that never fail: an absent name is the empty file.
#[derive(Debug, Drop)]
pub struct SureFiles {
    content: List<HeldFile>,
}

impl SureFiles {
    /// Files with this content. A later file of a name that stands before is never read.
    pub fn new(content: Vec<HeldFile>) -> SureFiles
        ensures { ⟦<SureFiles as Files>⟧.tells result ≡ record { held = Some (record { files = content.items; sure = true }); steady = true; faults = 0; failed = Some [] } }
    {
        SureFiles {
            content: List::of(content),
        }
    }
}

impl Files for SureFiles {
    ghost tells = { λ files. record { held = Some (record { files = files.content; sure = true }); steady = true; faults = 0; failed = Some [] } };

    fn read(&mut self, alloc: Global, name: &Text, limit: u64) -> Result<Text, FilesFault> {
        match find_file(self.content.items(), name.items()) {
            Some(bytes) => copy_within(alloc, bytes, limit),
            None => Ok(List::of(Vec::new(alloc))),
        }
    }
}

/// An input in memory that never fails.
#[derive(Debug, Drop)]
pub struct SureSource {
    content: Text,
    at: usize,
    last: LastRead,
    ghost inside: { at ≤ length content },
}

impl SureSource {
    /// An input with this content.
    pub fn new(content: Text) -> SureSource
        ensures { ⟦<SureSource as Source>⟧.tells result ≡ record { left = Some content; given = 0; faults = 0; last = no_read } }
    {
        SureSource {
            content,
            at: 0,
            last: LastRead::none(),
        }
    }
}

impl Source for SureSource {
    ghost tells = { λ source. record { left = Some (drop source.at source.content); given = source.at; faults = 0; last = source.last } };

    /// It always answers.
    fn read(&mut self, buf: &mut [u8]) -> Result<usize, Failed> {
        let count = copy_front(&self.content.items()[self.at..], buf);
        self.at += count;
        self.last = self.last.after(count);
        Ok(count)
    }
}

/// An output in memory that never fails but for memory.
#[derive(Debug, Drop)]
pub struct SureSink {
    written: Vec<u8>,
    calls: u64,
}

impl SureSink {
    /// An empty output.
    pub fn new(alloc: Global) -> SureSink
        ensures { ⟦<SureSink as Sink>⟧.tells result ≡ record { written = Some []; calls = 0; faults = 0 } }
    {
        SureSink {
            written: Vec::new(alloc),
            calls: 0,
        }
    }

    /// The bytes that were written.
    pub fn written(&self) -> &[u8]
        ensures { (⟦<SureSink as Sink>⟧.tells self.now).written ≡ Some result.now }
    {
        self.written.as_slice()
    }
}

impl Sink for SureSink {
    ghost tells = { λ sink. record { written = Some sink.written.items; calls = sink.calls; faults = 0 } };

    fn write(&mut self, piece: &[u8]) -> Result<(), SinkFault> {
        self.calls = self.calls.saturating_add(1);
        self.written.extend_from_slice(piece)?;
        Ok(())
    }
}
