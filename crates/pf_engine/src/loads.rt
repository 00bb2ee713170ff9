//! `load`, `check` and `open` lines: the profile is read first, then the file; what they come to is put in place, or refused.
ghost use Rattle.std.specs.Prelude.{◌≡◌, ◌+◌, ◌<◌, ◌≤◌, ◌-◌, ◌^◌, [], Ok, IfOk, OnErr, Some, None};
ghost use Rattle.pf_source.specs.Asks.{Asks};
ghost use Rattle.pf_source.specs.Disk.{without};
ghost use Rattle.pf_source.specs.Told.{Told, file_of};
ghost use Rattle.pf_runs.specs.Runs.{Answers};
ghost use Rattle.pf_engine.specs.Answering.{Adds, AsksFor, DoesSo, MayFail, is_refused};
ghost use Rattle.pf_engine.specs.LoadLines.{CheckDoes, Checking, FileComes, LineComes, LoadDoes, Loading, OpenDoes, Opening, ProfileReads, ProfileSays};
ghost use Rattle.pf_engine.specs.LoadLines as says;
ghost use Rattle.pf_engine.specs.FilesRead.{outage_in, read_as, unread_by};
ghost use Rattle.pf_engine.specs.Whatever.{FileMayCome, LineMayCome, OpensSome, ProfileMayCome, UsesSome};
ghost use Rattle.pf_state.specs.Sessions.{entry_refusal};

use crate::bounded::{Bounded, read_bounded};
use crate::engine::Engine;
use crate::outcome::Outcome;
use crate::telling::{refuse, reply_line, tell};
use pf_base::{Name, NoMemory, Text};
use pf_host::Facts;
use pf_load::{LoadFault, LoadOptions, load};
use pf_optim::{Profile, ProfileFault, read_profile};
use pf_reply::{Filled, Refusal, Reply};
use pf_script::LoadLine;
use pf_source::Files;
use pf_state::{Ready, Verdict, stage};
use std::alloc::Global;

/// What came of reading something of a line's files.
#[derive(Drop)]
pub(crate) enum Read<T> {
    /// This.
    Is(T),
    /// The line is refused.
    Refused(Refusal),
}

// The profile that a line names; without one no rule was used.
fn profile_of<F: Files>(
    alloc: Global,
    files: &mut F,
    name: Option<Text>,
) -> Result<Read<Profile>, NoMemory>
    ensures means { IfOk result (λ read. Told (F.tells files.old).held (λ held. ProfileReads (without (outage_in (read_as read)) (file_of held)) name (read_as read))) }
    ensures comes { IfOk result (λ read. ProfileMayCome name (read_as read)) }
    ensures asks { Asks (unread_by result) (F.tells files.old) (F.tells files.new) }
{
    let Some(name) = name else {
        return no_profile(alloc);
    };
    match read_bounded(alloc, files, &name)? {
        Bounded::Bytes(text) => profile_in(alloc, text.items()),
        Bounded::TooLarge => Ok(Read::Refused(Refusal::ProfileFault(0))),
        Bounded::Failed => Ok(Read::Refused(Refusal::CannotRead(name))),
    }
}

// The profile in which no row tells of anything.
fn no_profile(alloc: Global) -> Result<Read<Profile>, NoMemory>
    ensures none { IfOk result (λ read. read_as read ≡ Ok []) }
    ensures unread { unread_by result ≡ [] }
{
    profile_in(alloc, &[])
}

// The profile of a text.
fn profile_in(alloc: Global, text: &[u8]) -> Result<Read<Profile>, NoMemory>
    ensures says { IfOk result (λ read. ProfileSays text.now (read_as read)) }
    ensures unread { unread_by result ≡ [] }
{
    match read_profile(alloc, text) {
        Ok(profile) => Ok(Read::Is(profile)),
        Err(ProfileFault::Line(line)) => Ok(Read::Refused(Refusal::ProfileFault(line))),
        Err(ProfileFault::NoMemory) => Err(NoMemory),
    }
}

// What the files of a line come to: the profile first, then the load.
fn ready_of<F: Files>(
    alloc: Global,
    files: &mut F,
    facts: &Facts,
    line: LoadLine,
) -> Result<Read<Ready>, NoMemory>
    ensures means { IfOk result (λ read. Told (F.tells files.old).held (λ held. LineComes (without (outage_in (read_as read)) (file_of held)) facts.now line (read_as read))) }
    ensures comes { IfOk result (λ read. LineMayCome line (read_as read)) }
    ensures asks { Asks (unread_by result) (F.tells files.old) (F.tells files.new) }
{
    let LoadLine {
        level,
        path,
        profile,
        defines,
        file,
    } = line;
    let options = LoadOptions {
        level,
        path,
        defines,
    };
    match profile_of(alloc, files, profile)? {
        Read::Is(profile) => loaded_by(alloc, files, facts, &options, &file, &profile),
        Read::Refused(refusal) => Ok(Read::Refused(refusal)),
    }
}

// What the file of a line comes to, with a profile.
fn loaded_by<F: Files>(
    alloc: Global,
    files: &mut F,
    facts: &Facts,
    options: &LoadOptions,
    file: &Text,
    profile: &Profile,
) -> Result<Read<Ready>, NoMemory>
    ensures means { IfOk result (λ read. Told (F.tells files.old).held (λ held. FileComes (without (outage_in (read_as read)) (file_of held)) facts.now options.now file.now profile.now (read_as read))) }
    ensures comes { IfOk result (λ read. FileMayCome (read_as read)) }
    ensures asks { Asks (unread_by result) (F.tells files.old) (F.tells files.new) }
{
    match load(alloc, files, facts, options, file) {
        Ok(plan) => Ok(Read::Is(stage(alloc, plan, profile)?)),
        Err(LoadFault::File { kind, place, name }) => Ok(Read::Refused(Refusal::LoadFault {
            kind,
            file: name,
            line: place.line,
        })),
        Err(LoadFault::CannotRead { name }) => Ok(Read::Refused(Refusal::CannotRead(name))),
        Err(LoadFault::NoMemory) => Err(NoMemory),
    }
}

// How much a plan fills.
fn filled_of(ready: &Ready) -> Result<Filled, NoMemory>
    ensures { IfOk result (λ filled. filled ≡ says.filled_of ready.now) }
{
    let mut filled = Filled {
        rulesets: ready.parts.items().len() as u64,
        rules: 0,
        tables: 0,
    };
    for part in ready.parts.items() {
        let rules = part.rules.written().len() as u64;
        let tables = part.tables.items().len() as u64;
        filled.rules = filled.rules.checked_add(rules).ok_or(NoMemory)?;
        filled.tables = filled.tables.checked_add(tables).ok_or(NoMemory)?;
    }
    Ok(filled)
}

impl Engine {
    // A file is loaded, and its plan is put in place.
    pub(crate) fn load<F: Files>(
        &mut self,
        alloc: Global,
        files: &mut F,
        line: LoadLine,
        out: &mut Vec<u8>,
    ) -> Result<Outcome, NoMemory>
        requires next { self.old.next < 2 ^ 64 - 1 }
        ensures answers { IfOk result (λ outcome. Told (F.tells files.old).held (λ held. Adds out.old.items out.new.items (λ bytes.
            Answers (λ disk machine name does. LoadDoes disk machine line does) (file_of held) [] self.old (F.tells files.old) self.new (F.tells files.new) bytes (is_refused outcome)))) }
        ensures whatever { IfOk result (λ outcome. Adds out.old.items out.new.items (λ bytes. DoesSo (UsesSome line (Loading self.old)) self.new bytes (is_refused outcome))) }
        ensures asks { IfOk result (λ outcome. Adds out.old.items out.new.items (λ bytes. AsksFor self.old self.new (F.tells files.old) (F.tells files.new) bytes (is_refused outcome))) }
        ensures refused { result ≡ Ok Outcome.Refused → self.new ≡ self.old }
        ensures drawn { self.new.next ≤ self.old.next + 1 }
        ensures fails { OnErr result (MayFail (F.tells files.old) (F.tells files.new)) }
        ensures err { OnErr result (self.new ≡ self.old) }
        ensures silent { OnErr result (out.new.items ≡ out.old.items) }
    {
        let read = ready_of(alloc, files, &self.machine.facts, line)?;
        self.load_read(alloc, read, out)
    }

    // What was read is put in place, unless it was refused, or the tree as it would stand then has a refusal.
    fn load_read(
        &mut self,
        alloc: Global,
        read: Read<Ready>,
        out: &mut Vec<u8>,
    ) -> Result<Outcome, NoMemory>
        requires next { self.old.next < 2 ^ 64 - 1 }
        ensures answers { IfOk result (λ outcome. Adds out.old.items out.new.items (λ bytes. DoesSo (Loading self.old (read_as read)) self.new bytes (is_refused outcome))) }
        ensures err { OnErr result (self.new ≡ self.old) }
        ensures silent { OnErr result (out.new.items ≡ out.old.items) }
    {
        let ready = match read {
            Read::Is(ready) => ready,
            Read::Refused(refusal) => return refuse(alloc, out, &refusal),
        };
        match self.machine.judge_load(alloc, &ready)? {
            Verdict::Refused(refusal) => refuse(alloc, out, &refusal),
            Verdict::Fits(shelves) => {
                let line = reply_line(alloc, &Reply::Loaded(filled_of(&ready)?))?;
                self.machine.load(alloc, ready, shelves, &line, out)?;
                Ok(Outcome::Done)
            }
        }
    }

    // What a load would be told; nothing changes.
    pub(crate) fn check<F: Files>(
        &self,
        alloc: Global,
        files: &mut F,
        line: LoadLine,
        out: &mut Vec<u8>,
    ) -> Result<Outcome, NoMemory>
        ensures answers { IfOk result (λ outcome. Told (F.tells files.old).held (λ held. Adds out.old.items out.new.items (λ bytes.
            Answers (λ disk machine name does. CheckDoes disk machine line does) (file_of held) [] self.now (F.tells files.old) self.now (F.tells files.new) bytes (is_refused outcome)))) }
        ensures whatever { IfOk result (λ outcome. Adds out.old.items out.new.items (λ bytes. DoesSo (UsesSome line (Checking self.now)) self.now bytes (is_refused outcome))) }
        ensures asks { IfOk result (λ outcome. Adds out.old.items out.new.items (λ bytes. AsksFor self.now self.now (F.tells files.old) (F.tells files.new) bytes (is_refused outcome))) }
        ensures fails { OnErr result (MayFail (F.tells files.old) (F.tells files.new)) }
        ensures silent { OnErr result (out.new.items ≡ out.old.items) }
    {
        let read = ready_of(alloc, files, &self.machine.facts, line)?;
        self.check_read(alloc, read, out)
    }

    // What was read is judged.
    fn check_read(
        &self,
        alloc: Global,
        read: Read<Ready>,
        out: &mut Vec<u8>,
    ) -> Result<Outcome, NoMemory>
        ensures answers { IfOk result (λ outcome. Adds out.old.items out.new.items (λ bytes. DoesSo (Checking self.now (read_as read)) self.now bytes (is_refused outcome))) }
        ensures silent { OnErr result (out.new.items ≡ out.old.items) }
    {
        let ready = match read {
            Read::Is(ready) => ready,
            Read::Refused(refusal) => return refuse(alloc, out, &refusal),
        };
        match self.machine.judge_load(alloc, &ready)? {
            Verdict::Refused(refusal) => refuse(alloc, out, &refusal),
            Verdict::Fits(_shelves) => {
                let line = reply_line(alloc, &Reply::Checked(filled_of(&ready)?))?;
                tell(out, &line)?;
                Ok(Outcome::Done)
            }
        }
    }

    // A file is loaded, and its plan is kept in a session. No file is read where no session may be opened.
    pub(crate) fn open<F: Files>(
        &mut self,
        alloc: Global,
        files: &mut F,
        name: Name,
        line: LoadLine,
        out: &mut Vec<u8>,
    ) -> Result<Outcome, NoMemory>
        requires next { self.old.next < 2 ^ 64 - 1 }
        ensures answers { IfOk result (λ outcome. Told (F.tells files.old).held (λ held. Adds out.old.items out.new.items (λ bytes.
            Answers (λ disk machine _ does. OpenDoes disk machine name line does) (file_of held) [] self.old (F.tells files.old) self.new (F.tells files.new) bytes (is_refused outcome)))) }
        ensures whatever { IfOk result (λ outcome. Adds out.old.items out.new.items (λ bytes. DoesSo (OpensSome (entry_refusal self.old name) self.old name line) self.new bytes (is_refused outcome))) }
        ensures asks { IfOk result (λ outcome. Adds out.old.items out.new.items (λ bytes. AsksFor self.old self.new (F.tells files.old) (F.tells files.new) bytes (is_refused outcome))) }
        ensures refused { result ≡ Ok Outcome.Refused → self.new ≡ self.old }
        ensures drawn { self.new.next ≤ self.old.next + 1 }
        ensures fails { OnErr result (MayFail (F.tells files.old) (F.tells files.new)) }
        ensures err { OnErr result (self.new ≡ self.old) }
        ensures silent { OnErr result (out.new.items ≡ out.old.items) }
    {
        match self.machine.entry_refusal(&name) {
            Some(refusal) => refuse(alloc, out, &refusal),
            None => {
                let read = ready_of(alloc, files, &self.machine.facts, line)?;
                self.open_read(alloc, name, read, out)
            }
        }
    }

    // What was read is kept in a session, unless it was refused, or all open plans together would have too much.
    fn open_read(
        &mut self,
        alloc: Global,
        name: Name,
        read: Read<Ready>,
        out: &mut Vec<u8>,
    ) -> Result<Outcome, NoMemory>
        requires next { self.old.next < 2 ^ 64 - 1 }
        ensures answers { IfOk result (λ outcome. Adds out.old.items out.new.items (λ bytes. DoesSo (Opening self.old name (read_as read)) self.new bytes (is_refused outcome))) }
        ensures err { OnErr result (self.new ≡ self.old) }
        ensures silent { OnErr result (out.new.items ≡ out.old.items) }
    {
        let ready = match read {
            Read::Is(ready) => ready,
            Read::Refused(refusal) => return refuse(alloc, out, &refusal),
        };
        if let Some(refusal) = self.machine.open_refusal(&ready)? {
            return refuse(alloc, out, &refusal);
        }
        let ticket = self.machine.next;
        let line = reply_line(
            alloc,
            &Reply::Opened {
                session: name,
                ticket,
            },
        )?;
        self.machine.open(alloc, name, ready, &line, out)?;
        Ok(Outcome::Done)
    }
}
