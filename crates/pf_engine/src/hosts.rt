//! `hosts` lines: what is known of the host is what a facts file says.
ghost use Rattle.std.specs.Prelude.{◌≡◌, [], IfOk, OnErr, Ok};
ghost use Rattle.pf_runs.specs.Runs.{Answers};
ghost use Rattle.pf_source.specs.Asks.{Asks};
ghost use Rattle.pf_source.specs.Disk.{without};
ghost use Rattle.pf_source.specs.Told.{Told, file_of};
ghost use Rattle.pf_engine.specs.Answering.{Adds, AsksFor, DoesSo, MayFail, is_refused};
ghost use Rattle.pf_engine.specs.FilesRead.{outage_in, read_as, unread_by};
ghost use Rattle.pf_engine.specs.Kept.{IsKept};
ghost use Rattle.pf_engine.specs.HostLines.{FactsIn, FactsMayCome, FactsSay, HostsDoes, TakesFacts, with_facts};

use crate::bounded::{Bounded, read_bounded};
use crate::engine::Engine;
use crate::loads::Read;
use crate::outcome::Outcome;
use crate::telling::{refuse, reply_line, tell};
use pf_base::{NoMemory, Text};
use pf_host::{Facts, FactsFault, read_facts};
use pf_reply::{Refusal, Reply};
use pf_source::Files;
use pf_state::Machine;
use std::alloc::Global;

// The facts that a text says.
fn facts_in(alloc: Global, text: &[u8]) -> Result<Read<Facts>, NoMemory>
    ensures says { IfOk result (λ read. FactsSay text.now (read_as read)) }
    ensures unread { unread_by result ≡ [] }
{
    match read_facts(alloc, text) {
        Ok(facts) => Ok(Read::Is(facts)),
        Err(FactsFault::Line { line, cause: _ }) => Ok(Read::Refused(Refusal::FactsFault(line))),
        Err(FactsFault::NoMemory) => Err(NoMemory),
    }
}

// The facts that a file says; line 0 stands for the whole file.
fn facts_of<F: Files>(alloc: Global, files: &mut F, file: Text) -> Result<Read<Facts>, NoMemory>
    ensures means { IfOk result (λ read. Told (F.tells files.old).held (λ held. FactsIn file ((without (outage_in (read_as read)) (file_of held)) file) (read_as read))) }
    ensures asks { Asks (unread_by result) (F.tells files.old) (F.tells files.new) }
    ensures comes { IfOk result (λ read. FactsMayCome file (read_as read)) }
{
    match read_bounded(alloc, files, &file)? {
        Bounded::Bytes(text) => facts_in(alloc, text.items()),
        Bounded::TooLarge => Ok(Read::Refused(Refusal::FactsFault(0))),
        Bounded::Failed => Ok(Read::Refused(Refusal::CannotRead(file))),
    }
}

// Other facts take the place of those that stand.
fn put_facts(machine: &mut Machine, facts: Facts)
    ensures { machine.new ≡ record machine.old { facts = facts } }
{
    machine.facts = facts;
}

// The facts that were read take the place of those that stand, as soon as that is told.
fn take_facts(
    alloc: Global,
    machine: &mut Machine,
    read: Read<Facts>,
    out: &mut Vec<u8>,
) -> Result<Outcome, NoMemory>
    requires { IsKept machine.old }
    ensures answers { IfOk result (λ outcome. Adds out.old.items out.new.items (λ bytes. DoesSo (λ does. does ≡ with_facts machine.old (read_as read)) machine.new bytes (is_refused outcome))) }
    ensures drawn { machine.new.next ≡ machine.old.next }
    ensures kept { IsKept machine.new }
    ensures err { OnErr result (machine.new ≡ machine.old) }
    ensures silent { OnErr result (out.new.items ≡ out.old.items) }
{
    match read {
        Read::Is(facts) => {
            let count = facts.interfaces().len() as u64;
            tell(out, &reply_line(alloc, &Reply::Hosts(count))?)?;
            put_facts(machine, facts);
            Ok(Outcome::Done)
        }
        Read::Refused(refusal) => refuse(alloc, out, &refusal),
    }
}

impl Engine {
    // The facts of the host are replaced by those of a file.
    pub(crate) fn hosts<F: Files>(
        &mut self,
        alloc: Global,
        files: &mut F,
        file: Text,
        out: &mut Vec<u8>,
    ) -> Result<Outcome, NoMemory>
        ensures answers { IfOk result (λ outcome. Told (F.tells files.old).held (λ held. Adds out.old.items out.new.items (λ bytes. Answers HostsDoes (file_of held) file self.old (F.tells files.old) self.new (F.tells files.new) bytes (is_refused outcome)))) }
        ensures whatever { IfOk result (λ outcome. Adds out.old.items out.new.items (λ bytes. DoesSo (TakesFacts self.old file) self.new bytes (is_refused outcome))) }
        ensures asks { IfOk result (λ outcome. Adds out.old.items out.new.items (λ bytes. AsksFor self.old self.new (F.tells files.old) (F.tells files.new) bytes (is_refused outcome))) }
        ensures refused { result ≡ Ok Outcome.Refused → self.new ≡ self.old }
        ensures drawn { self.new.next ≡ self.old.next }
        ensures fails { OnErr result (MayFail (F.tells files.old) (F.tells files.new)) }
        ensures err { OnErr result (self.new ≡ self.old) }
        ensures silent { OnErr result (out.new.items ≡ out.old.items) }
    {
        let read = facts_of(alloc, files, file)?;
        take_facts(alloc, &mut self.machine, read, out)
    }
}
