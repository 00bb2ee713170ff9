//! The engine: a machine, and its step for each line.
ghost use Rattle.std.specs.Prelude.{◌≡◌, ◌+◌, ◌<◌, ◌≤◌, ◌-◌, ◌^◌, Ok, IfOk, OnErr, false};
ghost use Rattle.pf_source.specs.Told.{Told, file_of};
ghost use Rattle.pf_runs.specs.Runs.{Answers};
ghost use Rattle.pf_engine.specs.Answering.{Adds, AsksFor, DoesAlone, DoesSo, MayFail, is_refused, reads_files};
ghost use Rattle.pf_engine.specs.Laws.{ChangesNothing};
ghost use Rattle.pf_script.specs.Command.{command_of};
ghost use Rattle.pf_engine.specs.Step.{step};
ghost use Rattle.pf_engine.specs.TestLines.{asked};
ghost use Rattle.pf_engine.specs.Whatever.{DoesWhatever};
ghost use Rattle.pf_state.specs.Machine.{empty_machine};

use crate::outcome::Outcome;
use crate::telling::refuse;
use pf_base::{NoMemory, Steps};
use pf_eval::eval;
use pf_reply::Refusal;
use pf_rule::{Answer, Packet, Walk};
use pf_script::{Command, read_command};
use pf_source::Files;
use pf_state::Machine;
use std::alloc::Global;
use std::marker::Model;

/// The machine of script lines. Clauses see the plain machine.
#[derive(Drop)]
pub struct Engine {
    pub(crate) machine: Machine,
}

impl Model for Engine {
    ghost use Rattle.pf_state.specs.contracts.machine.Machine as machines;
    ghost use Rattle.pf_state.specs.declared.machine.Machine.{Machine};
    ghost use Rattle.pf_engine.specs.Kept.{IsKept};

    ghost Value = { Machine };

    ghost coded = { machines.the_row.coded };

    ghost view = { λ a. a.machine };

    ghost invariant = { λ a. IsKept a.machine };
}

impl pf_runs::Machine for Engine {
    ghost use Rattle.pf_engine.specs.Step.{step};

    ghost step = { step };
}

impl Engine {
    /// The engine with the empty machine. Takes no memory.
    pub fn new(alloc: Global) -> Engine
        ensures { result ≡ empty_machine }
    {
        Engine {
            machine: Machine::new(alloc),
        }
    }

    /// The answer to a packet: that of the walk through the rules as they are written, on an interface of `set skip` skip.
    /// Takes no memory.
    pub fn ask(&self, packet: &Packet) -> Answer
        ensures { result ≡ asked self.now packet.now }
    {
        let machine = &self.machine;
        let mut walk = Walk::begin(packet);
        let tree = machine.rulesets.tree();
        eval(
            tree,
            &machine.facts,
            machine.whole.skip.items(),
            &mut walk,
            &mut Steps::start(),
        )
    }

    /// Executes a script line: the machine, and what is appended to `out`, are those of the step, over the files or over the
    /// files without the one that couldn't be read. After NoMemory the machine and `out` are as before.
    pub fn step<F: Files>(
        &mut self,
        alloc: Global,
        files: &mut F,
        line: &[u8],
        out: &mut Vec<u8>,
    ) -> Result<Outcome, NoMemory>
        requires next { self.old.next < 2 ^ 64 - 1 }
        ensures answers { IfOk result (λ outcome. Told (F.tells files.old).held (λ held. Adds out.old.items out.new.items (λ bytes.
            Answers step (file_of held) line.now self.old (F.tells files.old) self.new (F.tells files.new) bytes (is_refused outcome)))) }
        ensures alone { IfOk result (λ outcome. reads_files (command_of line.now) ≡ false → Adds out.old.items out.new.items (λ bytes.
            DoesAlone self.old line.now self.new bytes (is_refused outcome))) }
        ensures whatever { IfOk result (λ outcome. Adds out.old.items out.new.items (λ bytes.
            DoesSo (DoesWhatever self.old (command_of line.now)) self.new bytes (is_refused outcome))) }
        ensures asks { IfOk result (λ outcome. Adds out.old.items out.new.items (λ bytes.
            AsksFor self.old self.new (F.tells files.old) (F.tells files.new) bytes (is_refused outcome))) }
        ensures refused { result ≡ Ok Outcome.Refused → ChangesNothing self.old line.now self.new }
        ensures drawn { self.new.next ≤ self.old.next + 1 }
        ensures fails { OnErr result (MayFail (F.tells files.old) (F.tells files.new)) }
        ensures err { OnErr result (self.new ≡ self.old) }
        ensures silent { OnErr result (out.new.items ≡ out.old.items) }
    {
        let command = match read_command(alloc, line)? {
            Some(command) => command,
            None => return refuse(alloc, out, &Refusal::BadCommand),
        };
        match command {
            Command::Load(line) => self.load(alloc, files, line, out),
            Command::Check(line) => self.check(alloc, files, line, out),
            Command::Open(name, line) => self.open(alloc, files, name, line, out),
            Command::Commit(name) => self.commit(alloc, &name, out),
            Command::Rollback(name) => self.rollback(alloc, &name, out),
            Command::Flush(path) => self.flush(alloc, &path, out),
            Command::Table(path, name, action) => self.table(alloc, &path, &name, action, out),
            Command::Show(show) => self.show(alloc, &show, out),
            Command::Hosts(file) => self.hosts(alloc, files, file, out),
            Command::Test(record) => self.test(alloc, record.bytes(), out),
        }
    }
}
