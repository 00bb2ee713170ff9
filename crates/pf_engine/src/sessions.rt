//! `commit`, `rollback` and `flush` lines.
ghost use Rattle.std.specs.Prelude.{◌≡◌, ◌<◌, ◌-◌, ◌^◌, IfOk, OnErr, Some, is_some};
ghost use Rattle.pf_engine.specs.Answering.{Adds, DoesSo, is_refused};
ghost use Rattle.std.specs.FinMap as finite;
ghost use Rattle.pf_engine.specs.SessionLines.{CommitDoes, step_flush, step_rollback};
ghost use Rattle.pf_engine.specs.SessionsJudged.{SessionJudged};
ghost use Rattle.pf_state.specs.Sessions.{closed};

use crate::engine::Engine;
use crate::outcome::Outcome;
use crate::telling::{into_line, refuse, reply_line, tell};
use pf_base::{Name, NoMemory, Path};
use pf_eval::fewer_calls_stay_shallow;
use pf_reply::{Refusal, Reply};
use pf_state::{Machine, Verdict};
use std::alloc::Global;

// Whether the plan of a session may be put in place; None where no session of this name is open.
fn judge_session(alloc: Global, machine: &Machine, name: &Name) -> Result<Option<Verdict>, NoMemory>
    ensures { IfOk result (λ verdict. SessionJudged machine.now (finite.get machine.now.sessions name.now) verdict) }
{
    match machine.sessions.get(name) {
        Some(session) => Ok(Some(machine.judge_commit(alloc, session)?)),
        None => Ok(None),
    }
}

// Whether a session of this name is open.
fn is_open(machine: &Machine, name: &Name) -> bool
    ensures { result ≡ is_some (finite.get machine.now.sessions name.now) }
{
    machine.sessions.get(name).is_some()
}

// Closes a session.
fn close(machine: &mut Machine, name: &Name)
    ensures { machine.new ≡ closed name.now machine.old }
{
    machine.sessions.remove(name);
}

impl Engine {
    // A session's plan is put in place, or not; the session is closed in any case, as soon as that is told.
    pub(crate) fn commit(
        &mut self,
        alloc: Global,
        name: &Name,
        out: &mut Vec<u8>,
    ) -> Result<Outcome, NoMemory>
        ensures answers { IfOk result (λ outcome. Adds out.old.items out.new.items (λ bytes. DoesSo (CommitDoes self.old name.now) self.new bytes (is_refused outcome))) }
        ensures err { OnErr result (self.new ≡ self.old) }
        ensures silent { OnErr result (out.new.items ≡ out.old.items) }
    {
        match judge_session(alloc, &self.machine, name)? {
            None => refuse(alloc, out, &Refusal::NoSession(*name)),
            Some(verdict) => self.commit_as(alloc, name, verdict, out),
        }
    }

    // The same for an open session, by what came of judging its plan.
    fn commit_as(
        &mut self,
        alloc: Global,
        name: &Name,
        verdict: Verdict,
        out: &mut Vec<u8>,
    ) -> Result<Outcome, NoMemory>
        requires { SessionJudged self.old (finite.get self.old.sessions name.now) (Some verdict) }
        ensures answers { IfOk result (λ outcome. Adds out.old.items out.new.items (λ bytes. DoesSo (CommitDoes self.old name.now) self.new bytes (is_refused outcome))) }
        ensures err { OnErr result (self.new ≡ self.old) }
        ensures silent { OnErr result (out.new.items ≡ out.old.items) }
    {
        match verdict {
            Verdict::Refused(refusal) => {
                let line = into_line(alloc, refusal)?;
                tell(out, &line)?;
                close(&mut self.machine, name);
                Ok(Outcome::Refused)
            }
            Verdict::Fits(shelves) => {
                let line = reply_line(alloc, &Reply::Committed(*name))?;
                self.machine.commit(alloc, name, shelves, &line, out)?;
                Ok(Outcome::Done)
            }
        }
    }

    // A session is given up, as soon as that is told.
    pub(crate) fn rollback(
        &mut self,
        alloc: Global,
        name: &Name,
        out: &mut Vec<u8>,
    ) -> Result<Outcome, NoMemory>
        ensures answers { IfOk result (λ outcome. Adds out.old.items out.new.items (λ bytes. DoesSo (λ does. does ≡ step_rollback self.old name.now) self.new bytes (is_refused outcome))) }
        ensures err { OnErr result (self.new ≡ self.old) }
        ensures silent { OnErr result (out.new.items ≡ out.old.items) }
    {
        if !is_open(&self.machine, name) {
            return refuse(alloc, out, &Refusal::NoSession(*name));
        }
        let line = reply_line(alloc, &Reply::RolledBack(*name))?;
        tell(out, &line)?;
        close(&mut self.machine, name);
        Ok(Outcome::Done)
    }

    // The rules of a ruleset go.
    pub(crate) fn flush(
        &mut self,
        alloc: Global,
        path: &Path,
        out: &mut Vec<u8>,
    ) -> Result<Outcome, NoMemory>
        requires next { self.old.next < 2 ^ 64 - 1 }
        ensures answers { IfOk result (λ outcome. Adds out.old.items out.new.items (λ bytes. DoesSo (λ does. does ≡ step_flush self.old path.now) self.new bytes (is_refused outcome))) }
        ensures err { OnErr result (self.new ≡ self.old) }
        ensures silent { OnErr result (out.new.items ≡ out.old.items) }
    {
        fewer_calls_stay_shallow();
        let line = reply_line(alloc, &Reply::Flushed(*path))?;
        self.machine.flush(alloc, path, &line, out)?;
        Ok(Outcome::Done)
    }
}
