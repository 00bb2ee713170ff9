//! Sessions that are opened (pf(4), DIOCXBEGIN).
ghost use Rattle.std.specs.Prelude.{◌≡◌, ◌+◌, ◌++◌, ◌<◌, ◌-◌, ◌^◌, IfOk, OnErr, OnOk, length};
ghost use Rattle.std.specs.List.{sum_by};
ghost use Rattle.pf_state.specs.Sessions as says;
ghost use Rattle.pf_state.specs.Limits.{declared_entries, planned_entries, planned_rules, plans_of};
ghost use Rattle.pf_state.specs.declared.ready.Opened.{Opened as Session};

use crate::by_name::ByName;
use crate::commit::{give_all, paths_of};
use crate::judge::limit_refusal;
use crate::machine::Machine;
use crate::ready::{Opened, Ready, Staged};
use pf_base::{Name, NoMemory, name_map_laws};
use pf_reply::Refusal;
use std::alloc::Global;

/// So many sessions may be open.
const MOST_SESSIONS: usize = 64;

// How much plans have, together.
#[derive(Clone, Copy)]
struct Amount {
    rules: u64,
    rulesets: u64,
    entries: u64,
}

// The number of the entries that a part declares.
fn declared_entries(part: &Staged) -> Result<u64, NoMemory>
    ensures { IfOk result (λ count. count ≡ declared_entries part.now) }
{
    let mut count = 0u64;
    for table in part.tables.items() {
        count = count
            .checked_add(table.entries.items().len() as u64)
            .ok_or(NoMemory)?;
    }
    Ok(count)
}

// What a plan adds to an amount.
fn with_plan(amount: Amount, ready: &Ready) -> Result<Amount, NoMemory>
    ensures { IfOk result (λ sum. sum ≡ record {
      rules = amount.rules + planned_rules ready.now;
      rulesets = amount.rulesets + length ready.now.parts;
      entries = amount.entries + planned_entries ready.now;
    }) }
{
    let mut sum = amount;
    for part in ready.parts.items() {
        let rules = part.rules.written().len() as u64;
        sum.rules = sum.rules.checked_add(rules).ok_or(NoMemory)?;
        sum.rulesets = sum.rulesets.checked_add(1).ok_or(NoMemory)?;
        sum.entries = sum
            .entries
            .checked_add(declared_entries(part)?)
            .ok_or(NoMemory)?;
    }
    Ok(sum)
}

// What the plans of open sessions have, together.
fn opened_amount(sessions: &ByName<Opened>) -> Result<Amount, NoMemory>
    ensures { IfOk result (λ amount. amount ≡ record {
      rules = sum_by (λ (opened : Session). planned_rules opened.ready) (plans_of sessions.now);
      rulesets = sum_by (λ (opened : Session). length opened.ready.parts) (plans_of sessions.now);
      entries = sum_by (λ (opened : Session). planned_entries opened.ready) (plans_of sessions.now);
    }) }
{
    name_map_laws::<Opened>();
    let mut amount = Amount {
        rules: 0,
        rulesets: 0,
        entries: 0,
    };
    for opened in sessions.values.values() {
        amount = with_plan(amount, &opened.ready)?;
    }
    Ok(amount)
}

impl Machine {
    /// Why no session of this name may be opened, before any file is read; None where one may. Takes no memory.
    pub fn entry_refusal(&self, name: &Name) -> Option<Refusal>
        ensures { result ≡ says.entry_refusal self.now name.now }
    {
        if self.sessions.get(name).is_some() {
            return Some(Refusal::SessionOpen(*name));
        }
        if self.sessions.count() >= MOST_SESSIONS {
            return Some(Refusal::SessionsFull);
        }
        None
    }

    /// Why no session may be opened with this plan: all open plans together would have too much. None where one may.
    pub fn open_refusal(&self, ready: &Ready) -> Result<Option<Refusal>, NoMemory>
        ensures { IfOk result (λ refusal. refusal ≡ says.open_refusal self.now ready.now) }
    {
        let before = opened_amount(&self.sessions)?;
        let amount = with_plan(before, ready)?;
        Ok(limit_refusal(amount.rules, amount.rulesets, amount.entries))
    }

    /// Opens a session with this plan, which draws a ticket for its rulesets, and appends the reply: all at once, or without
    /// memory nothing.
    pub fn open(
        &mut self,
        alloc: Global,
        name: Name,
        ready: Ready,
        reply: &[u8],
        out: &mut Vec<u8>,
    ) -> Result<(), NoMemory>
        requires drawn { 0 < self.old.next }
        requires next { self.old.next < 2 ^ 64 - 1 }
        ensures ok { OnOk result (self.new ≡ says.opened name ready self.old) }
        ensures told { OnOk result (out.new.items ≡ out.old.items ++ reply.now) }
        ensures err { OnErr result (self.new ≡ self.old) }
        ensures silent { OnErr result (out.new.items ≡ out.old.items) }
    {
        let paths = paths_of(alloc, ready.parts.items())?;
        let tickets = &mut self.tickets;
        tickets.tree.prepare(alloc, &paths)?;
        let before = out.len();
        out.extend_from_slice(reply)?;
        let ticket = self.next;
        if self
            .sessions
            .insert(name, Opened { ready, ticket })
            .is_err()
        {
            out.truncate(before);
            return Err(NoMemory);
        }
        give_all(&mut tickets.tree, ticket, &paths);
        self.next += 1;
        Ok(())
    }
}
