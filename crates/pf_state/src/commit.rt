//! Loads and commits: all at once, or not at all.
ghost use Rattle.std.specs.Prelude.{◌≡◌, ◌++◌, ◌<◌, ◌-◌, ◌^◌, IfOk, IsSome, OnErr, OnOk, [], map, length, true, not};
ghost use Rattle.std.specs.FinMap as finite;
ghost use Rattle.std.specs.List.{list_all};
ghost use Rattle.pf_tree.specs.Meaning.{is_prepared};
ghost use Rattle.pf_state.specs.Commits.{committed, is_cleared, loaded, paths_of, settings_behind, shelf_of};
ghost use Rattle.pf_state.specs.Judging.{CommitJudged, Judged, LoadJudged};
ghost use Rattle.pf_state.specs.Verdicts.{HasShelves, refusal_in};
ghost use Rattle.pf_state.specs.Sessions.{finished_as, shelves_for};
ghost use Rattle.pf_state.specs.Outlines.{with_shelves};
ghost use Rattle.pf_state.specs.Tickets.{given, stale, ticket_at};

use crate::at_paths::AtPaths;
use crate::judge::judge;
use crate::machine::Machine;
use crate::outline::outlines_after;
use crate::ready::{Opened, Ready, Staged};
use crate::ticket::Ticket;
use pf_base::{List, Name, NoMemory, Path};
use pf_optim::Node;
use pf_plan::Whole;
use pf_reply::Refusal;
use pf_shelf::Shelf;
use pf_tree::Tree;
use std::alloc::Global;

// The tables of a part, renewed from those that stand at its path.
fn shelf_of(alloc: Global, rulesets: &AtPaths<Node>, part: &Staged) -> Result<Shelf, NoMemory>
    ensures { IfOk result (λ shelf. shelf ≡ shelf_of rulesets.now part.now) }
{
    match rulesets.get(&part.path) {
        Some(node) => node.shelf.renew(alloc, part.tables.items()),
        None => Shelf::new(alloc).renew(alloc, part.tables.items()),
    }
}

// Those of all parts.
fn shelves_of(
    alloc: Global,
    rulesets: &AtPaths<Node>,
    parts: &[Staged],
) -> Result<Vec<Shelf>, NoMemory>
    ensures { IfOk result (λ shelves. shelves.items ≡ map (shelf_of rulesets.now) parts.now) }
{
    let mut shelves = Vec::new(alloc);
    for part in parts {
        shelves.push(shelf_of(alloc, rulesets, part)?)?;
    }
    Ok(shelves)
}

/// The paths of parts.
pub(crate) fn paths_of(alloc: Global, parts: &[Staged]) -> Result<Vec<Path>, NoMemory>
    ensures { IfOk result (λ paths. paths.items ≡ paths_of parts.now) }
{
    let mut paths = Vec::new(alloc);
    for part in parts {
        paths.push(part.path)?;
    }
    Ok(paths)
}

/// Gives a ticket to each of these paths, which are prepared.
pub(crate) fn give_all(tickets: &mut Tree<Ticket>, number: u64, paths: &[Path])
    requires prepared { list_all (λ path. is_prepared tickets.old path) paths.now ≡ true }
    requires drawn { 0 < number }
    ensures payloads { tickets.new.payloads ≡ given number paths.now tickets.old.payloads }
    ensures prepared { tickets.new.prepared ≡ tickets.old.prepared }
{
    for path in paths {
        let mut ticket = Ticket::new(number);
        tickets.install(path, &mut ticket);
    }
}

// Takes away the rulesets that go with a load of these parts.
fn clear_all(tree: &mut Tree<Node>, parts: &[Staged])
    ensures payloads { tree.new.payloads ≡ finite.retain_keys tree.old.payloads (λ at. not (is_cleared parts.now at)) }
    ensures prepared { tree.new.prepared ≡ tree.old.prepared }
{
    for part in parts {
        tree.clear_under(&part.path);
    }
}

// Puts each part, with its shelf, at its path, which is prepared.
fn install_all(tree: &mut Tree<Node>, parts: Vec<Staged>, shelves: Vec<Shelf>)
    requires prepared { list_all (λ path. is_prepared tree.old path) (paths_of parts.items) ≡ true }
    requires each { length shelves.items ≡ length parts.items }
    ensures payloads { tree.new.payloads ≡ with_shelves tree.old.payloads parts.items shelves.items }
    ensures prepared { tree.new.prepared ≡ tree.old.prepared }
{
    let mut parts = parts;
    let mut shelves = shelves;
    while let Some(part) = parts.pop() {
        let Some(shelf) = shelves.pop() else {
            return;
        };
        let mut node = Node {
            rules: part.rules,
            shelf,
        };
        tree.install(&part.path, &mut node);
    }
}

// Puts a plan in place, with these shelves, at paths that are prepared.
fn put_in_place(tree: &mut Tree<Node>, whole: &mut Whole, ready: Ready, shelves: Vec<Shelf>)
    requires prepared { list_all (λ path. is_prepared tree.old path) (paths_of ready.parts) ≡ true }
    requires renewed { shelves.items ≡ map (shelf_of tree.old.payloads) ready.parts }
    ensures rulesets { tree.new.payloads ≡ committed ready.parts tree.old.payloads }
    ensures whole { whole.new ≡ settings_behind whole.old ready.whole }
{
    let Ready { parts, whole: new } = ready;
    clear_all(tree, parts.items());
    install_all(tree, parts.into_items(), shelves);
    if let Some(new) = new {
        *whole = new;
    }
}

/// What comes of judging a plan: the tables of its rulesets, renewed, where it may be put in place.
#[derive(Drop)]
pub enum Verdict {
    /// It may be put in place: these are the tables of its rulesets then, in their order.
    Fits(List<Shelf>),
    /// It may not.
    Refused(Refusal),
}

// Whether parts may be put in place, by the tree as it would stand then.
fn judge_parts(
    alloc: Global,
    rulesets: &AtPaths<Node>,
    parts: &[Staged],
) -> Result<Verdict, NoMemory>
    ensures judged { IfOk result (λ verdict. Judged [] (committed parts.now rulesets.now) (refusal_in verdict)) }
    ensures shelves { IfOk result (λ verdict. HasShelves (map (shelf_of rulesets.now) parts.now) verdict) }
{
    let shelves = shelves_of(alloc, rulesets, parts)?;
    let outlines = outlines_after(alloc, rulesets, parts, &shelves)?;
    match judge(alloc, outlines)? {
        Some(refusal) => Ok(Verdict::Refused(refusal)),
        None => Ok(Verdict::Fits(List::of(shelves))),
    }
}

// The first of these paths that hasn't this ticket.
fn stale(tickets: &AtPaths<Ticket>, held: u64, parts: &[Staged]) -> Option<Refusal>
    ensures { result ≡ stale tickets.now held (paths_of parts.now) }
{
    for part in parts {
        let now = ticket_at(tickets, &part.path);
        if now != held {
            return Some(Refusal::Stale {
                path: part.path,
                held,
                now,
            });
        }
    }
    None
}

// The ticket of a path, 0 where it was given none.
fn ticket_at(tickets: &AtPaths<Ticket>, path: &Path) -> u64
    ensures { result ≡ ticket_at tickets.now path.now }
{
    match tickets.get(path) {
        Some(ticket) => ticket.number(),
        None => 0,
    }
}

impl Machine {
    /// Whether the plan of a load may be put in place.
    pub fn judge_load(&self, alloc: Global, ready: &Ready) -> Result<Verdict, NoMemory>
        ensures judged { IfOk result (λ verdict. LoadJudged self.now ready.now (refusal_in verdict)) }
        ensures shelves { IfOk result (λ verdict. HasShelves (map (shelf_of self.now.rulesets) ready.now.parts) verdict) }
    {
        judge_parts(alloc, &self.rulesets, ready.parts.items())
    }

    /// Whether the plan of a session may be put in place: not where one of its rulesets was begun anew since it was opened.
    pub fn judge_commit(&self, alloc: Global, session: &Opened) -> Result<Verdict, NoMemory>
        ensures judged { IfOk result (λ verdict. CommitJudged self.now session.now (refusal_in verdict)) }
        ensures shelves { IfOk result (λ verdict. HasShelves (map (shelf_of self.now.rulesets) session.now.ready.parts) verdict) }
    {
        let parts = session.ready.parts.items();
        let judged = judge_parts(alloc, &self.rulesets, parts)?;
        match stale(&self.tickets, session.ticket, parts) {
            Some(refusal) => Ok(Verdict::Refused(refusal)),
            None => Ok(judged),
        }
    }

    /// Puts the plan of a load in place, with these tables, and appends the reply: all at once, or without memory nothing.
    pub fn load(
        &mut self,
        alloc: Global,
        ready: Ready,
        shelves: List<Shelf>,
        reply: &[u8],
        out: &mut Vec<u8>,
    ) -> Result<(), NoMemory>
        requires drawn { 0 < self.old.next }
        requires next { self.old.next < 2 ^ 64 - 1 }
        requires renewed { shelves ≡ map (shelf_of self.old.rulesets) ready.parts }
        ensures ok { OnOk result (self.new ≡ loaded ready self.old) }
        ensures told { OnOk result (out.new.items ≡ out.old.items ++ reply.now) }
        ensures err { OnErr result (self.new ≡ self.old) }
        ensures silent { OnErr result (out.new.items ≡ out.old.items) }
    {
        let paths = paths_of(alloc, ready.parts.items())?;
        let rulesets = &mut self.rulesets;
        let tickets = &mut self.tickets;
        rulesets.tree.prepare(alloc, &paths)?;
        tickets.tree.prepare(alloc, &paths)?;
        out.extend_from_slice(reply)?;
        give_all(&mut tickets.tree, self.next, &paths);
        self.next += 1;
        put_in_place(
            &mut rulesets.tree,
            &mut self.whole,
            ready,
            shelves.into_items(),
        );
        Ok(())
    }

    /// Puts the plan of an open session in place, with these tables, closes the session and appends the reply: all at once, or
    /// without memory nothing.
    pub fn commit(
        &mut self,
        alloc: Global,
        name: &Name,
        shelves: List<Shelf>,
        reply: &[u8],
        out: &mut Vec<u8>,
    ) -> Result<(), NoMemory>
        requires open { IsSome (finite.get self.old.sessions name.now) }
        requires renewed { shelves ≡ shelves_for self.old (finite.get self.old.sessions name.now) }
        ensures ok { OnOk result (self.new ≡ finished_as name.now (finite.get self.old.sessions name.now) self.old) }
        ensures told { OnOk result (out.new.items ≡ out.old.items ++ reply.now) }
        ensures err { OnErr result (self.new ≡ self.old) }
        ensures silent { OnErr result (out.new.items ≡ out.old.items) }
    {
        let Some(session) = self.sessions.get(name) else {
            return Ok(());
        };
        let paths = paths_of(alloc, session.ready.parts.items())?;
        let rulesets = &mut self.rulesets;
        rulesets.tree.prepare(alloc, &paths)?;
        out.extend_from_slice(reply)?;
        if let Some(closed) = self.sessions.remove(name) {
            put_in_place(
                &mut rulesets.tree,
                &mut self.whole,
                closed.ready,
                shelves.into_items(),
            );
        }
        Ok(())
    }
}
