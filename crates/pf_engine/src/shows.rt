//! `show` lines (pfctl(8), -s): a reply is made whole in a buffer of its own, and then told.
ghost use Rattle.std.specs.Prelude.{◌≡◌, [], ◌∷◌, ◌++◌, IfOk, OnErr, OnOk, map, if◌then◌else◌};
ghost use Rattle.std.specs.Option.{option_copied};
ghost use Rattle.pf_base.specs.Path.{is_reserved};
ghost use Rattle.pf_engine.specs.Answering.{Adds, DoesSo, is_refused};
ghost use Rattle.pf_engine.specs.ShowLines.{lines_of_tables, show};
ghost use Rattle.pf_engine.specs.Steps.{list_text};
ghost use Rattle.pf_eval.specs.Rulesets.{named_children, optimised_in};
ghost use Rattle.pf_reply.specs.Replies as replies;
ghost use Rattle.pf_reply.specs.declared.reply.Listing.TheVariants as listings;
ghost use Rattle.pf_reply.specs.declared.reply.Reply.TheVariants.{Listed};
ghost use Rattle.pf_runs.specs.Runs.{reply_text};
ghost use Rattle.pf_show.specs.Skipping.{skip_lines};
ghost use Rattle.pf_state.specs.Rulesets.{written_in};

use crate::engine::Engine;
use crate::outcome::Outcome;
use crate::telling::{reply_line, tell};
use pf_base::{List, Name, NoMemory, Path};
use pf_optim::Node;
use pf_reply::{Listing, Reply};
use pf_rule::Rule;
use pf_script::Show;
use pf_show::{Line, put_declared, put_lines, put_skips};
use pf_state::{AtPaths, Machine};
use std::alloc::Global;

// The first line of a list of so many lines.
fn list_head(alloc: Global, listing: Listing, count: usize) -> Result<Vec<u8>, NoMemory>
    ensures { IfOk result (λ reply. reply.items ≡ reply_text (replies.reply_text (Listed listing count) ∷ [])) }
{
    let count = count as u64;
    reply_line(alloc, &Reply::Listed { listing, count })
}

/// A list as a reply: its first line, and a line for each item.
pub(crate) fn list_of<T: Line>(
    alloc: Global,
    listing: Listing,
    items: &[T],
) -> Result<Vec<u8>, NoMemory>
    ensures { IfOk result (λ reply. reply.items ≡ reply_text (list_text listing (map T.line items.now))) }
{
    let mut reply = list_head(alloc, listing, items.len())?;
    put_lines(&mut reply, items)?;
    Ok(reply)
}

// The rules of a ruleset as they are evaluated; none where there is no ruleset.
fn optimised_rules(node: Option<&Node>) -> &[Rule]
    ensures { result.now ≡ optimised_in (option_copied node.entry) }
{
    match node {
        Some(node) => node.rules.fast(),
        None => &[],
    }
}

// The rules of a ruleset as they are written.
fn written_rules(node: Option<&Node>) -> &[Rule]
    ensures { result.now ≡ written_in (option_copied node.entry) }
{
    match node {
        Some(node) => node.rules.written(),
        None => &[],
    }
}

// The skip steps of a ruleset as a reply.
fn list_skips(alloc: Global, node: Option<&Node>) -> Result<Vec<u8>, NoMemory>
    ensures { IfOk result (λ reply. reply.items ≡ reply_text (list_text listings.Skips (skip_lines (optimised_in (option_copied node.entry))))) }
{
    let Some(node) = node else {
        return list_head(alloc, Listing::Skips, 0);
    };
    let mut reply = list_head(alloc, Listing::Skips, node.rules.fast().len())?;
    put_skips(&mut reply, &node.rules)?;
    Ok(reply)
}

// The tables of a ruleset as a reply: the declared ones by name, then those that the optimiser made.
fn list_tables(alloc: Global, node: Option<&Node>) -> Result<Vec<u8>, NoMemory>
    ensures { IfOk result (λ reply. reply.items ≡ reply_text (list_text listings.Tables (lines_of_tables (option_copied node.entry)))) }
{
    let Some(node) = node else {
        return list_head(alloc, Listing::Tables, 0);
    };
    let automatic = node.rules.automatic();
    let count = node.shelf.names(alloc)?.len() + automatic.len();
    let mut reply = list_head(alloc, Listing::Tables, count)?;
    put_declared(alloc, &mut reply, &node.shelf)?;
    put_lines(&mut reply, automatic)?;
    Ok(reply)
}

// Puts a name behind others, unless it is that of an anchor without a name.
fn add_named(names: &mut List<Name>, name: &Name) -> Result<(), NoMemory>
    ensures { OnOk result (names.new ≡ names.old ++ (if is_reserved name.now then [] else name.now ∷ [])) }
{
    if name.is_reserved() {
        return Ok(());
    }
    names.push_copy(name)
}

// The names of the rulesets right below a path, in byte order, without those of anchors that have no name.
fn children_of(alloc: Global, rulesets: &AtPaths<Node>, path: &Path) -> Result<List<Name>, NoMemory>
    ensures { IfOk result (λ names. names ≡ named_children rulesets.now path.now) }
{
    let mut names = List::new(alloc);
    let mut last = None;
    while let Some(name) = rulesets.next_child(path, last.as_ref()) {
        add_named(&mut names, &name)?;
        last = Some(name);
    }
    Ok(names)
}

// What a `show` line is told.
fn listed(alloc: Global, machine: &Machine, what: &Show) -> Result<Vec<u8>, NoMemory>
    ensures { IfOk result (λ reply. reply.items ≡ reply_text (show machine.now what.now).reply) }
{
    let rulesets = &machine.rulesets;
    let whole = &machine.whole;
    match what {
        Show::Rules(path) => list_of(alloc, Listing::Rules, optimised_rules(rulesets.get(path))),
        Show::Written(path) => list_of(alloc, Listing::Written, written_rules(rulesets.get(path))),
        Show::Tables(path) => list_tables(alloc, rulesets.get(path)),
        Show::Anchors(path) => {
            let names = children_of(alloc, rulesets, path)?;
            list_of(alloc, Listing::Anchors, names.items())
        }
        Show::Skips(path) => list_skips(alloc, rulesets.get(path)),
        Show::Queues => list_of(alloc, Listing::Queues, whole.queues.items()),
        Show::Options => list_of(alloc, Listing::Options, whole.options.items()),
    }
}

impl Engine {
    // Tells what a `show` line asks for.
    pub(crate) fn show(
        &self,
        alloc: Global,
        what: &Show,
        out: &mut Vec<u8>,
    ) -> Result<Outcome, NoMemory>
        ensures answers { IfOk result (λ outcome. Adds out.old.items out.new.items (λ bytes. DoesSo (λ does. does ≡ show self.now what.now) self.now bytes (is_refused outcome))) }
        ensures silent { OnErr result (out.new.items ≡ out.old.items) }
    {
        tell(out, &listed(alloc, &self.machine, what)?)?;
        Ok(Outcome::Done)
    }
}
